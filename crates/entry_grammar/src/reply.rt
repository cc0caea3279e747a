//! Reads replies. The kind of the event decides what a reply may be.

ghost use Rattle.std.specs.Prelude.{⊤, IfOk, IsTrue, OnErr};
ghost use Rattle.rule_machine.specs.declared.refusal.Refusal.{Refusal};
ghost use Rattle.line_text.specs.ReplyText.{refusal_words};
ghost use Rattle.line_text.specs.Parsing.{ParsesAs};
ghost use Rattle.entry_grammar.specs.Spelling.{has_list};
ghost use Rattle.entry_grammar.specs.Parsing.{ReadsReply, is_done, answers_step, is_shown, reply_suits};

use crate::counts::{read_counts, read_up_to};
use crate::cut::cut;
use crate::token::{read_list, read_words};
use line_text::{after, read_target};
use rule_machine::{Event, Refusal, Reply, Want};
use std::alloc::Global;

// Reads a refusal's number and text; `None` if they do not match.
fn read_refusal(bytes: &[u8]) -> Option<Refusal>
    ensures { ParsesAs (λ (refusal : Refusal). ⊤) refusal_words bytes.now result }
{
    let (digits, text) = cut(bytes, b' ')?;
    let number = read_up_to(digits, u32::MAX)?;
    let refusal = Refusal::from_number(number)?;
    if text != refusal.text().as_bytes() {
        return None;
    }
    Some(refusal)
}

// Reads the reply to a disturbance.
fn read_done(bytes: &[u8]) -> Option<Reply>
    ensures { ReadsReply is_done bytes.now result }
{
    if bytes == b"ok".as_slice() {
        return Some(Reply::Accepted);
    }
    let words = after(bytes, b"refused ")?;
    read_refusal(words).map(|refusal| Reply::Refused(refusal))
}

// Reads the reply to a step.
fn read_moved(alloc: Global, bytes: &[u8]) -> Result<Option<Reply>, Want>
    ensures { IfOk result (ReadsReply answers_step bytes.now) }
{
    if let Some(words) = after(bytes, b"refused ") {
        let Some(refusal) = read_refusal(words) else {
            return Ok(None);
        };
        return Ok(Some(Reply::Refused(refusal)));
    }
    Ok(read_words(alloc, bytes)?.map(|moves| Reply::Moves(moves)))
}

// Reads the reply to `show`.
fn read_shown(bytes: &[u8]) -> Option<Reply>
    ensures { ReadsReply is_shown bytes.now result }
{
    if let Some(words) = after(bytes, b"refused ") {
        let refusal = read_refusal(words)?;
        return Some(Reply::Refused(refusal));
    }
    read_target(bytes).map(|target| Reply::Shown(target))
}

/// Reads a reply to this event; `None` if the bytes spell no reply of the event's kind.
/// Takes memory only for lists. Error: out of memory.
pub fn read_reply(alloc: Global, event: &Event, bytes: &[u8]) -> Result<Option<Reply>, Want>
    ensures reply { IfOk result (ReadsReply (reply_suits event.now) bytes.now) }
    ensures memory { OnErr result (IsTrue (has_list event.now)) }
{
    match event {
        Event::Step(_) => read_moved(alloc, bytes),
        Event::Show(_) => Ok(read_shown(bytes)),
        Event::Enabled => Ok(read_list(alloc, bytes)?.map(|nodes| Reply::EnabledAre(nodes))),
        Event::Matching => Ok(read_list(alloc, bytes)?.map(|pairs| Reply::Pairs(pairs))),
        Event::Status => Ok(read_counts(bytes).map(|counts| Reply::Counts(counts))),
        Event::Link(..)
        | Event::Unlink(..)
        | Event::Point(..)
        | Event::Flag(..)
        | Event::Join(_)
        | Event::Leave(_) => Ok(read_done(bytes)),
    }
}
