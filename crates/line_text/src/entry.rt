//! The lines of a transcript.

ghost use Rattle.std.specs.Prelude.{◌≡◌, ◌+◌, ◌<◌, ◌≤◌, [], ◌∷◌, ◌++◌, length, codes, take, IfSome, OnOk, OnErr};
ghost use Rattle.rule_machine.specs.declared.event.Event.TheVariants.{Step};
ghost use Rattle.rule_machine.specs.declared.reply.Reply.TheVariants.{Moves};
ghost use Rattle.line_text.specs.EventText.{IsEvent, IsItem};
ghost use Rattle.line_text.specs.ReplyText.{IsMoved, IsReply, reply_text};
ghost use Rattle.line_text.specs.EntryText.{sizes_text, header_line, entry_line, numbered_text};
ghost use Rattle.line_text.specs.Words.{Extends};

use crate::events::put_event;
use crate::numbers::{put_name_then, put_number, put_number_then};
use crate::replies::put_reply;
use crate::room::{TOO_LONG, put_digits, put_window};
use crate::word::Word;
use rule_machine::{Event, Item, Moved, Reply, RuleSet, Want};

// An entry with one item and one move has fewer bytes than this.
const ROOM: usize = 72;

fn put_sizes(out: &mut Vec<u8>, size: u32, count: u32) -> Result<(), Want>
    ensures ok { OnOk result (out.new.items ≡ out.old.items ++ sizes_text size count) }
    ensures err { OnErr result (Extends out.old.items out.new.items) }
{
    put_number(out, size)?;
    if count < size {
        out.push(b' ')?;
        put_number(out, count)?;
    }
    Ok(())
}

fn append_header(out: &mut Vec<u8>, rules: RuleSet, size: u32, count: u32) -> Result<(), Want>
    ensures ok { OnOk result (out.new.items ≡ out.old.items ++ header_line rules size count) }
    ensures err { OnErr result (Extends out.old.items out.new.items) }
{
    out.extend_from_slice(b"matching ")?;
    out.extend_from_slice(rules.word().as_bytes())?;
    out.push(b' ')?;
    put_sizes(out, size, count)?;
    out.extend_from_slice(b"\n")
}

// Not inlined: most replies are `ok`, and that path then saves no registers for this one.
#[inline(never)]
fn append_other_answer(out: &mut Vec<u8>, reply: &Reply) -> Result<(), Want>
    ensures ok { OnOk result (out.new.items ≡ out.old.items ++ (codes " = " ++ reply_text reply.now ++ 10 ∷ [])) }
    ensures err { OnErr result (Extends out.old.items out.new.items) }
    ensures named { OnOk result (IsReply reply.now) }
{
    match reply {
        Reply::Shown(None) => out.extend_from_slice(b" = -\n"),
        Reply::Shown(Some(node)) => {
            out.extend_from_slice(b" = ")?;
            put_name_then(out, *node, b'\n')
        }
        _ => {
            out.extend_from_slice(b" = ")?;
            put_reply(out, reply)?;
            out.push(b'\n')?;
            Ok(())
        }
    }
}

#[inline(always)]
fn append_answer(out: &mut Vec<u8>, reply: &Reply) -> Result<(), Want>
    ensures ok { OnOk result (out.new.items ≡ out.old.items ++ (codes " = " ++ reply_text reply.now ++ 10 ∷ [])) }
    ensures err { OnErr result (Extends out.old.items out.new.items) }
    ensures named { OnOk result (IsReply reply.now) }
{
    match reply {
        Reply::Accepted => out.extend_from_slice(b" = ok\n"),
        _ => append_other_answer(out, reply),
    }
}

#[inline(always)]
fn one_move<'a>(event: &'a Event, reply: &'a Reply) -> Option<(&'a Item, &'a Moved)>
    ensures { IfSome result (λ pair. (event.now ≡ Step (pair.0.now ∷ [])) × (reply.now ≡ Moves (pair.1.now ∷ []))) }
{
    let (Event::Step(choice), Reply::Moves(moves)) = (event, reply) else {
        return None;
    };
    match (choice.items(), moves.as_slice()) {
        ([item], [moved]) => Some((item, moved)),
        _ => None,
    }
}

#[inline(always)]
fn put_one_move(room: &mut [u8], at: usize, number: u32, item: &Item, moved: &Moved) -> usize
    requires below { number < 1000000 }
    requires space { at + 72 ≤ length room.old }
    ensures text { take result room.new ≡ take at room.old ++ entry_line number (Step (item.now ∷ [])) (Moves (moved.now ∷ [])) }
    ensures fit { IsItem item.now × IsMoved moved.now }
{
    let at = put_digits(room, at, number, b' ');
    let at = put_window(room, at, *b"step    ", 5);
    let at = item.put(room, at, b' ');
    let at = put_window(room, at, *b"=       ", 2);
    moved.put(room, at, b'\n')
}

// One check for room.
fn append_one_move(out: &mut Vec<u8>, number: u32, item: &Item, moved: &Moved) -> Result<(), Want>
    requires { number < 1000000 }
    ensures ok { OnOk result (out.new.items ≡ out.old.items ++ entry_line number (Step (item.now ∷ [])) (Moves (moved.now ∷ []))) }
    ensures err { OnErr result (out.new.items ≡ out.old.items) }
    ensures fit { OnOk result (IsItem item.now × IsMoved moved.now) }
{
    let at = out.len();
    out.extend_from_slice(&[0; ROOM])?;
    let end = put_one_move(out.as_mut_slice(), at, number, item, moved);
    out.truncate(end);
    Ok(())
}

fn append_entry(out: &mut Vec<u8>, number: u32, event: &Event, reply: &Reply) -> Result<(), Want>
    ensures ok { OnOk result (out.new.items ≡ out.old.items ++ entry_line number event.now reply.now) }
    ensures err { OnErr result (Extends out.old.items out.new.items) }
    ensures named { OnOk result (IsEvent event.now × IsReply reply.now) }
{
    if let Some((item, moved)) = one_move(event, reply)
        && number < TOO_LONG
    {
        return append_one_move(out, number, item, moved);
    }
    put_number_then(out, number, b' ')?;
    put_event(out, event)?;
    append_answer(out, reply)
}

fn append_line(out: &mut Vec<u8>, number: u32, line: &[u8], reply: &Reply) -> Result<(), Want>
    ensures ok { OnOk result (out.new.items ≡ out.old.items ++ (numbered_text number line.now reply.now ++ 10 ∷ [])) }
    ensures err { OnErr result (Extends out.old.items out.new.items) }
    ensures named { OnOk result (IsReply reply.now) }
{
    put_number_then(out, number, b' ')?;
    out.extend_from_slice(line)?;
    append_answer(out, reply)
}

/// If the write failed, cuts the text back to its first `len` bytes.
pub(crate) fn whole_or_none(
    out: &mut Vec<u8>,
    len: usize,
    done: Result<(), Want>,
) -> Result<(), Want>
    ensures same { result ≡ done }
    ensures ok { OnOk done (out.new.items ≡ out.old.items) }
    ensures err { OnErr done (out.new.items ≡ take len out.old.items) }
{
    if done.is_err() {
        out.truncate(len);
    }
    done
}

/// Appends a transcript's header, with its LF.
/// `count` of the `size` names are present at the start; the header omits `count` if all names are.
/// A `count` above `size` counts as `size`. If memory runs out, `out` is unchanged.
pub fn put_header(out: &mut Vec<u8>, rules: RuleSet, size: u32, count: u32) -> Result<(), Want>
    ensures ok { OnOk result (out.new.items ≡ out.old.items ++ header_line rules size count) }
    ensures err { OnErr result (out.new.items ≡ out.old.items) }
{
    let len = out.len();
    let done = append_header(out, rules, size, count);
    whole_or_none(out, len, done)
}

/// Appends the entry with this number: the event and its reply, with an LF.
/// If memory runs out, `out` is unchanged.
pub fn put_entry(out: &mut Vec<u8>, number: u32, event: &Event, reply: &Reply) -> Result<(), Want>
    ensures ok { OnOk result (out.new.items ≡ out.old.items ++ entry_line number event.now reply.now) }
    ensures err { OnErr result (out.new.items ≡ out.old.items) }
    ensures named { OnOk result (IsEvent event.now × IsReply reply.now) }
{
    let len = out.len();
    let done = append_entry(out, number, event, reply);
    whole_or_none(out, len, done)
}

/// Like `put_entry`, but copies the event's script line instead of writing the event.
pub fn put_entry_of_line(
    out: &mut Vec<u8>,
    number: u32,
    line: &[u8],
    reply: &Reply,
) -> Result<(), Want>
    ensures ok { OnOk result (out.new.items ≡ out.old.items ++ (numbered_text number line.now reply.now ++ 10 ∷ [])) }
    ensures err { OnErr result (out.new.items ≡ out.old.items) }
    ensures named { OnOk result (IsReply reply.now) }
{
    let len = out.len();
    let done = append_line(out, number, line, reply);
    whole_or_none(out, len, done)
}
