//! The entries of a transcript.

ghost use Rattle.std.specs.Prelude.{◌≡◌, ℕ, ◌<◌, ◌≤◌, List, IfOk, IfErr, MatchOption};
ghost use Rattle.rule_machine.specs.declared.event.Event.{Event};
ghost use Rattle.rule_machine.specs.declared.reply.Reply.{Reply};
ghost use Rattle.line_text.specs.Words.{number_text};
ghost use Rattle.line_text.specs.EntryText.{entry_text};
ghost use Rattle.entry_grammar.specs.Spelling.{max_entries, AsksForList, SpellsEntry};
ghost use Rattle.entry_grammar.specs.Parsing.{PartsOf};
ghost use Rattle.entry_grammar.specs.declared.fault.EntryFault.TheVariants.{Memory, NotALine};

use crate::cut::{before, behind, cut_far};
use crate::fault::EntryFault;
use crate::reply::read_reply;
use line_text::{number_in_front, put_entry, read_command};
use log_entry::{Entry, MAX_ENTRIES};
use rule_machine::Want;
use std::alloc::Global;

fn parts(line: &[u8]) -> Option<(u32, &[u8], &[u8])>
    ensures { MatchOption result
        ((number : ℕ) (event : List ℕ) (reply : List ℕ) → number < 100000000 → PartsOf line.now (number_text number) event reply → ⊥)
        (λ found. (found.0 < 100000000) × PartsOf line.now (number_text found.0) found.1.now found.2.now) }
{
    let (number, numbered) = number_in_front(line)?;
    let rest = behind(numbered, b' ')?;
    let (asked, answered) = cut_far(rest, b'=')?;
    let event = before(asked, b" ")?;
    let reply = behind(answered, b' ')?;
    Some((number, event, reply))
}

/// The line of the entry with this number, without an LF. `read_entry` reads the line back.
/// Error: out of memory.
pub fn entry_text(alloc: Global, number: u32, entry: &Entry) -> Result<Vec<u8>, Want>
    requires { (1 ≤ number) × (number ≤ max_entries) }
    ensures text { IfOk result (λ text. text.items ≡ entry_text number entry.now.0 entry.now.1) }
    ensures spelled { IfOk result (λ text. SpellsEntry text.items number entry.now) }
{
    let mut text = Vec::new(alloc);
    put_entry(&mut text, number, entry.event(), entry.reply())?;
    text.pop();
    Ok(text)
}

/// Reads an entry and its number from a line without its LF.
/// Errors: `NotALine` if the line spells no entry; `Memory` if memory runs out.
/// Only lines of a step, `enabled` or `matching` take memory. Other lines, also bad ones, take none.
#[inline(always)]
pub fn read_entry(alloc: Global, line: &[u8]) -> Result<(u32, Entry), EntryFault>
    ensures ok { IfOk result (λ found. SpellsEntry line.now found.0 found.1) }
    ensures not_a_line { IfErr result (λ fault. fault ≡ NotALine
        → (number : ℕ) (entry : Event × Reply) → SpellsEntry line.now number entry → ⊥) }
    ensures memory { IfErr result (λ fault. fault ≡ Memory → AsksForList line.now) }
{
    let Some((number, event, reply)) = parts(line) else {
        return Err(EntryFault::NotALine);
    };
    if number == 0 || number > MAX_ENTRIES {
        return Err(EntryFault::NotALine);
    }
    let Some(event) = read_command(alloc, event)? else {
        return Err(EntryFault::NotALine);
    };
    let Some(reply) = read_reply(alloc, &event, reply)? else {
        return Err(EntryFault::NotALine);
    };
    let Some(entry) = Entry::new(event, reply) else {
        return Err(EntryFault::NotALine);
    };
    Ok((number, entry))
}
