//! Commands: the lines of a script.

ghost use Rattle.std.specs.Prelude.{◌≡◌, Option, Bool, ⊤, IfOk, IfSome, OnErr, MatchOption};
ghost use Rattle.line_text.specs.Words.{IsName};
ghost use Rattle.line_text.specs.EventText.{Spells, SpellsStep, NotACommand, pair_text, point_text, flag_text, bool_text, target_text};
ghost use Rattle.line_text.specs.Parsing.{ParsesAs, ReadsTwo, kept_if};

use crate::front::{after, read_last, read_word};
use crate::items::read_items;
use rule_machine::{Event, Node, Want};
use std::alloc::Global;

fn read_pair(bytes: &[u8]) -> Option<(Node, Node)>
    ensures { ReadsTwo (λ a b. IsName a × IsName b) pair_text bytes.now result }
{
    let Some((a, rest)) = read_word(bytes) else {
        return None;
    };
    let Some(b) = read_last(rest) else {
        return None;
    };
    Some((a, b))
}

/// Reads a name, or `-` for null; `None` for any other text.
pub fn read_target(bytes: &[u8]) -> Option<Option<Node>>
    ensures { ParsesAs (λ target. IfSome target IsName) target_text bytes.now result }
{
    if bytes == b"-".as_slice() {
        return Some(None);
    }
    match read_last(bytes) {
        Some(node) => Some(Some(node)),
        None => None,
    }
}

fn read_point(bytes: &[u8]) -> Option<(Node, Option<Node>)>
    ensures { ReadsTwo (λ v target. IsName v × IfSome target IsName) point_text bytes.now result }
{
    let Some((node, rest)) = read_word(bytes) else {
        return None;
    };
    let Some(target) = read_target(rest) else {
        return None;
    };
    Some((node, target))
}

/// Reads `1` for true, or `0` for false; `None` for any other text.
pub fn read_bool(bytes: &[u8]) -> Option<bool>
    ensures { ParsesAs (λ (b : Bool). ⊤) bool_text bytes.now result }
{
    if bytes == b"0".as_slice() {
        return Some(false);
    }
    if bytes == b"1".as_slice() {
        return Some(true);
    }
    None
}

fn read_flag(bytes: &[u8]) -> Option<(Node, bool)>
    ensures { ReadsTwo (λ v value. IsName v) flag_text bytes.now result }
{
    let Some((node, rest)) = read_word(bytes) else {
        return None;
    };
    let Some(value) = read_bool(rest) else {
        return None;
    };
    Some((node, value))
}

// Stores the event found in `event`, if there is one; returns whether there is.
#[inline(always)]
fn put(event: &mut Event, found: Option<Event>) -> bool
    ensures { kept_if result event.new ≡ found }
{
    let Some(found) = found else {
        return false;
    };
    *event = found;
    true
}

/// Reads a line's command into `event`; returns false if the line is no command.
/// Writing the event into `event` saves a move of the event in memory.
/// Takes memory only for the items of a step, and none if the line is no command.
/// Error: out of memory.
#[inline(always)]
pub fn read_command_into(alloc: Global, line: &[u8], event: &mut Event) -> Result<bool, Want>
    ensures command { IfOk result
        (λ is_one. MatchOption (kept_if is_one event.new) (NotACommand line.now) (λ found. Spells line.now found)) }
    ensures memory { OnErr result (SpellsStep line.now) }
{
    if let Some(rest) = after(line, b"show ") {
        return Ok(put(event, read_last(rest).map(|node| Event::Show(node))));
    }
    if let Some(rest) = after(line, b"step") {
        return Ok(put(
            event,
            read_items(alloc, rest)?.map(|choice| Event::Step(choice)),
        ));
    }
    if let Some(rest) = after(line, b"link ") {
        return Ok(put(event, read_pair(rest).map(|(a, b)| Event::Link(a, b))));
    }
    if let Some(rest) = after(line, b"unlink ") {
        return Ok(put(event, read_pair(rest).map(|(a, b)| Event::Unlink(a, b))));
    }
    if let Some(rest) = after(line, b"point ") {
        return Ok(put(
            event,
            read_point(rest).map(|(node, target)| Event::Point(node, target)),
        ));
    }
    if let Some(rest) = after(line, b"flag ") {
        return Ok(put(
            event,
            read_flag(rest).map(|(node, value)| Event::Flag(node, value)),
        ));
    }
    if let Some(rest) = after(line, b"join ") {
        return Ok(put(event, read_last(rest).map(|node| Event::Join(node))));
    }
    if let Some(rest) = after(line, b"leave ") {
        return Ok(put(event, read_last(rest).map(|node| Event::Leave(node))));
    }
    if line == b"enabled".as_slice() {
        return Ok(put(event, Some(Event::Enabled)));
    }
    if line == b"matching".as_slice() {
        return Ok(put(event, Some(Event::Matching)));
    }
    if line == b"status".as_slice() {
        return Ok(put(event, Some(Event::Status)));
    }
    Ok(put(event, None))
}

/// Reads a line's command; `None` if the line is no command.
/// Memory and error are those of `read_command_into`.
pub fn read_command(alloc: Global, line: &[u8]) -> Result<Option<Event>, Want>
    ensures command { IfOk result
        (λ found. MatchOption found (NotACommand line.now) (λ event. Spells line.now event)) }
    ensures memory { OnErr result (SpellsStep line.now) }
{
    let mut event = Event::Status;
    if !read_command_into(alloc, line, &mut event)? {
        return Ok(None);
    }
    Ok(Some(event))
}
