//! Reading one line of a script.

ghost use Rattle.std.specs.Prelude.{IfOk, MatchOption};
ghost use Rattle.line_text.specs.Parsing.{ParsesAs, kept_if};
ghost use Rattle.script_text.specs.Command.{IsTurns, turns_text, Says, SaysNothing, SaysNoTurns};

use crate::{Command, MAX_TURNS, Turns};
use line_text::{after, read_command_into, read_number};
use memchr::memchr;
use rule_machine::{Event, Want};
use std::alloc::Global;

fn read_turns(bytes: &[u8]) -> Option<Turns>
    ensures { ParsesAs IsTurns turns_text bytes.now result }
{
    let Some(at) = memchr(b' ', bytes) else {
        return None;
    };
    let Some(seed) = read_number(&bytes[..at], u64::MAX) else {
        return None;
    };
    let Some(count) = read_number(&bytes[at + 1..], u64::from(MAX_TURNS)) else {
        return None;
    };
    Some(Turns {
        seed,
        count: count as u32,
    })
}

fn read_turning(line: &[u8]) -> Option<Command>
    ensures { MatchOption result (SaysNoTurns line.now) (λ command. Says line.now command) }
{
    if let Some(rest) = after(line, b"drive ") {
        return read_turns(rest).map(|turns| Command::Drive(turns));
    }
    if let Some(rest) = after(line, b"scramble ") {
        return read_turns(rest).map(|turns| Command::Scramble(turns));
    }
    None
}

/// Reads a line and writes its command into `command`; returns `false` if the line is no command.
///
/// `Want` if memory runs out; only the items of a `step` take memory.
#[inline(always)]
pub fn read_line_into(alloc: Global, line: &[u8], command: &mut Command) -> Result<bool, Want>
    ensures { IfOk result (λ is_one. MatchOption (kept_if is_one command.new) (SaysNothing line.now) (λ found. Says line.now found)) }
{
    let mut event = Event::Status;
    if read_command_into(alloc, line, &mut event)? {
        *command = Command::Tell(event);
        return Ok(true);
    }
    if line == b"checkpoint".as_slice() {
        *command = Command::Checkpoint;
        return Ok(true);
    }
    let Some(turning) = read_turning(line) else {
        return Ok(false);
    };
    *command = turning;
    Ok(true)
}

/// Reads a line as a command; returns `None` if the line is no command.
///
/// `Want` if memory runs out; only the items of a `step` take memory.
pub fn read_line(alloc: Global, line: &[u8]) -> Result<Option<Command>, Want>
    ensures { IfOk result (λ found. MatchOption found (SaysNothing line.now) (λ command. Says line.now command)) }
{
    let mut command = Command::Checkpoint;
    if !read_line_into(alloc, line, &mut command)? {
        return Ok(None);
    }
    Ok(Some(command))
}
