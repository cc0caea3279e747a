//! Reading a line of a run.

ghost use Rattle.std.specs.Prelude.{◌≡◌, [], IfErr, IfOk, MatchOption};
ghost use Rattle.line_text.specs.Parsing.{kept_if};
ghost use Rattle.run_session.specs.Line.{FailsToRead, SaysSome};

use crate::LineError;
use script_text::{Command, read_line_into};
use std::alloc::Global;

/// Reads line `number`, given without its LF, into `command`; returns `false` if the line is empty.
///
/// `BadLine` if the line is neither empty nor a command. `Record(Memory)` if memory runs out; only the items
/// of a `step` take memory.
#[inline(always)]
pub fn read_command(
    alloc: Global,
    number: u64,
    line: &[u8],
    command: &mut Command,
) -> Result<bool, LineError>
    ensures command { IfOk result (λ is_some. MatchOption (kept_if is_some command.new) (line.now ≡ []) (λ found. SaysSome line.now found)) }
    ensures fault { IfErr result (FailsToRead number line.now) }
{
    if line.is_empty() {
        return Ok(false);
    }
    if !read_line_into(alloc, line, command)? {
        return Err(LineError::BadLine { line: number });
    }
    Ok(true)
}
