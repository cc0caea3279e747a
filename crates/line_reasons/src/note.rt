//! The line that says why a line of a script is no command.

ghost use Rattle.std.specs.Prelude.{◌≡◌, ◌++◌, codes, map, take, IfOk, IfSome};
ghost use Rattle.line_reasons.specs.ReasonLine.{IsReasonLine, printed, reason_note};

use crate::line::reason_of;
use crate::text::put_reason;
use std::alloc::{AllocError, Global};

// A reason's line has at most this many bytes between its beginning and its LF.
const MOST: usize = 255;

fn printed(byte: u8) -> u8
    ensures { result ≡ printed byte }
{
    if byte < b' ' || byte > b'~' {
        b'?'
    } else {
        byte
    }
}

fn note_of(alloc: Global, text: &[u8]) -> Result<Vec<u8>, AllocError>
    ensures { IfOk result (λ line. line.items ≡ reason_note text.now) }
{
    let mut line = Vec::new(alloc);
    line.extend_from_slice(b"! ")?;
    for &byte in &text[..text.len().min(MOST)] {
        line.push(printed(byte))?;
    }
    line.push(b'\n')?;
    Ok(line)
}

/// The line that says why a script's line, given without its LF, is no command; `None` if no reason is found.
///
/// It begins with `! `, has at most 255 characters of printable ASCII after that, and ends with its LF.
pub fn reason_line(alloc: Global, line: &[u8]) -> Result<Option<Vec<u8>>, AllocError>
    ensures { IfOk result (λ found. IfSome found (λ text. IsReasonLine text.items)) }
{
    let Some(reason) = reason_of(line) else {
        return Ok(None);
    };
    let mut text = Vec::new(alloc);
    put_reason(&mut text, reason)?;
    let note = note_of(alloc, &text)?;
    Ok(Some(note))
}
