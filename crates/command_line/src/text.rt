//! Reading a transcript that is shown.

ghost use Rattle.std.specs.Prelude.{◌<◌, ◌≤◌, ◌+◌, ◌^◌, ◌++◌, ℕ, List, length, IfOk, IfSome, IsErrOf};
ghost use Rattle.byte_streams.specs.StreamEnds.{IsEnded};
ghost use Rattle.script_text.specs.Texts.{EndsInLine};
ghost use Rattle.command_line.specs.ReadTexts.{IsReadEnough};

use auditor::MAX_LINE;
use byte_streams::{CountingReader, InputFault, chunk_of, split_line};
use std::alloc::Global;
use std::io::Read;

// How many bytes the last line has at least after the piece, if it had `begun` of them before.
fn line_after(begun: usize, piece: &[u8]) -> usize
    requires { begun + length piece.now < 2 ^ 64 }
    ensures more { (text : List ℕ) → EndsInLine text begun → EndsInLine (text ++ piece.now) result }
    ensures few { result ≤ begun + length piece.now }
{
    match split_line(piece) {
        Some(_) => 0,
        None => begun + piece.len(),
    }
}

/// The reader's bytes, up to its end or to a line that is longer than any line of a transcript.
///
/// Errors: `Read` if a read fails or after 4,294,967,295 reads; `Memory` if memory runs out.
pub(crate) fn read_text<In: Read>(
    alloc: Global,
    reader: &mut CountingReader<In>,
) -> Result<Vec<u8>, InputFault>
    ensures text { IfSome (In.remaining reader.old.reader) (λ input. IfOk result (λ text. IsReadEnough input text.items)) }
    ensures unread { IsErrOf result InputFault.Read → IsEnded reader.new.failed reader.new.count }
{
    let mut text = Vec::new(alloc);
    let mut chunk = chunk_of(alloc)?;
    let mut begun = 0;
    while begun <= MAX_LINE {
        let len = reader.read(&mut chunk)?;
        if len == 0 {
            return Ok(text);
        }
        let piece = &chunk[..len];
        begun = line_after(begun, piece);
        text.extend_from_slice(piece)?;
    }
    Ok(text)
}
