//! Reading several scripts, each from its own reader.

ghost use Rattle.std.specs.Prelude.{◌<◌, ◌≤◌, ◌+◌, ◌^◌, ◌++◌, ◌↔◌, ℕ, List, length, map, IfOk, IfErr, IsErrOf, IfSome};
ghost use Rattle.byte_streams.specs.StreamEnds.{IsEnded};
ghost use Rattle.script_text.specs.declared.fault.TextsFault.TheVariants.{TooManyScripts};
ghost use Rattle.script_text.specs.Texts.{EndsInLine, IsReadUntil, TextHolds};
ghost use Rattle.script_text.specs.Readers.{AllHold, IsTextsFault, IsReaderFault};

use crate::{MAX_LINE, Script, TextsFault, read_text};
use byte_streams::{CountingReader, InputFault, chunk_of, split_line};
use std::alloc::Global;
use std::io::Read;

/// The most scripts that `read_scripts` reads.
pub const MAX_SCRIPTS: usize = 64;

// How many bytes the last line has at least after the piece, if it had `begun` of them before.
fn line_after(begun: usize, piece: &[u8]) -> usize
    requires { begun + length piece.now < 2 ^ 64 }
    ensures more { (text : List ℕ) → EndsInLine text begun → EndsInLine (text ++ piece.now) result }
    ensures few { result ≤ begun + length piece.now }
{
    match split_line(piece) {
        Some(_) => 0,
        None => begun + piece.len(),
    }
}

/// The reader's bytes, up to its end or into a line of more than `most` bytes.
///
/// Reads pieces of 65,536 bytes. Errors: `Read` if a read fails or after 4,294,967,295 reads; `Memory` if
/// memory runs out.
pub fn read_until_long<In: Read>(
    alloc: Global,
    reader: &mut CountingReader<In>,
    most: usize,
) -> Result<Vec<u8>, InputFault>
    requires { most < 2 ^ 32 }
    ensures text { IfSome (In.remaining reader.old.reader) (λ all. IfOk result (λ text. IsReadUntil most all text.items)) }
    ensures unread { IsErrOf result InputFault.Read → IsEnded reader.new.failed reader.new.count }
{
    let mut text = Vec::new(alloc);
    let mut chunk = chunk_of(alloc)?;
    let mut begun = 0;
    while begun <= most {
        let len = reader.read(&mut chunk)?;
        if len == 0 {
            return Ok(text);
        }
        let piece = &chunk[..len];
        begun = line_after(begun, piece);
        text.extend_from_slice(piece)?;
    }
    Ok(text)
}

fn read_from<In: Read + Drop>(alloc: Global, number: u32, reader: In) -> Result<Script, TextsFault>
    ensures script { IfOk result (λ script. IfSome (In.remaining reader) (λ text. TextHolds text script)) }
    ensures fault { IfErr result (IsReaderFault number (In.remaining reader)) }
{
    let mut reader = CountingReader::new(reader);
    let text = match read_until_long(alloc, &mut reader, MAX_LINE) {
        Ok(text) => text,
        Err(InputFault::Read) => return Err(TextsFault::Read),
        Err(InputFault::Memory) => return Err(TextsFault::Memory),
    };
    read_text(alloc, number, &text)
}

fn read_each<In: Read + Drop>(alloc: Global, readers: Vec<In>) -> Result<Vec<Script>, TextsFault>
    requires { length readers.items ≤ 64 }
    ensures scripts { IfOk result (λ scripts. AllHold (map In.remaining readers.items) scripts.items) }
    ensures fault { IfErr result (IsTextsFault (map In.remaining readers.items)) }
{
    let mut scripts = Vec::new(alloc);
    let mut number: u32 = 0;
    for reader in readers {
        number += 1;
        let script = read_from(alloc, number, reader)?;
        if scripts.push(script).is_err() {
            return Err(TextsFault::Memory);
        }
    }
    Ok(scripts)
}

/// Reads one script from each reader, in order. Checks each script before reading the next.
///
/// - `TooManyScripts` if there are more than 64 readers; then nothing was read.
/// - `Read` at a reader's first error, which is not retried, or after 4,294,967,295 reads.
/// - `BadLine` at the first line that is neither empty nor a command. A line above 1,048,576 bytes is bad
///   before its end is read.
/// - `Memory` if memory runs out.
///
/// The first script with an error decides. If a read of that script fails, the error is `Read`, even after
/// a bad line. No byte is read after a line that is too long. At any time the text of only one script is in
/// memory.
pub fn read_scripts<In: Read + Drop>(
    alloc: Global,
    readers: Vec<In>,
) -> Result<Vec<Script>, TextsFault>
    ensures scripts { IfOk result (λ scripts. AllHold (map In.remaining readers.items) scripts.items) }
    ensures few { IfOk result (λ scripts. length scripts.items ≤ 64) }
    ensures many { IsErrOf result TooManyScripts ↔ (64 < length readers.items) }
    ensures fault { IfErr result (IsTextsFault (map In.remaining readers.items)) }
{
    if readers.len() > MAX_SCRIPTS {
        return Err(TextsFault::TooManyScripts);
    }
    read_each(alloc, readers)
}
