//! A reader, read to its end.

ghost use Rattle.std.specs.Prelude.{OnOk, IfOk, IsErrOf};
ghost use Rattle.std.specs.Io.KnownBytes.{Consumes, IsAtEnd};
ghost use Rattle.byte_streams.specs.declared.input_fault.InputFault.TheVariants.{Read as Unread};
ghost use Rattle.byte_streams.specs.StreamEnds.{IsEnded};

use crate::{CountingReader, InputFault, chunk_of};
use std::alloc::Global;
use std::io::Read;

/// All bytes that the reader has left.
/// Errors: `Read` if a read fails (no retry) or after 4,294,967,295 reads; `Memory` if memory runs out.
pub fn read_whole<In: Read>(
    alloc: Global,
    reader: &mut CountingReader<In>,
) -> Result<Vec<u8>, InputFault>
    ensures bytes { IfOk result (λ bytes. Consumes (In.remaining reader.old.reader) (In.remaining reader.new.reader) bytes.items) }
    ensures end { OnOk result (IsAtEnd (In.remaining reader.new.reader)) }
    ensures unread { IsErrOf result Unread → IsEnded reader.new.failed reader.new.count }
{
    let mut bytes = Vec::new(alloc);
    let mut chunk = chunk_of(alloc)?;
    loop {
        let len = reader.read(&mut chunk)?;
        if len == 0 {
            return Ok(bytes);
        }
        bytes.extend_from_slice(&chunk[..len])?;
    }
}
