//! Reading a script, and how far it has been read.

ghost use Rattle.std.specs.Prelude.{◌≡◌, ◌<◌, ◌≤◌, ◌+◌, [], length, take, IfOk, OnErr, OnOk};
ghost use Rattle.std.specs.Io.KnownBytes.{Consumes, IsAtEnd, Keeps};
ghost use Rattle.byte_streams.specs.StreamEnds.{IsEnded};

use byte_streams::{CountingReader, InputFault};
use std::alloc::Global;
use std::io::Read;

/// How many whole lines were read, and the bytes read of the line after them.
#[derive(Drop)]
pub struct ReadProgress {
    pub lines: u64,
    pub begun: Vec<u8>,
}

impl ReadProgress {
    /// A script before its first read.
    pub fn new(alloc: Global) -> ReadProgress
        ensures lines { result.lines ≡ 0 }
        ensures begun { result.begun.items ≡ [] }
    {
        ReadProgress {
            lines: 0,
            begun: Vec::new(alloc),
        }
    }
}

/// Reads once into the chunk; returns how many bytes were read. All text was written before.
///
/// The result is 0 only at the reader's end. `Read` if the read fails; a failed read is not retried.
pub fn read_on<In: Read>(
    reader: &mut CountingReader<In>,
    chunk: &mut [u8],
    _unwritten: &[u8],
) -> Result<usize, InputFault>
    requires written { _unwritten.now ≡ [] }
    requires room { 0 < length chunk.old }
    ensures bytes { IfOk result (λ len. Consumes (In.remaining reader.old.reader) (In.remaining reader.new.reader) (take len chunk.new)) }
    ensures few { IfOk result (λ len. len ≤ length chunk.new) }
    ensures end { IfOk result (λ len. len ≡ 0 → IsAtEnd (In.remaining reader.new.reader)) }
    ensures room { length chunk.new ≡ length chunk.old }
    ensures count { OnOk result ((reader.old.count < 4294967295) × (reader.new.count ≡ reader.old.count + 1)) }
    ensures unread { OnErr result (IsEnded reader.new.failed reader.new.count) }
    ensures kept { OnErr result (Keeps (In.remaining reader.old.reader) (In.remaining reader.new.reader)) }
{
    reader.read(chunk)
}
