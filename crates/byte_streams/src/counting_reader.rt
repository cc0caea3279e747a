//! A reader whose reads are counted.

ghost use Rattle.std.specs.Prelude.{◌≡◌, ◌<◌, ◌≤◌, ◌+◌, false, length, take, IfErr, IfOk, OnErr, OnOk};
ghost use Rattle.std.specs.Io.KnownBytes.{Consumes, IsAtEnd, Keeps};
ghost use Rattle.byte_streams.specs.declared.input_fault.InputFault.TheVariants.{Read as Unread};
ghost use Rattle.byte_streams.specs.StreamEnds.{IsEnded};

use crate::InputFault;
use std::alloc::{AllocError, Global};
use std::io::Read;

const CHUNK: usize = 65_536;

/// A reader that counts its reads. It never retries: after a failed read it does not read again.
#[derive(Drop)]
pub struct CountingReader<In> {
    reader: In,
    count: u32,
    failed: bool,
}

/// A buffer of 65,536 bytes for one read. Error: out of memory.
pub fn chunk_of(alloc: Global) -> Result<Vec<u8>, AllocError>
    ensures { IfOk result (λ chunk. length chunk.items ≡ 65536) }
{
    Vec::from_elem(alloc, 0, CHUNK)
}

impl<In: Read> CountingReader<In> {
    /// A reader without any read or failure yet.
    pub fn new(reader: In) -> CountingReader<In>
        ensures reader { result.reader ≡ reader }
        ensures count { result.count ≡ 0 }
        ensures failed { result.failed ≡ false }
    {
        CountingReader {
            reader,
            count: 0,
            failed: false,
        }
    }

    /// Reads once into the front of the buffer; returns how many bytes were read, 0 only at the end.
    /// Error: `Read` if the read fails. After a failed read, or after 4,294,967,295 reads, every call returns
    /// `Read` without reading.
    pub fn read(&mut self, buf: &mut [u8]) -> Result<usize, InputFault>
        requires room { 0 < length buf.old }
        ensures bytes { IfOk result (λ len. Consumes (In.remaining self.old.reader) (In.remaining self.new.reader) (take len buf.new)) }
        ensures few { IfOk result (λ len. len ≤ length buf.new) }
        ensures end { IfOk result (λ len. len ≡ 0 → IsAtEnd (In.remaining self.new.reader)) }
        ensures room { length buf.new ≡ length buf.old }
        ensures count { OnOk result ((self.old.count < 4294967295) × (self.new.count ≡ self.old.count + 1)) }
        ensures good { OnOk result ((self.old.failed ≡ false) × (self.new.failed ≡ false)) }
        ensures unread { IfErr result (λ fault. (fault ≡ Unread) × IsEnded self.new.failed self.new.count) }
        ensures kept { OnErr result (Keeps (In.remaining self.old.reader) (In.remaining self.new.reader)) }
    {
        if self.failed || self.count == u32::MAX {
            return Err(InputFault::Read);
        }
        self.count += 1;
        match self.reader.read(buf) {
            Ok(len) => Ok(len),
            Err(_) => {
                self.failed = true;
                Err(InputFault::Read)
            }
        }
    }
}
