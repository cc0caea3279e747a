//! A writer that never retries.

ghost use Rattle.std.specs.Prelude.{◌≡◌, ◌<◌, ◌≤◌, false, true, length, take, IfOk, OnErr, OnOk};
ghost use Rattle.std.specs.Io.KnownBytes.{Appends, Keeps};
ghost use Rattle.byte_streams.specs.PartialOutput.{AppendsBeginning, AppendsLess};

use crate::OutputFault;
use std::io::Write;

/// A writer that records a failed write or flush. After a failure it neither writes nor flushes.
#[derive(Drop)]
pub struct FailStopWriter<Out> {
    writer: Out,
    failed: bool,
}

impl<Out: Write> FailStopWriter<Out> {
    /// A writer without a failure yet.
    pub fn new(writer: Out) -> FailStopWriter<Out>
        ensures writer { result.writer ≡ writer }
        ensures failed { result.failed ≡ false }
    {
        FailStopWriter {
            writer,
            failed: false,
        }
    }

    fn write(&mut self, bytes: &[u8]) -> Result<usize, OutputFault>
        requires some { 0 < length bytes.now }
        ensures bytes { IfOk result (λ len. Appends (Out.contents self.old.writer) (Out.contents self.new.writer) (take len bytes.now)) }
        ensures some { IfOk result (λ len. 0 < len) }
        ensures few { IfOk result (λ len. len ≤ length bytes.now) }
        ensures good { OnOk result (self.new.failed ≡ self.old.failed) }
        ensures unwritten { OnErr result (self.new.failed ≡ true) }
        ensures kept { OnErr result (Keeps (Out.contents self.old.writer) (Out.contents self.new.writer)) }
    {
        if self.failed {
            return Err(OutputFault);
        }
        match self.writer.write(bytes) {
            Ok(len) if len > 0 => Ok(len),
            _ => {
                self.failed = true;
                Err(OutputFault)
            }
        }
    }

    /// Writes all the bytes.
    /// Error: a write fails or takes no byte. There is no retry, even if the write was interrupted.
    /// The underlying writer has then received only a proper prefix of the bytes.
    pub fn write_whole(&mut self, bytes: &[u8]) -> Result<(), OutputFault>
        ensures ok { OnOk result (Appends (Out.contents self.old.writer) (Out.contents self.new.writer) bytes.now) }
        ensures good { OnOk result (self.new.failed ≡ self.old.failed) }
        ensures fault { OnErr result (AppendsLess (Out.contents self.old.writer) (Out.contents self.new.writer) bytes.now) }
        ensures unwritten { OnErr result (self.new.failed ≡ true) }
    {
        let mut rest = bytes;
        while !rest.is_empty() {
            let len = self.write(rest)?;
            rest = &rest[len..];
        }
        Ok(())
    }

    /// Flushes the writer.
    /// Error: the flush fails. There is no retry.
    pub fn flush_once(&mut self) -> Result<(), OutputFault>
        ensures bytes { Keeps (Out.contents self.old.writer) (Out.contents self.new.writer) }
        ensures good { OnOk result (self.new.failed ≡ self.old.failed) }
        ensures unwritten { OnErr result (self.new.failed ≡ true) }
    {
        if self.failed {
            return Err(OutputFault);
        }
        match self.writer.flush() {
            Ok(()) => Ok(()),
            Err(_) => {
                self.failed = true;
                Err(OutputFault)
            }
        }
    }

    /// Writes all the bytes and flushes. Errors: those of `write_whole` and `flush_once`.
    pub fn finish(&mut self, bytes: &[u8]) -> Result<(), OutputFault>
        ensures ok { OnOk result (Appends (Out.contents self.old.writer) (Out.contents self.new.writer) bytes.now) }
        ensures good { OnOk result (self.new.failed ≡ self.old.failed) }
        ensures fault { OnErr result (AppendsBeginning (Out.contents self.old.writer) (Out.contents self.new.writer) bytes.now) }
        ensures unwritten { OnErr result (self.new.failed ≡ true) }
    {
        self.write_whole(bytes)?;
        self.flush_once()
    }
}
