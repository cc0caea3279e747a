//! The audit of a transcript, reported in one line.

ghost use Rattle.std.specs.Prelude.{◌≡◌, true, IfOk, IfSome, IsErrOf};
ghost use Rattle.byte_streams.specs.StreamEnds.{IsEnded};
ghost use Rattle.command_line.specs.CheckResults.{IsVerdict, TellsVerdict, check_result, verdict_status};

use crate::verdict_line::verdict_line;
use auditor::{AuditFault, Summary, audit};
use byte_streams::{CountingReader, FailStopWriter};
use script_run::RunFault;
use std::alloc::Global;
use std::io::{Read, Write};

/// The verdict of an audit.
#[derive(Clone, Copy, Debug, PartialEq, Eq)]
pub enum CheckEnd {
    /// The bytes are the transcript of a run with these counts.
    Accepted(Summary),
    /// The bytes are no transcript; this is their first damage.
    Refused(AuditFault),
}

impl CheckEnd {
    /// The exit status: 0 for an accepted transcript, 1 for a refused one.
    pub fn status(self) -> u8
        ensures { result ≡ verdict_status self }
    {
        match self {
            CheckEnd::Accepted(_) => 0,
            CheckEnd::Refused(_) => 1,
        }
    }
}

fn verdict_of(audited: Result<Summary, AuditFault>) -> Result<CheckEnd, RunFault>
    ensures verdict { result ≡ check_result audited }
    ensures unread { IsErrOf result RunFault.Read → IsErrOf audited AuditFault.Read }
    ensures written { IsErrOf result RunFault.Write → ⊥ }
{
    match audited {
        Ok(counted) => Ok(CheckEnd::Accepted(counted)),
        Err(AuditFault::Read) => Err(RunFault::Read),
        Err(AuditFault::Memory) => Err(RunFault::Memory),
        Err(fault) => Ok(CheckEnd::Refused(fault)),
    }
}

fn tell_verdict<Out: Write>(
    alloc: Global,
    end: CheckEnd,
    writer: &mut FailStopWriter<Out>,
) -> Result<CheckEnd, RunFault>
    ensures told { TellsVerdict (Out.contents writer.old.writer) (Out.contents writer.new.writer) result }
    ensures same { IfOk result (λ said. said ≡ end) }
    ensures read { IsErrOf result RunFault.Read → ⊥ }
    ensures unwritten { IsErrOf result RunFault.Write → writer.new.failed ≡ true }
{
    let Ok(line) = verdict_line(alloc, end) else {
        return Err(RunFault::Memory);
    };
    if writer.finish(&line).is_err() {
        return Err(RunFault::Write);
    }
    Ok(end)
}

/// Judges a transcript and writes the verdict as one line, once.
///
/// - `Read` only if a read failed, or 4,294,967,295 reads were made.
/// - `Write` only if a write failed.
/// - `Memory` if memory runs out.
///
/// After `Read` or `Memory` nothing was written.
pub fn check<In: Read, Out: Write>(
    alloc: Global,
    reader: &mut CountingReader<In>,
    writer: &mut FailStopWriter<Out>,
) -> Result<CheckEnd, RunFault>
    ensures verdict { IfSome (In.remaining reader.old.reader) (λ bytes. IfOk result (IsVerdict bytes)) }
    ensures told { TellsVerdict (Out.contents writer.old.writer) (Out.contents writer.new.writer) result }
    ensures unread { IsErrOf result RunFault.Read → IsEnded reader.new.failed reader.new.count }
    ensures unwritten { IsErrOf result RunFault.Write → writer.new.failed ≡ true }
{
    match verdict_of(audit(alloc, reader)) {
        Ok(end) => tell_verdict(alloc, end, writer),
        Err(fault) => Err(fault),
    }
}
