//! What is reported of a run that ended early: its fault, and after a bad line the reason in a second line.

ghost use Rattle.std.specs.Prelude.{◌≡◌, IfOk, IfSome, OnErr};
ghost use Rattle.std.specs.Io.KnownBytes.{Keeps};
ghost use Rattle.line_reasons.specs.ReasonLine.{IsReasonLine};
ghost use Rattle.command_line.specs.RunNotes.{AddsReason, TellsBadLine, TellsRunFault};
ghost use Rattle.command_line.specs.Status.{run_status};
ghost use Rattle.command_line.specs.WriterStates.{heard};

use crate::program::tell;
use byte_streams::FailStopWriter;
use line_reasons::reason_line;
use script_run::{RefusedLine, RunFault};
use std::alloc::{AllocError, Global};
use std::io::Write;

fn write_reason<Faults: Write>(
    found: Result<Option<Vec<u8>>, AllocError>,
    faults: &mut FailStopWriter<Faults>,
)
    requires { IfOk found (λ some. IfSome some (λ line. IsReasonLine line.items)) }
    ensures { AddsReason (Faults.contents faults.old.writer) (heard Faults.contents faults.new) }
{
    if let Ok(Some(line)) = found {
        let _ = faults.finish(&line);
    }
}

fn tell_bad_line<Faults: Write>(
    alloc: Global,
    fault: RunFault,
    refused: &RefusedLine,
    faults: &mut FailStopWriter<Faults>,
) -> u8
    ensures told { TellsBadLine fault (Faults.contents faults.old.writer) (heard Faults.contents faults.new) }
    ensures status { result ≡ run_status fault }
{
    let status = tell(fault, faults);
    write_reason(reason_line(alloc, refused.bytes()), faults);
    status
}

/// Reports why a run ended early, and returns the exit status.
///
/// The first line is the fault's. After a bad line, a second line says why it is no command, if a reason is
/// found and there is memory for it.
pub(crate) fn tell_run<Faults: Write>(
    alloc: Global,
    fault: RunFault,
    refused: &RefusedLine,
    faults: &mut FailStopWriter<Faults>,
) -> u8
    ensures told { TellsRunFault fault (Faults.contents faults.old.writer) (heard Faults.contents faults.new) }
    ensures status { result ≡ run_status fault }
{
    match fault {
        RunFault::BadLine { .. } => tell_bad_line(alloc, fault, refused, faults),
        fault => tell(fault, faults),
    }
}
