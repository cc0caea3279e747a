//! How a program ends after a storm.

ghost use Rattle.std.specs.Prelude.{◌≡◌, false};
ghost use Rattle.std.specs.Io.KnownBytes.{Appends};
ghost use Rattle.byte_streams.specs.PartialOutput.{AppendsBeginning};
ghost use Rattle.storm_runner.specs.FaultText.{end_line};
ghost use Rattle.storm_runner.specs.Status.{storm_status, end_status};

use crate::StormFault;
use crate::fault_line::write_fault;
use byte_streams::FailStopWriter;
use locked_net::SettleFault;
use std::io::Write;

/// The exit status of a fault.
///
/// | Status | Fault |
/// |---|---|
/// | 1 | the receipts do not account for the log |
/// | 2 | a bad line, or too many scripts |
/// | 3 | a failed read or write |
/// | 4 | a full log, no memory, a clerk that is behind, or no thread |
pub fn status(fault: StormFault) -> u8
    ensures { result ≡ storm_status fault }
{
    match fault {
        StormFault::Unsettled(
            SettleFault::CountDiffers | SettleFault::BaseDiffers | SettleFault::Stranger { .. },
        ) => 1,
        StormFault::TooManyScripts | StormFault::BadLine { .. } => 2,
        StormFault::Read | StormFault::Write => 3,
        _ => 4,
    }
}

/// Writes a storm's fault, if any, as one line; returns the fault's exit status, or 0 without a fault.
///
/// If a write fails, only a beginning of the line is written; the exit status is the same.
pub fn storm_end<Faults: Write>(
    ended: Result<(), StormFault>,
    faults: &mut FailStopWriter<Faults>,
) -> u8
    ensures status { result ≡ end_status ended }
    ensures told { AppendsBeginning (Faults.contents faults.old.writer) (Faults.contents faults.new.writer) (end_line ended) }
    ensures whole { faults.new.failed ≡ false → Appends (Faults.contents faults.old.writer) (Faults.contents faults.new.writer) (end_line ended) }
{
    match ended {
        Ok(()) => 0,
        Err(fault) => {
            let _ = write_fault(fault, faults);
            status(fault)
        }
    }
}
