//! What stops a run at a line.

use std::alloc::AllocError;
use step_log::RecordFault;

/// Why a line was not carried out, or not to its end.
#[derive(Clone, Copy, Debug, PartialEq, Eq)]
pub enum LineError {
    /// This line, counted from 1, is neither empty nor a command.
    BadLine { line: u64 },
    /// The log is full, or memory ran out.
    Record(RecordFault),
}

impl From<RecordFault> for LineError {
    ghost use Rattle.std.specs.Prelude.{◌≡◌};
    ghost use Rattle.run_session.specs.declared.line_error.LineError.TheVariants.{Record};

    ghost from_gives = { λ fault error. error ≡ Record fault };

    fn from(fault: RecordFault) -> LineError {
        LineError::Record(fault)
    }
}

impl From<AllocError> for LineError {
    ghost use Rattle.std.specs.Prelude.{◌≡◌};
    ghost use Rattle.step_log.specs.declared.fault.RecordFault.TheVariants.{Memory};
    ghost use Rattle.run_session.specs.declared.line_error.LineError.TheVariants.{Record};

    ghost from_gives = { λ _ error. error ≡ Record Memory };

    fn from(_: AllocError) -> LineError {
        LineError::Record(RecordFault::Memory)
    }
}
