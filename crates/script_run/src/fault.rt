//! The errors of a run.

use byte_streams::OutputFault;
use run_session::LineError;
use std::alloc::AllocError;
use steal_pool::PoolFault;
use step_log::RecordFault;
use thiserror::Error;

/// Why a run did not reach the end of its script.
#[derive(Clone, Copy, Debug, PartialEq, Eq, Error)]
pub enum RunFault {
    /// This line, counted from 1, is neither empty nor a command.
    #[error("line {line}: not a command")]
    BadLine { line: u64 },
    /// A command needs an entry, and the log is full.
    #[error("log full")]
    LogFull,
    /// A read of the script failed, or 4,294,967,295 reads were made.
    #[error("read failed")]
    Read,
    /// A write of the transcript failed.
    #[error("write failed")]
    Write,
    /// Memory ran out.
    #[error("out of memory")]
    Memory,
    /// The workers that judge a step failed.
    ///
    /// `run` never returns this error: `run` has at least one worker, and does the work itself if no thread
    /// can be started.
    #[error("{0}")]
    Pool(PoolFault),
}

impl From<LineError> for RunFault {
    ghost use Rattle.std.specs.Prelude.{◌≡◌};
    ghost use Rattle.script_run.specs.LineFaults.{fault_of};

    ghost from_gives = { λ error fault. fault ≡ fault_of error };

    fn from(error: LineError) -> RunFault {
        match error {
            LineError::BadLine { line } => RunFault::BadLine { line },
            LineError::Record(RecordFault::LogFull) => RunFault::LogFull,
            LineError::Record(RecordFault::Memory) => RunFault::Memory,
        }
    }
}

impl From<RecordFault> for RunFault {
    ghost use Rattle.std.specs.Prelude.{◌≡◌};
    ghost use Rattle.run_session.specs.declared.line_error.LineError.TheVariants.{Record};
    ghost use Rattle.script_run.specs.LineFaults.{fault_of};

    ghost from_gives = { λ error fault. fault ≡ fault_of (Record error) };

    fn from(error: RecordFault) -> RunFault {
        RunFault::from(LineError::Record(error))
    }
}

impl From<AllocError> for RunFault {
    ghost use Rattle.std.specs.Prelude.{◌≡◌};
    ghost use Rattle.script_run.specs.declared.fault.RunFault.TheVariants.{Memory};

    ghost from_gives = { λ _ fault. fault ≡ Memory };

    fn from(_: AllocError) -> RunFault {
        RunFault::Memory
    }
}

impl From<OutputFault> for RunFault {
    ghost use Rattle.std.specs.Prelude.{◌≡◌};
    ghost use Rattle.script_run.specs.declared.fault.RunFault.TheVariants.{Write};

    ghost from_gives = { λ _ run. run ≡ Write };

    fn from(_: OutputFault) -> RunFault {
        RunFault::Write
    }
}
