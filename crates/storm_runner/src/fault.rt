//! The errors of a storm.

use locked_net::{CallFault, SettleFault};
use script_text::TextsFault;
use thiserror::Error;

/// Why a storm did not read all scripts, play each to its end, and write the log.
#[derive(Clone, Copy, Debug, PartialEq, Eq, Error)]
pub enum StormFault {
    /// There are more than 64 scripts.
    #[error("too many scripts")]
    TooManyScripts,
    /// This line of this script, both counted from 1, is neither empty nor a command.
    #[error("script {script} line {line}: not a command")]
    BadLine { script: u32, line: u64 },
    /// A script's command or a worker's turn met a full log.
    #[error("log full")]
    LogFull,
    /// A read of a script failed.
    #[error("read failed")]
    Read,
    /// A write of the transcript failed.
    #[error("write failed")]
    Write,
    /// Memory ran out.
    #[error("out of memory")]
    Memory,
    /// The clerk of a script or a worker has seen more entries than the log has.
    #[error("behind")]
    Behind,
    /// A thread could not be started. `storm` never returns this fault: it does that thread's work itself.
    #[error("no thread")]
    Thread,
    /// The clerks' receipts do not account for the log.
    #[error("settle refused: {0}")]
    Unsettled(SettleFault),
}

impl From<TextsFault> for StormFault {
    ghost use Rattle.std.specs.Prelude.{◌≡◌};
    ghost use Rattle.storm_runner.specs.Faults.{of_texts};

    ghost from_gives = { λ why fault. fault ≡ of_texts why };

    fn from(why: TextsFault) -> StormFault {
        match why {
            TextsFault::TooManyScripts => StormFault::TooManyScripts,
            TextsFault::BadLine { script, line } => StormFault::BadLine { script, line },
            TextsFault::Read => StormFault::Read,
            TextsFault::Memory => StormFault::Memory,
        }
    }
}

impl From<CallFault> for StormFault {
    ghost use Rattle.std.specs.Prelude.{◌≡◌};
    ghost use Rattle.storm_runner.specs.Faults.{of_call};

    ghost from_gives = { λ why fault. fault ≡ of_call why };

    fn from(why: CallFault) -> StormFault {
        match why {
            CallFault::Behind { .. } => StormFault::Behind,
            CallFault::LogFull => StormFault::LogFull,
            CallFault::Memory => StormFault::Memory,
        }
    }
}

impl From<SettleFault> for StormFault {
    ghost use Rattle.std.specs.Prelude.{◌≡◌};
    ghost use Rattle.storm_runner.specs.Faults.{of_settle};

    ghost from_gives = { λ why fault. fault ≡ of_settle why };

    fn from(why: SettleFault) -> StormFault {
        match why {
            SettleFault::Memory => StormFault::Memory,
            why => StormFault::Unsettled(why),
        }
    }
}
