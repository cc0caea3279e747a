//! Why an event is not recorded, and why a number has no entry.

use std::alloc::AllocError;
use thiserror::Error;

/// Why an event was not recorded. The journal is unchanged.
#[derive(Clone, Copy, Debug, PartialEq, Eq, Error)]
pub enum RecordFault {
    /// The limit of entries is reached.
    #[error("log full")]
    LogFull,
    /// Memory ran out.
    #[error("out of memory")]
    Memory,
}

impl From<AllocError> for RecordFault {
    ghost use Rattle.std.specs.Prelude.{◌≡◌};
    ghost use Rattle.step_log.specs.declared.fault.RecordFault.TheVariants.{Memory};

    ghost from_gives = { λ _ fault. fault ≡ Memory };

    fn from(_: AllocError) -> RecordFault {
        RecordFault::Memory
    }
}

/// Why a journal has no entry with a given number.
#[derive(Clone, Copy, Debug, PartialEq, Eq, Error)]
pub enum NoEntry {
    /// A checkpoint dropped the entry.
    #[error("forgotten")]
    Forgotten,
    /// There never was such an entry: the number is 0, or above the number of the last entry.
    #[error("no such entry")]
    Beyond,
}
