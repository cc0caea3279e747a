//! Errors of reading.

ghost use Rattle.std.specs.Prelude.{◌≡◌};
ghost use Rattle.entry_grammar.specs.declared.fault.EntryFault.TheVariants.{Memory};

use std::alloc::AllocError;
use thiserror::Error;

/// Why a line was not read.
#[derive(Clone, Copy, Debug, PartialEq, Eq, Error)]
pub enum EntryFault {
    /// The line does not spell what the caller reads: an entry, a header, or a line of a base.
    #[error("not a transcript line")]
    NotALine,
    /// Memory ran out.
    #[error("out of memory")]
    Memory,
}

impl From<AllocError> for EntryFault {
    ghost from_gives = { λ _ e. e ≡ Memory };

    fn from(_failed: AllocError) -> EntryFault {
        EntryFault::Memory
    }
}

/// Why the lines of a base were not read.
#[derive(Clone, Copy, Debug, PartialEq, Eq, Error)]
pub enum BaseFault {
    /// The line with this number is missing, lacks its LF, or may not come there.
    /// Line 1 is the line after the head, which is the base's first line.
    #[error("line {0} behind the head of a base is not as it has to be")]
    BadLine(u64),
    /// Memory ran out.
    #[error("out of memory")]
    Memory,
}
