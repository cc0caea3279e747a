//! Errors of readers.

use std::alloc::AllocError;
use thiserror::Error;

/// Why a reader was not read to its end.
#[derive(Clone, Copy, Debug, PartialEq, Eq, Error)]
pub enum InputFault {
    /// A read failed, or the limit of 4,294,967,295 reads was reached.
    #[error("read failed")]
    Read,
    /// Memory ran out.
    #[error("out of memory")]
    Memory,
}

impl From<AllocError> for InputFault {
    ghost use Rattle.std.specs.Prelude.{◌≡◌};
    ghost use Rattle.byte_streams.specs.declared.input_fault.InputFault.TheVariants.{Memory};

    ghost from_gives = { λ _ fault. fault ≡ Memory };

    fn from(_: AllocError) -> InputFault {
        InputFault::Memory
    }
}
