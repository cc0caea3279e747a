//! The errors of reading scripts.

use std::alloc::AllocError;
use thiserror::Error;

/// Why scripts could not be read.
#[derive(Clone, Copy, Debug, PartialEq, Eq, Error)]
pub enum TextsFault {
    /// There are more than 64 scripts.
    #[error("too many scripts")]
    TooManyScripts,
    /// This line of this script, both counted from 1, is neither empty nor a command.
    #[error("script {script} line {line}: not a command")]
    BadLine { script: u32, line: u64 },
    /// A read of a script failed.
    #[error("read failed")]
    Read,
    /// Memory ran out.
    #[error("out of memory")]
    Memory,
}

impl From<AllocError> for TextsFault {
    ghost use Rattle.std.specs.Prelude.{◌≡◌};
    ghost use Rattle.script_text.specs.declared.fault.TextsFault.TheVariants.{Memory};

    ghost from_gives = { λ _ fault. fault ≡ Memory };

    fn from(_: AllocError) -> TextsFault {
        TextsFault::Memory
    }
}
