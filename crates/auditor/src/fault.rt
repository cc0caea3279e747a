//! The errors of an audit.

use std::alloc::AllocError;
use thiserror::Error;

/// Why bytes were not accepted: the first line that fails, and the first check that it fails.
///
/// Lines count from 1. Only an audit that reads its bytes returns `Read`.
#[derive(Clone, Copy, Debug, PartialEq, Eq, Error)]
pub enum AuditFault {
    /// The first line is missing, has no LF, or is neither a header nor the first line of a base.
    #[error("line 1: bad header")]
    BadHeader,
    /// The line has no LF, or is no entry's text.
    #[error("line {line}: not a transcript line")]
    NotALine { line: u64 },
    /// The line is an entry, but its number is not the next.
    #[error("line {line}: out of order")]
    OutOfOrder { line: u64 },
    /// The line is the next entry, but the machine may not give this reply.
    #[error("line {line}: not the machine's reply")]
    NotTheMachines { line: u64 },
    /// A line of a base is wrong.
    ///
    /// - If the base opens the transcript: the first line that no base has, or line 2 if no run may begin
    ///   there.
    /// - If the base comes later: the first line that differs from the base of the state reached.
    #[error("line {line}: bad base")]
    BadBase { line: u64 },
    /// A read failed.
    #[error("read failed")]
    Read,
    /// Memory ran out.
    #[error("out of memory")]
    Memory,
}

impl From<AllocError> for AuditFault {
    ghost use Rattle.std.specs.Prelude.{◌≡◌};
    ghost use Rattle.auditor.specs.declared.fault.AuditFault.TheVariants.{Memory};

    ghost from_gives = { λ _ fault. fault ≡ Memory };

    fn from(_: AllocError) -> AuditFault {
        AuditFault::Memory
    }
}
