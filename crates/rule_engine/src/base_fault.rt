//! Why no network can begin at a base.

use std::alloc::AllocError;
use thiserror::Error;

/// Why no network was made from a base: the first of these that applies.
#[derive(Clone, Copy, Debug, PartialEq, Eq, Error)]
pub enum BaseFault {
    /// There would be more than 65,535 names.
    #[error("a network has at most 65535 names")]
    TooManyNames,
    /// There are more than 1,048,576 edges.
    #[error("a network has at most 1048576 edges")]
    TooManyEdges,
    /// No state has these lines: nodes or edges do not ascend, a name is too high, an end of an edge is no
    /// node, or a pointer is neither null nor at a neighbour.
    #[error("no state has these lines")]
    NotAState,
    /// A flag is true, and the rules use none.
    #[error("these rules use no flags")]
    HasFlags,
    /// The moves spent plus the charge are above the bound.
    #[error("moves spent plus charge are above the bound")]
    AboveBound,
    /// Memory ran out.
    #[error("memory ran out")]
    Memory,
}

impl From<AllocError> for BaseFault {
    ghost use Rattle.std.specs.Prelude.{◌≡◌};
    ghost use Rattle.rule_engine.specs.declared.base_fault.BaseFault.TheVariants.{Memory};

    ghost from_gives = { λ _ fault. fault ≡ Memory };

    fn from(_: AllocError) -> BaseFault {
        BaseFault::Memory
    }
}
