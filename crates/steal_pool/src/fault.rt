//! Why workers judged nothing.

use std::alloc::AllocError;
use thiserror::Error;

/// Why there are no verdicts.
#[derive(Clone, Copy, Debug, PartialEq, Eq, Error)]
pub enum PoolFault {
    /// There were no workers.
    #[error("no workers")]
    ZeroWorkers,
    /// A thread could not be started. `evaluate` never returns `Thread`: the calling thread works then.
    #[error("no thread")]
    Thread,
    /// Memory ran out.
    #[error("out of memory")]
    Memory,
}

impl From<AllocError> for PoolFault {
    ghost use Rattle.std.specs.Prelude.{◌≡◌};
    ghost use Rattle.steal_pool.specs.declared.fault.PoolFault.TheVariants.{Memory};

    ghost from_gives = { λ _ fault. fault ≡ Memory };

    fn from(_: AllocError) -> PoolFault {
        PoolFault::Memory
    }
}
