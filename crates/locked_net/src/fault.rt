//! Why calls, steps, roaming and readers fail.

use std::alloc::AllocError;
use steal_pool::PoolFault;
use step_log::RecordFault;
use thiserror::Error;

/// Why a network did not carry out a call: the first of these faults that applies.
/// Log and clerk are unchanged.
#[derive(Clone, Copy, Debug, PartialEq, Eq, Error)]
pub enum CallFault {
    /// The clerk has seen a number above that of the log's last entry: it has called another network.
    #[error("behind")]
    Behind {
        /// The number of the log's last entry; without one, that of the log's base, or 0.
        front: u32,
        /// The greatest entry number that the clerk has seen.
        seen: u32,
    },
    /// The log has reached its limit of entries.
    #[error("log full")]
    LogFull,
    /// Memory ran out.
    #[error("out of memory")]
    Memory,
}

impl From<AllocError> for CallFault {
    ghost use Rattle.std.specs.Prelude.{◌≡◌};
    ghost use Rattle.locked_net.specs.declared.fault.CallFault.TheVariants.{Memory};

    ghost from_gives = { λ _ fault. fault ≡ Memory };

    fn from(_: AllocError) -> CallFault {
        CallFault::Memory
    }
}

impl From<RecordFault> for CallFault {
    ghost use Rattle.std.specs.Prelude.{◌≡◌};
    ghost use Rattle.locked_net.specs.Calls.{call_fault_of};

    ghost from_gives = { λ why fault. fault ≡ call_fault_of why };

    fn from(why: RecordFault) -> CallFault {
        match why {
            RecordFault::LogFull => CallFault::LogFull,
            RecordFault::Memory => CallFault::Memory,
        }
    }
}

/// Why a network did not carry out a step that workers judge. Log and clerk are unchanged.
#[derive(Clone, Copy, Debug, PartialEq, Eq, Error)]
pub enum StepFault {
    /// A fault of any call; `Memory` also if memory runs out for the workers.
    #[error("{0}")]
    Call(CallFault),
    /// There were no workers. The pool's other faults are never returned here.
    #[error("{0}")]
    Pool(PoolFault),
}

impl From<CallFault> for StepFault {
    ghost use Rattle.std.specs.Prelude.{◌≡◌};
    ghost use Rattle.locked_net.specs.declared.fault.StepFault.TheVariants.{Call};

    ghost from_gives = { λ why fault. fault ≡ Call why };

    fn from(why: CallFault) -> StepFault {
        StepFault::Call(why)
    }
}

impl From<PoolFault> for StepFault {
    ghost use Rattle.std.specs.Prelude.{◌≡◌};
    ghost use Rattle.locked_net.specs.Calls.{step_fault};

    ghost from_gives = { λ why fault. fault ≡ step_fault why };

    fn from(why: PoolFault) -> StepFault {
        match why {
            PoolFault::Memory => StepFault::Call(CallFault::Memory),
            other => StepFault::Pool(other),
        }
    }
}

/// Why clerks did not roam to their last turns.
#[derive(Clone, Copy, Debug, PartialEq, Eq, Error)]
pub enum RoamFault {
    /// There were no clerks.
    #[error("no workers")]
    ZeroWorkers,
    /// A thread could not be started. `roam` never returns `Thread`: clerks roam one after another then.
    #[error("no thread")]
    Thread,
    /// A clerk has seen a number above that of the log's last entry: it has called another network.
    #[error("behind")]
    Behind {
        /// The number of the log's last entry; without one, that of the log's base, or 0.
        front: u32,
        /// The greatest entry number that the clerk has seen.
        seen: u32,
    },
    /// The log has reached its limit of entries.
    #[error("log full")]
    LogFull,
    /// Memory ran out.
    #[error("out of memory")]
    Memory,
}

impl From<CallFault> for RoamFault {
    ghost use Rattle.std.specs.Prelude.{◌≡◌};
    ghost use Rattle.locked_net.specs.RoamResults.{roam_fault};

    ghost from_gives = { λ why fault. fault ≡ roam_fault why };

    fn from(why: CallFault) -> RoamFault {
        match why {
            CallFault::Behind { front, seen } => RoamFault::Behind { front, seen },
            CallFault::LogFull => RoamFault::LogFull,
            CallFault::Memory => RoamFault::Memory,
        }
    }
}

/// Why a network gave no reader.
#[derive(Clone, Copy, Debug, PartialEq, Eq, Error)]
pub enum ReaderFault {
    /// The board gave no place: all places are taken, or memory ran out.
    #[error("no place for another reader")]
    NoPlace,
    /// Memory ran out. `reader` never returns `Memory`: the board reports `NoPlace` then.
    #[error("out of memory")]
    Memory,
}

/// Why a reader got no answer.
#[derive(Clone, Copy, Debug, PartialEq, Eq, Error)]
pub enum ReadFault {
    /// No node of the network had this name in the view.
    #[error("no node has this name")]
    UnknownNode {
        /// How many entries were published then.
        front: u32,
    },
    /// The board did not let the reader in: the network has ended.
    #[error("no view")]
    NoView,
}

/// The board did not let the reader in: the network has ended.
#[derive(Clone, Copy, Debug, PartialEq, Eq, Error)]
#[error("no view")]
pub struct NoView;
