//! Why receipts do not settle.

use crate::Journal;
use rule_engine::Rules;
use std::alloc::AllocError;
use thiserror::Error;

/// Why clerks were not settled against a journal.
#[derive(Clone, Copy, Debug, PartialEq, Eq, Error)]
pub enum SettleFault {
    /// The number of the clerks' receipts differs from that of the log's entries, dropped ones included.
    /// In a network from a base the entries are those after the base.
    #[error("count-differs")]
    CountDiffers,
    /// The base's number is not the greatest that `checkpoint` returned to one of the clerks; without a
    /// checkpoint, not that of the network's beginning.
    #[error("base-differs")]
    BaseDiffers,
    /// The first receipt that does not agree, in the order of the clerks and then of their receipts.
    /// Such a receipt is not the log's entry with the receipt's number, or an earlier receipt has that
    /// number. Up to the journal's base only the number is compared.
    #[error("stranger")]
    Stranger {
        /// The index of the receipt's clerk, from 0.
        clerk: u32,
        /// The index of the receipt among that clerk's receipts, from 0.
        place: u32,
    },
    /// Memory ran out.
    #[error("out of memory")]
    Memory,
}

impl From<AllocError> for SettleFault {
    ghost use Rattle.std.specs.Prelude.{◌≡◌};
    ghost use Rattle.step_log.specs.declared.settle_fault.SettleFault.TheVariants.{Memory};

    ghost from_gives = { λ _ fault. fault ≡ Memory };

    fn from(_: AllocError) -> SettleFault {
        SettleFault::Memory
    }
}

/// A journal that did not settle, returned with the reason.
#[derive(Drop)]
pub struct Unsettled<R: Rules> {
    /// Why the journal did not settle.
    pub why: SettleFault,
    /// The journal, unchanged.
    pub journal: Journal<R>,
}
