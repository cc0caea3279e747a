//! What a caller gets for an event, and what it keeps.

ghost use Rattle.std.specs.Prelude.{◌≡◌};
ghost use Rattle.step_log.specs.Receipts.{RiseAbove};

use rule_machine::{Event, Reply};
use std::marker::Model;

/// The entry that a call added.
#[derive(Debug, Drop, PartialEq, Eq)]
pub struct Receipt {
    /// The number of the entry, 1 to 16,777,216.
    pub seq: u32,
    /// The event.
    pub event: Event,
    /// The reply.
    pub reply: Reply,
}

/// The number of the event's entry, and the reply.
#[derive(Debug, Drop, PartialEq, Eq)]
pub struct Answer {
    /// The number of the entry, 1 to 16,777,216.
    pub seq: u32,
    /// The reply.
    pub reply: Reply,
}

/// A caller's receipts, oldest first, with strictly rising numbers; and the greatest number that a checkpoint
/// returned to this caller, if any.
#[derive(Drop)]
pub struct Receipts {
    list: Vec<Receipt>,
    base: Option<u32>,
}

impl Model for Receipts {
    ghost use Rattle.step_log.specs.Receipts.{ReceiptsView, RiseAbove};

    ghost Value = { ReceiptsView };

    ghost view = { λ r. record { receipts = r.list.items; base = r.base } };

    ghost invariant = { λ r. RiseAbove 0 r.list.items };
}

impl Receipts {
    /// The receipts and the base of a caller.
    pub fn new(list: Vec<Receipt>, base: Option<u32>) -> Receipts
        requires { RiseAbove 0 list.items }
        ensures { result ≡ record { receipts = list.items; base = base } }
    {
        Receipts { list, base }
    }

    pub(crate) fn list(&self) -> &[Receipt]
        ensures receipts { result.now ≡ self.now.receipts }
        ensures rise { RiseAbove 0 self.now.receipts }
    {
        &self.list
    }

    pub(crate) fn base(&self) -> Option<u32>
        ensures { result ≡ self.now.base }
    {
        self.base
    }
}
