//! An entry that is prepared.

ghost use Rattle.std.specs.Prelude.{◌≡◌, IfOk, IsTrue};
ghost use Rattle.log_entry.specs.Kinds.{fits};

use crate::Receipt;
use log_entry::Entry;
use rule_machine::{Event, Reply, Want};
use std::marker::Model;

/// An entry that a journal has prepared, with the receipt. `Journal::commit` records the entry.
/// Contracts see the receipt.
#[derive(Drop)]
pub struct Prepared {
    entry: Entry,
    receipt: Receipt,
}

impl Model for Prepared {
    ghost use Rattle.std.specs.Prelude.{◌≡◌};
    ghost use Rattle.step_log.specs.declared.receipt.Receipt.{Receipt};

    ghost Value = { Receipt };

    ghost view = { λ p. p.receipt };

    ghost invariant = { λ p. p.entry ≡ (p.receipt.event, p.receipt.reply) };
}

impl Prepared {
    #[inline(always)]
    pub(crate) fn new(seq: u32, event: Event, reply: Reply) -> Result<Prepared, Want>
        requires { IsTrue (fits event reply) }
        ensures { IfOk result (λ prepared. prepared ≡ record { seq = seq; event = event; reply = reply }) }
    {
        let receipt = Receipt {
            seq,
            event: event.clone()?,
            reply: reply.clone()?,
        };
        let entry = Entry::new(event, reply).unwrap();
        Ok(Prepared { entry, receipt })
    }

    /// The entry's receipt, which `commit` returns.
    pub fn receipt(&self) -> &Receipt
        ensures { result.now ≡ self.now }
    {
        &self.receipt
    }

    /// The entry.
    pub fn entry(&self) -> &Entry
        ensures { result.now ≡ (self.now.event, self.now.reply) }
    {
        &self.entry
    }

    #[inline(always)]
    pub(crate) fn parts(self) -> (Entry, Receipt)
        ensures entry { result.0 ≡ (self.event, self.reply) }
        ensures receipt { result.1 ≡ self }
    {
        (self.entry, self.receipt)
    }
}
