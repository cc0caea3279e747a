//! A network whose lock is held.

ghost use Rattle.std.specs.Prelude.{◌≡◌};
ghost use Rattle.locked_net.specs.Nets.{name_of, setting_of};
ghost use Rattle.locked_net.specs.Settings.{IsLogIn};

use crate::LockedNet;
use crate::net_key::NetKey;
use crate::published_journal::PublishedJournal;
use keyed_lock::Hold;
use rule_engine::Rules;
use std::marker::Model;
use std::sync::Wait;
use step_log::MAX_ENTRIES;

mod calls;
mod looks;

/// A network whose lock the caller has until `free`. Cannot be dropped: `free` ends it.
/// Contracts see the whole published log from its beginning, dropped entries included; the base of the kept
/// part; the board's name; the count of rounds, if they are counted; and after which entry counting began.
pub struct HeldNet<'a, R: Rules> {
    net: &'a LockedNet<R>,
    published: Box<PublishedJournal<R>>,
    hold: Hold<Box<PublishedJournal<R>>, NetKey>,
}

impl<'a, R: Rules> Model for HeldNet<'a, R> {
    ghost use Rattle.std.specs.Coded.{codes};
    ghost use Rattle.rule_machine.specs.State.{state_code};
    ghost use Rattle.logbook.specs.Pages.{book_coded};
    ghost use Rattle.keyed_lock.specs.Locks.{IsHoldOf};
    ghost use Rattle.locked_net.specs.PublishedJournals.{PublishedJournalView, IsOfKey};
    ghost use Rattle.locked_net.specs.Nets.{net_key_of};

    ghost Value = { PublishedJournalView };

    ghost coded = { Prim.hlevel (codes, state_code, book_coded) };

    ghost view = { λ h. h.published.value };

    ghost invariant = { λ h. IsOfKey (net_key_of h.net.now) h.published.value × IsHoldOf h.net.now.lock h.hold };
}

impl<R: Rules> LockedNet<R> {
    /// Waits for the network's lock, and keeps the lock until `free`.
    pub fn hold<W: Wait>(&self, rt: &W) -> HeldNet<'_, R>
        ensures own { IsLogIn (setting_of R.table self.now) result.log }
        ensures name { result.name ≡ name_of self.now }
    {
        let (published, hold) = self.lock.take(rt);
        prove!(published.len() <= MAX_ENTRIES);
        HeldNet {
            net: self,
            published,
            hold,
        }
    }
}

impl<R: Rules> HeldNet<'_, R> {
    /// Frees the lock.
    pub fn free(self) {
        let HeldNet {
            net,
            published,
            hold,
        } = self;
        net.lock.give(hold, published);
    }
}
