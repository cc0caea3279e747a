//! Values that are derived from the state of a network.

ghost use Rattle.enabled_set.specs.RemovedNames.{AreNoted};
ghost use Rattle.rule_engine.specs.DerivedValues.{IsDerived};

use crate::refresh::refresh;
use enabled_set::{EnabledSet, Removals};
use net_state::{Change, NetState, Observer};
use net_totals::Contributions;
use rule_machine::Rules;
use suitor_index::{IndexedNet, Suitors};

/// The counts of suitors, the contributions to the totals, the enabled nodes, and the names that left these.
#[derive(Drop)]
pub(crate) struct Derived<R: Rules> {
    pub(crate) suitors: Suitors<R>,
    pub(crate) contributions: Contributions<R>,
    pub(crate) enabled: EnabledSet,
    pub(crate) removals: Removals,
}

impl<R: Rules> Observer for Derived<R> {
    ghost fits = { λ net it. IsDerived R.COURTS_HIGHER_ONLY R.COURTED_PAIR_CLOSES_EDGE R.table R.closes R.adds net it.suitors.tallies.items it.contributions.open_edges it.contributions.each.items it.contributions.lower_ends it.contributions.stale it.enabled };

    ghost stays = { λ names it. AreNoted names it.enabled it.removals };

    #[inline(always)]
    fn saw(&mut self, net: &NetState, change: Change) {
        // Copied: the prover drops facts about a moved value.
        let marked = change;
        let refreshed = change;
        let turned = self.suitors.follow(net, change);
        self.contributions.saw(net, marked);
        // The guards read the counts, so the counts come first.
        refresh(
            &IndexedNet::new(net, &self.suitors),
            &mut self.enabled,
            &mut self.removals,
            refreshed,
            turned,
        );
    }
}
