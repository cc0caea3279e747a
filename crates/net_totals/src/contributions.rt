//! What each node contributes to the totals of its network, as of the last look at the node.

ghost use Rattle.std.specs.Prelude.{◌≡◌, All, ◌+◌, ◌<◌, ◌≤◌, length, slice_set, IfOk};
ghost use Rattle.rule_machine.specs.State.{IsState};
ghost use Rattle.net_totals.specs.Contributions.{AreChargeSums, FitsSixteenBits, IsExactState};
ghost use Rattle.net_state.specs.StateViews.{StateView};

use crate::contribution::{Contribution, NO_CONTRIBUTION};
use enabled_set::{EnabledSet, Marks};
use net_state::{Change, NetState, Observer, OpenEdges};
use rule_machine::{Node, Rules, Want};
use std::alloc::Global;
use std::marker::PhantomData;

/// What each node contributes to the totals under the rules `R`, as of the last look at the node.
///
/// The contribution of a stale name, and its stance on its edges, may have changed since. Each change marks at
/// most three names as stale. The count of open edges follows each change.
#[derive(Drop)]
pub struct Contributions<R: Rules> {
    pub(crate) each: Vec<Contribution>,
    pub(crate) added: u32,
    pub(crate) closing: u32,
    pub(crate) lower_ends: EnabledSet,
    pub(crate) stale: Marks,
    pub(crate) open_edges: OpenEdges,
    rules: PhantomData<R>,
    ghost few: { length each.items ≤ 65536 },
    ghost light: { All FitsSixteenBits each.items },
    ghost summed: { AreChargeSums each.items added closing },
}

impl<R: Rules> Contributions<R> {
    /// Contributions that fit any network with names up to `nodes`: all names are stale.
    ///
    /// Takes 8 bytes and a bit a name; fails only if memory runs out.
    pub fn new(alloc: Global, nodes: u32) -> Result<Contributions<R>, Want>
        requires { nodes ≤ 65535 }
        ensures { IfOk result (λ it. (net : StateView) → IsState net.state → net.state.network.size ≡ nodes → ⟦<Contributions<R> as Observer>⟧.fits net it) }
    {
        let each = vec![in alloc; NO_CONTRIBUTION; nodes as usize + 1]?;
        let lower_ends = EnabledSet::new(alloc, nodes)?;
        let mut stale = Marks::new(alloc, nodes)?;
        stale.mark_all();
        let open_edges = OpenEdges::new(alloc, nodes)?;
        Ok(Contributions {
            each,
            added: 0,
            closing: 0,
            lower_ends,
            stale,
            open_edges,
            rules: PhantomData,
        })
    }

    pub(crate) fn put(&mut self, v: Node, contribution: Contribution, is_lower_end: bool)
        requires contribution { v < length self.old.each.items }
        requires lower { v < length self.old.lower_ends }
        ensures each { self.new.each.items ≡ slice_set self.old.each.items v contribution }
        ensures lower { self.new.lower_ends ≡ slice_set self.old.lower_ends v is_lower_end }
        ensures stale { self.new.stale ≡ self.old.stale }
        ensures open { self.new.open_edges ≡ self.old.open_edges }
    {
        let was = self.each[v.place()];
        self.each[v.place()] = contribution;
        self.added = self.added - u32::from(was.added) + u32::from(contribution.added);
        self.closing = self.closing - u32::from(was.closing) + u32::from(contribution.closing);
        if is_lower_end {
            self.lower_ends.insert(v);
        } else {
            self.lower_ends.remove(v);
        }
    }
}

impl<R: Rules> Observer for Contributions<R> {
    ghost fits = { λ net it. IsExactState R.COURTED_PAIR_CLOSES_EDGE R.closes R.adds net it.open_edges it.each.items it.lower_ends it.stale };

    ghost stays = { λ names it. Unit {0} };

    #[inline(always)]
    fn saw(&mut self, net: &NetState, change: Change) {
        // Copied: the prover drops facts about a moved value.
        let marked = change;
        self.open_edges.follow(net, change);
        marked.mark_names(&mut self.stale);
    }
}
