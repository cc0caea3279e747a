//! The totals that questions need, updated by looks at the stale names.

ghost use Rattle.std.specs.Prelude.{◌≡◌, ℕ, false, filter, length, count_by, sum_by, IfOk};
ghost use Rattle.std.specs.List.{range_with_len};
ghost use Rattle.enabled_set.specs.Members.{is_in};
ghost use Rattle.rule_machine.specs.Network.{names, edge_list};
ghost use Rattle.rule_machine.specs.Stable.{mutual_pairs};
ghost use Rattle.rule_machine.specs.ChargeInputs.{ends_open};
ghost use Rattle.net_totals.specs.Contributions.{is_lower_end, node_part};

use crate::Contributions;
use crate::contribution::{contribution_of, is_lower_end, stance_at};
use net_state::{NetState, Observer};
use rule_machine::{Node, Rules, Want};
use suitor_index::{IndexedNet, Suitors};

/// The totals over all nodes and edges that a status needs.
#[derive(Clone, Copy)]
pub struct Totals {
    /// The number of mutual pairs.
    pub pairs: u32,
    /// The number of edges that are open by the stances of their ends.
    pub open_edges: u32,
    /// What all nodes add to the charge apart from their edges.
    pub added: u32,
    /// The number of pointers that close an edge that is open by the stances of its ends.
    pub closing: u32,
}

impl<R: Rules> Contributions<R> {
    /// Updates the contribution of each stale name, so that no name is stale.
    fn look_again(&mut self, net: &NetState, suitors: &Suitors<R>)
        requires index { ⟦<Suitors<R> as Observer>⟧.fits net.now suitors.now }
        requires exact { ⟦<Contributions<R> as Observer>⟧.fits net.now self.old }
        ensures exact { ⟦<Contributions<R> as Observer>⟧.fits net.now self.new }
        ensures fresh { (v : ℕ) → is_in self.new.stale v ≡ false }
    {
        while let Some(v) = self.stale.take() {
            let index = IndexedNet::new(net, suitors);
            let contribution = contribution_of(&index, v);
            let is_lower_end = is_lower_end(&index, v);
            let stance = stance_at(&index, v);
            self.put(v, contribution, is_lower_end);
            self.open_edges.set_stance(net, v, stance);
        }
    }

    /// The totals that a status needs.
    ///
    /// Cost: looks at the names that became stale since the last call of `totals` or `lower_ends`, and at
    /// the neighbours of each such node whose stance changed or that has several suitors. Takes no memory.
    pub fn totals(&mut self, net: &NetState, suitors: &Suitors<R>) -> Totals
        requires index { ⟦<Suitors<R> as Observer>⟧.fits net.now suitors.now }
        requires exact { ⟦<Contributions<R> as Observer>⟧.fits net.now self.old }
        ensures exact { ⟦<Contributions<R> as Observer>⟧.fits net.now self.new }
        ensures pairs { result.pairs ≡ length (mutual_pairs net.now.state) }
        ensures open { result.open_edges ≡ count_by (ends_open R.COURTED_PAIR_CLOSES_EDGE net.now.state) (edge_list net.now.state.network) }
        ensures added { result.added ≡ sum_by (node_part (R.adds net.now.state) net.now.state) (names net.now.state.network) }
        ensures closing { result.closing ≡ count_by (R.closes net.now.state) (names net.now.state.network) }
    {
        self.look_again(net, suitors);
        Totals {
            pairs: self.lower_ends.count(),
            open_edges: self.open_edges.count(),
            added: self.added,
            closing: self.closing,
        }
    }

    /// The lower ends of the mutual pairs, ascending.
    ///
    /// `Want` if memory runs out. Cost: the looks of `totals`; takes two bytes for each pair.
    pub fn lower_ends(&mut self, net: &NetState, suitors: &Suitors<R>) -> Result<Vec<Node>, Want>
        requires index { ⟦<Suitors<R> as Observer>⟧.fits net.now suitors.now }
        requires exact { ⟦<Contributions<R> as Observer>⟧.fits net.now self.old }
        ensures exact { ⟦<Contributions<R> as Observer>⟧.fits net.now self.new }
        ensures ends { IfOk result (λ ends. ends.items ≡ filter (is_lower_end net.now.state.registers) (range_with_len 1 net.now.state.network.size)) }
    {
        self.look_again(net, suitors);
        self.lower_ends.to_list()
    }
}
