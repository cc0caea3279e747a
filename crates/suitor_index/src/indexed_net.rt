//! Look-ups in a network with its counts.

ghost use Rattle.std.specs.Prelude.{◌≡◌, ◌≢◌, ◌≤◌, ◌&&◌, IsTrue, MatchOption, is_none, is_some, not};
ghost use Rattle.rule_machine.specs.Network.{present, linked};
ghost use Rattle.rule_machine.specs.State.{IsState, points, pointer, suits, has_suitor, first_suitor};
ghost use Rattle.rule_machine.specs.RuleTable as RuleTable;
ghost use Rattle.rule_machine.specs.RuleTable.{is_open, first_open, last_open_above};
ghost use Rattle.rule_machine.specs.LocalViews.{reaches_beside};
ghost use Rattle.suitor_index.specs.Tallies.{reduced, suitor_count, tally_at, IsLoneSuitor};

use crate::tally::{Tally, node_named};
use crate::{NodeView, Suitors, scan};
use graph_store::EdgeStore;
use net_state::{NetState, Observer};
use registers::Registers;
use rule_machine::{Node, Rules, asks_for};
use std::marker::Model;

/// A network with the counts of its nodes, borrowed for look-ups.
///
/// Contracts see the network: each look-up returns what a scan of the neighbours would.
#[derive(Drop)]
pub struct IndexedNet<'a, R: Rules> {
    net: &'a NetState,
    suitors: &'a Suitors<R>,
}

impl<'a, R: Rules> Model for IndexedNet<'a, R> {
    ghost use Rattle.net_state.specs.StateViews.{StateView, held_code};
    ghost use Rattle.suitor_index.specs.Tallies.{IsIndexed};

    ghost Value = { StateView };

    ghost coded = { held_code };

    ghost view = { λ n. n.net.now };

    ghost invariant = { λ n. IsIndexed R.COURTS_HIGHER_ONLY R.table.opens n.net.now.state n.suitors.now.tallies.items };
}

impl<'a, R: Rules> IndexedNet<'a, R> {
    /// A network with its counts.
    #[inline(always)]
    pub fn new(net: &'a NetState, suitors: &'a Suitors<R>) -> Self
        requires fits { ⟦<Suitors<R> as Observer>⟧.fits net.now suitors.now }
        ensures { result ≡ net.now }
    {
        IndexedNet { net, suitors }
    }

    /// The edges and registers.
    #[inline(always)]
    pub fn net(&self) -> &NetState
        ensures value { result.now ≡ self.now }
        ensures sound { IsState self.now.state }
        ensures few { self.now.state.network.size ≤ 65535 }
    {
        let _ = &self.suitors;
        self.net
    }

    /// The edges.
    #[inline(always)]
    pub fn store(&self) -> &EdgeStore
        ensures value { result.now.network ≡ self.now.state.network }
        ensures room { result.now.room ≡ self.now.room }
        ensures state { IsState self.now.state }
        ensures few { self.now.state.network.size ≤ 65535 }
    {
        self.net().store()
    }

    /// The registers.
    #[inline(always)]
    pub fn registers(&self) -> &Registers
        ensures value { result.now ≡ self.now.state.registers }
        ensures state { IsState self.now.state }
    {
        self.net().registers()
    }

    /// The view of a node that is present.
    #[inline(always)]
    pub fn at(&self, node: Node) -> NodeView<'_, R>
        requires { IsTrue (present self.now.state.network node) }
        ensures state { result.state ≡ self.now }
        ensures node { result.node ≡ node }
    {
        let state = IndexedNet {
            net: self.net,
            suitors: self.suitors,
        };
        NodeView { state, node }
    }

    /// Whether a node's pointer and flag make it open to a seduction.
    pub fn is_open_at(&self, v: Node) -> bool
        requires { IsTrue (present self.now.state.network v) }
        ensures { result ≡ is_open R.table.opens self.now.state v }
    {
        R::opens(self.pointer(v), self.net().flag(v))
    }

    #[inline(always)]
    fn tally(&self, v: Node) -> Tally
        requires { IsTrue (present self.now.state.network v) }
        ensures value { reduced result ≡ tally_at R.COURTS_HIGHER_ONLY R.table.opens self.now.state v }
        ensures sound { IsState self.now.state }
        ensures few { self.now.state.network.size ≤ 65535 }
    {
        let suitors = self.suitors;
        suitors.tallies[v.place()]
    }

    /// A node's pointer. One look at the counts.
    #[inline(always)]
    pub fn pointer(&self, v: Node) -> Option<Node>
        requires { IsTrue (present self.now.state.network v) }
        ensures { result ≡ pointer self.now.state v }
    {
        self.tally(v).pointer.target()
    }

    /// Whether a node's pointer is null. One look at the counts.
    #[inline(always)]
    pub fn has_null(&self, v: Node) -> bool
        requires { IsTrue (present self.now.state.network v) }
        ensures { result ≡ is_none (pointer self.now.state v) }
    {
        self.tally(v).pointer.is_null()
    }

    /// Whether node `v` points at `w`. One look at the counts.
    #[inline(always)]
    pub fn points(&self, v: Node, w: Node) -> bool
        requires { IsTrue (present self.now.state.network v) }
        ensures { result ≡ points self.now.state.registers v w }
    {
        self.tally(v).pointer.is_at(w)
    }

    /// Whether a neighbour points at node `v`. One look.
    pub fn has_suitor(&self, v: Node) -> bool
        requires { IsTrue (present self.now.state.network v) }
        ensures { result ≡ has_suitor self.now.state v }
    {
        self.tally(v).suitors > 0
    }

    /// Whether a neighbour is open.
    ///
    /// Cost: one look if guards ask for any open neighbour, else a scan of the neighbours up to the first
    /// open one.
    pub fn has_open(&self, v: Node) -> bool
        requires { IsTrue (present self.now.state.network v) }
        ensures { result ≡ is_some (first_open R.table.opens self.now.state v) }
    {
        if R::COURTS_HIGHER_ONLY {
            self.first_open(v).is_some()
        } else {
            self.tally(v).reached > 0
        }
    }

    /// Whether an open neighbour has a higher name than the node.
    ///
    /// Cost: one look if guards ask for higher names alone, else a scan of the neighbours from the greatest
    /// down to an open one above the node.
    pub fn has_open_above(&self, v: Node) -> bool
        requires { IsTrue (present self.now.state.network v) }
        ensures { result ≡ is_some (last_open_above R.table.opens self.now.state v) }
    {
        if R::COURTS_HIGHER_ONLY {
            self.tally(v).reached > 0
        } else {
            self.last_open_above(v).is_some()
        }
    }

    /// Whether `w` points nowhere and, of the neighbours that its guard asks for, none but `v` is open.
    /// One look.
    ///
    /// `v` is a neighbour of `w`. `is_open` is whether `v` is open.
    pub fn is_turned_by(&self, w: Node, v: Node, is_open: bool) -> bool
        requires present { IsTrue (present self.now.state.network w) }
        requires linked { IsTrue (linked self.now.state.network w v) }
        requires open { is_open ≡ RuleTable.is_open R.table.opens self.now.state v }
        ensures { result ≡ (is_none (pointer self.now.state w) && not (reaches_beside R.COURTS_HIGHER_ONLY R.table.opens self.now.state w v)) }
    {
        self.tally(w)
            .is_null_with_none_but(asks_for::<R>(w, v) && is_open)
    }

    /// The first neighbour that points at the node, if any.
    ///
    /// Cost: one look if the node has at most one suitor, else a scan of the neighbours up to the first
    /// suitor.
    pub fn first_suitor(&self, v: Node) -> Option<Node>
        requires { IsTrue (present self.now.state.network v) }
        ensures { result ≡ first_suitor self.now.state v }
    {
        let tally = self.tally(v);
        match tally.suitors {
            0 => None,
            1 => node_named(tally.sum),
            _ => scan::first_pointing_at(self.net().neighbours(v), self, v),
        }
    }

    /// The node's suitor if there is exactly one. One look.
    pub fn lone_suitor(&self, v: Node) -> Option<Node>
        requires { IsTrue (present self.now.state.network v) }
        ensures { MatchOption result (suitor_count self.now.state v ≢ 1) (IsLoneSuitor self.now.state v) }
    {
        let tally = self.tally(v);
        if tally.suitors == 1 {
            node_named(tally.sum)
        } else {
            None
        }
    }

    /// The first open neighbour, if any.
    ///
    /// Cost: one look if no neighbour is open and guards ask for any open neighbour, else a scan of the
    /// neighbours up to the first open one.
    pub fn first_open(&self, v: Node) -> Option<Node>
        requires { IsTrue (present self.now.state.network v) }
        ensures { result ≡ first_open R.table.opens self.now.state v }
    {
        if !R::COURTS_HIGHER_ONLY && self.tally(v).reached == 0 {
            return None;
        }
        scan::first_open::<R>(self.net().neighbours(v), self)
    }

    /// The greatest open neighbour above the node, if any.
    ///
    /// Cost: one look if the result is `None` and guards ask for higher names alone, else a scan of the
    /// neighbours from the greatest down to an open one above the node.
    pub fn last_open_above(&self, v: Node) -> Option<Node>
        requires { IsTrue (present self.now.state.network v) }
        ensures { result ≡ last_open_above R.table.opens self.now.state v }
    {
        if R::COURTS_HIGHER_ONLY && self.tally(v).reached == 0 {
            return None;
        }
        scan::last_open_above::<R>(self.net().neighbours(v), self, v)
    }

    /// Whether `w` is a neighbour of `v` that points at `v`. One look.
    pub fn is_suitor(&self, v: Node, w: Node) -> bool
        requires { IsTrue (present self.now.state.network v) }
        ensures { result ≡ (linked self.now.state.network v w && suits self.now.state v w) }
    {
        self.net().points(w, v)
    }

    /// Whether `w` is an open neighbour of `v`. A binary search among the neighbours of `v`.
    pub fn is_open(&self, v: Node, w: Node) -> bool
        requires { IsTrue (present self.now.state.network v) }
        ensures { result ≡ (linked self.now.state.network v w && is_open R.table.opens self.now.state w) }
    {
        self.net().linked(v, w) && self.is_open_at(w)
    }
}
