//! The edges of a network that are open by the stances of both ends.

ghost use Rattle.std.specs.Prelude.{◌≡◌, ◌≢◌, ◌+◌, ◌<◌, ◌≤◌, ℕ, All, IfOk, IsTrue, length, slice_set};
ghost use Rattle.rule_machine.specs.Network.{Network, present};
ghost use Rattle.net_state.specs.Changes.{IsChange};
ghost use Rattle.net_state.specs.EdgeStances.{are_open, end_at, open_edges, open_to, AreAllShut, CountsOpenEdges};
ghost use Rattle.net_state.specs.StateViews.{StateView};

use crate::{Change, EdgeStance, NetState};
use rule_machine::{MAX_EDGES, Node, Want};
use std::alloc::Global;

/// Each node's stance on its edges, and how many edges are open by the stances of both ends.
#[derive(Drop)]
pub struct OpenEdges {
    stances: Vec<EdgeStance>,
    count: u32,
    // If this is set, each stance is `Shut`, and no stance is read.
    all_shut: bool,
}

impl OpenEdges {
    /// The open edges of any network with names up to `nodes`: each stance is `Shut`, and no edge is open.
    ///
    /// Takes a byte a name; fails only if memory runs out.
    pub fn new(alloc: Global, nodes: u32) -> Result<OpenEdges, Want>
        requires { nodes ≤ 65535 }
        ensures { IfOk result (λ it. (net : Network) → net.size ≡ nodes → CountsOpenEdges net it) }
    {
        let stances = vec![in alloc; EdgeStance::Shut; nodes as usize + 1]?;
        Ok(OpenEdges {
            stances,
            count: 0,
            all_shut: true,
        })
    }

    /// Updates the count after a change of the network: an edge that came or went may be open.
    ///
    /// At most two looks; takes no memory.
    #[inline(always)]
    pub fn follow(&mut self, _net: &NetState, change: Change)
        requires { (before : StateView) × (IsChange before change _net.now × CountsOpenEdges before.state.network self.old) }
        ensures stances { self.new.stances ≡ self.old.stances }
        ensures counts { CountsOpenEdges _net.now.state.network self.new }
    {
        match change {
            Change::Linked(a, b) => {
                self.count += u32::from(are_open(&self.stances, self.all_shut, a, b));
            }
            Change::Unlinked(a, b) => {
                self.count -= u32::from(are_open(&self.stances, self.all_shut, a, b));
            }
            _ => {}
        }
    }

    /// How many edges are open, at most 1,048,576. One look.
    pub fn count(&self) -> u32
        ensures count { (net : Network) → CountsOpenEdges net self.now → result ≡ open_edges net self.now.stances.items }
        ensures few { (net : Network) → CountsOpenEdges net self.now → result ≤ 1048576 }
    {
        self.count
    }

    /// Sets a node's stance on its edges. An absent name has no edges, and its stance does not change.
    ///
    /// One look if the stance is unchanged, else a look at each neighbour; takes no memory.
    pub fn set_stance(&mut self, net: &NetState, v: Node, stance: EdgeStance)
        requires { CountsOpenEdges net.now.state.network self.old }
        ensures told { IsTrue (present net.now.state.network v) → end_at self.new.stances.items v ≡ stance }
        ensures others { (w : ℕ) → w ≢ v → end_at self.new.stances.items w ≡ end_at self.old.stances.items w }
        ensures counts { CountsOpenEdges net.now.state.network self.new }
    {
        // Called only for the contract: the state is sound.
        let _ = net.capacity();
        prove!(net.edges() <= MAX_EDGES);
        if !net.has(v) || self.stances[v.place()] == stance {
            return;
        }
        self.all_shut = false;
        self.count = turn_end(net.neighbours(v), &mut self.stances, self.count, v, stance);
    }
}

/// Whether the edge of `a` and `b` is open. Reads no stance if all are `Shut`.
#[inline(always)]
fn are_open(ends: &[EdgeStance], all_shut: bool, a: Node, b: Node) -> bool
    requires shut { IsTrue all_shut → AreAllShut ends.now }
    requires low { a < length ends.now }
    requires high { b < length ends.now }
    ensures { result ≡ are_open (end_at ends.now a) (end_at ends.now b) }
{
    !all_shut && ends[a.place()].is_open_to(ends[b.place()])
}

fn open_to(row: &[Node], ends: &[EdgeStance], end: EdgeStance) -> u32
    requires few { length row.now ≤ 65536 }
    requires within { All (λ w. w < length ends.now) row.now }
    ensures count { result ≡ open_to ends.now end row.now }
    ensures few { result ≤ 65536 }
{
    let mut count = 0;
    for &w in row {
        count += u32::from(end.is_open_to(ends[w.place()]));
    }
    count
}

/// Sets the stance of `v`, whose neighbours are `row`. `count` is how many edges were open before;
/// the result is how many are open afterwards.
fn turn_end(row: &[Node], ends: &mut [EdgeStance], count: u32, v: Node, end: EdgeStance) -> u32
    requires few { length row.now ≤ 65536 }
    requires within { All (λ w. w < length ends.old) row.now }
    requires here { v < length ends.old }
    requires room { count ≤ 1048576 }
    requires counted { open_to ends.old (end_at ends.old v) row.now ≤ count }
    ensures ends { ends.new ≡ slice_set ends.old v end }
    ensures count { result + open_to ends.old (end_at ends.old v) row.now ≡ count + open_to ends.old end row.now }
{
    let shut = open_to(row, ends, ends[v.place()]);
    let opened = open_to(row, ends, end);
    ends[v.place()] = end;
    count + opened - shut
}
