//! A state made from the lines of a base.

ghost use Rattle.std.specs.Prelude.{◌≡◌, ◌≤◌, ◌↔◌, ℕ, [], IfOk, IfSome, IsTrue, None, OnErr, OnOk, false, length, map};
ghost use Rattle.std.specs.List.{list_any};
ghost use Rattle.rule_machine.specs.Base.{node_records};
ghost use Rattle.std.specs.declared.cmp.Ordering.TheVariants.{Less};
ghost use Rattle.rule_machine.specs.Network.{edge_list, names, pair_cmp, present};
ghost use Rattle.rule_machine.specs.Refuse.{link_refusal, point_refusal};
ghost use Rattle.rule_machine.specs.Disturbance.{after_flag, after_link, after_point};
ghost use Rattle.rule_machine.specs.State.{State, IsState};
ghost use Rattle.net_state.specs.BaseLines.{NamesRise, EdgesAscend, HasLines, NoStateHas, NoStateHolds, NoStateLinks};

use crate::{NetState, join, set_flag, set_pointer};
use rule_machine::{Edge, Node, NodeRecord, Want};
use std::alloc::{AllocError, Global};

/// Whether the names of these nodes ascend, as they do in every base. One pass.
pub fn names_rise(nodes: &[NodeRecord]) -> bool
    ensures { IsTrue result ↔ NamesRise 0 nodes.now }
{
    let mut last = 0;
    for place in nodes {
        if place.node.name() <= last {
            return false;
        }
        last = place.node.name();
    }
    true
}

/// Whether an edge comes after the pair of `low` and `high`.
fn is_after(edge: Edge, low: u32, high: u32) -> bool
    ensures { IsTrue result ↔ (pair_cmp (low, high) edge ≡ Less) }
{
    let (a, b) = (edge.low().name(), edge.high().name());
    low < a || (low == a && high < b)
}

/// Whether these edges ascend by lower, then by higher ends, as they do in every base. One pass.
pub fn edges_ascend(edges: &[Edge]) -> bool
    ensures { IsTrue result ↔ EdgesAscend (0, 0) edges.now }
{
    let mut low = 0;
    let mut high = 0;
    for edge in edges {
        if !is_after(*edge, low, high) {
            return false;
        }
        low = edge.low().name();
        high = edge.high().name();
    }
    true
}

/// Whether a node's flag is true.
pub fn has_flag(nodes: &[NodeRecord]) -> bool
    ensures { result ≡ list_any (λ p. p.flagged) nodes.now }
{
    for place in nodes {
        if place.flagged {
            return true;
        }
    }
    false
}

impl NetState {
    /// The state that the lines of a base describe, with names up to `size`.
    ///
    /// `None` if a name is above `size`, an end of an edge is no node, or a pointer is neither null nor at a
    /// neighbour: no state has these lines then. `Want` if memory runs out.
    ///
    /// Cost: a look-up for each node, and a search for each edge.
    pub fn from_lines(
        alloc: Global,
        size: u32,
        nodes: &[NodeRecord],
        edges: &[Edge],
    ) -> Result<Option<NetState>, Want>
        requires few_names { size ≤ 65535 }
        requires few_edges { length edges.now ≤ 1048576 }
        requires nodes_rise { NamesRise 0 nodes.now }
        requires edges_rise { EdgesAscend (0, 0) edges.now }
        ensures some { IfOk result (λ found. IfSome found (λ net. HasLines size nodes.now edges.now net.state)) }
        ensures none { IfOk result (λ found. found ≡ None → NoStateHas size nodes.now edges.now) }
    {
        let Ok(mut net) = NetState::with_present(alloc, size, 0) else {
            return Err(AllocError);
        };
        if !join_all(&mut net, nodes) {
            return Ok(None);
        }
        if !link_all(&mut net, edges)? {
            return Ok(None);
        }
        if !write_all(&mut net, nodes) {
            return Ok(None);
        }
        Ok(Some(net))
    }
}

/// Stops with false at the first name above the capacity.
fn join_all(net: &mut NetState, nodes: &[NodeRecord]) -> bool
    requires empty { (v : ℕ) → present net.old.state.network v ≡ false }
    requires rise { NamesRise 0 nodes.now }
    ensures joined { IsTrue result → names net.new.state.network ≡ map (λ p. p.node) nodes.now }
    ensures beyond { result ≡ false → (s : State) → s.network.size ≡ net.old.state.network.size → node_records s ≡ nodes.now → ⊥ }
    ensures size { net.new.state.network.size ≡ net.old.state.network.size }
    ensures edges { net.new.state.network.edges ≡ net.old.state.network.edges }
{
    for place in nodes {
        if place.node.name() > net.capacity() {
            return false;
        }
        join(net, &mut (), place.node);
    }
    true
}

fn link(net: &mut NetState, a: Node, b: Node) -> Result<(), Want>
    requires { link_refusal net.old.state.network a b ≡ None }
    ensures ok { OnOk result (net.new.state ≡ after_link net.old.state a b) }
    ensures err { OnErr result (net.new.state ≡ net.old.state) }
{
    match net.link(a, b) {
        Ok(()) => Ok(()),
        Err(_) => Err(AllocError),
    }
}

/// Stops with false at the first edge with an end that is no node.
fn link_all(net: &mut NetState, edges: &[Edge]) -> Result<bool, Want>
    requires bare { edge_list net.old.state.network ≡ [] }
    requires few { length edges.now ≤ 1048576 }
    requires rise { EdgesAscend (0, 0) edges.now }
    ensures linked { IfOk result (λ done. IsTrue done → edge_list net.new.state.network ≡ edges.now) }
    ensures stranger { IfOk result (λ done. done ≡ false → NoStateLinks net.old.state.network edges.now) }
    ensures size { net.new.state.network.size ≡ net.old.state.network.size }
    ensures here { net.new.state.network.here ≡ net.old.state.network.here }
{
    for edge in edges {
        if !net.has(edge.low()) {
            return Ok(false);
        }
        if !net.has(edge.high()) {
            return Ok(false);
        }
        link(net, edge.low(), edge.high())?;
    }
    Ok(true)
}

fn may_point(net: &NetState, v: Node, target: Option<Node>) -> bool
    ensures { IsTrue result ↔ (point_refusal net.now.state.network v target ≡ None) }
{
    match target {
        Some(w) => net.has(v) && net.has(w) && net.linked(v, w),
        None => net.has(v),
    }
}

fn write(net: &mut NetState, place: NodeRecord)
    requires { point_refusal net.old.state.network place.node place.target ≡ None }
    ensures written { net.new.state ≡ after_flag (after_point net.old.state place.node place.target) place.node place.flagged }
    ensures sound { IsState net.old.state }
{
    let _ = net.registers();
    set_pointer(net, &mut (), place.node, place.target);
    set_flag(net, &mut (), place.node, place.flagged);
}

/// Stops with false at the first pointer to no neighbour.
fn write_all(net: &mut NetState, nodes: &[NodeRecord]) -> bool
    requires named { names net.old.state.network ≡ map (λ p. p.node) nodes.now }
    requires rise { NamesRise 0 nodes.now }
    ensures written { IsTrue result → node_records net.new.state ≡ nodes.now }
    ensures stranger { result ≡ false → NoStateHolds net.old.state.network nodes.now }
    ensures network { net.new.state.network ≡ net.old.state.network }
{
    for place in nodes {
        if !may_point(net, place.node, place.target) {
            return false;
        }
        write(net, *place);
    }
    true
}
