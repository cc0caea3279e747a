//! Reads of a name's registers and edges. An absent name has a null pointer, a false flag and no edge.

ghost use Rattle.std.specs.Prelude.{◌≡◌, ◌-◌, ◌≤◌, IsTrue, Some, cond};
ghost use Rattle.rule_machine.specs.Network.{present};
ghost use Rattle.rule_machine.specs.State as state;
ghost use Rattle.machine_laws.specs.Degrees as degrees;

use net_state::NetState;
use rule_machine::Node;

pub(crate) fn pointer(net: &NetState, v: Node) -> Option<Node>
    ensures { result ≡ state.pointer net.now.state v }
{
    // Gives the prover `IsState`.
    let _ = net.registers();
    if net.is_name(v) { net.pointer(v) } else { None }
}

pub(crate) fn flag(net: &NetState, v: Node) -> bool
    ensures { result ≡ state.flag net.now.state v }
{
    let _ = net.registers();
    net.is_name(v) && net.flag(v)
}

#[inline(always)]
pub(crate) fn points_back(net: &NetState, v: Node, w: Node) -> bool
    requires { state.pointer net.now.state v ≡ Some w }
    ensures back { result ≡ state.points net.now.state.registers w v }
    ensures sound { state.IsState net.now.state }
{
    let _ = net.registers();
    net.points(w, v)
}

pub(crate) fn first_suitor(net: &NetState, v: Node) -> Option<Node>
    requires { IsTrue (present net.now.state.network v) }
    ensures { result ≡ state.first_suitor net.now.state v }
{
    for &w in net.neighbours(v) {
        if net.points(w, v) {
            return Some(w);
        }
    }
    None
}

#[tactic(auto, using(crate::proofs::Degrees::no_edges, crate::proofs::Degrees::few_edges))]
pub(crate) fn degree(net: &NetState, v: Node) -> u32
    ensures value { result ≡ degrees.degree net.now.state.network v }
    ensures few { result ≤ 65535 }
{
    // Gives the prover `IsState`, and that there are few names.
    let _ = net.capacity();
    if net.has(v) {
        net.neighbours(v).len() as u32
    } else {
        0
    }
}

#[tactic(auto, using(crate::proofs::Degrees::no_suitor))]
pub(crate) fn has_suitor(net: &NetState, v: Node) -> bool
    ensures { result ≡ state.has_suitor net.now.state v }
{
    let _ = net.registers();
    net.has(v) && first_suitor(net, v).is_some()
}

/// How many edges `head` has besides theirs if `from` points at `head`, else 0.
pub(crate) fn freed_edges(net: &NetState, from: Node, head: Node) -> u32
    ensures value { result ≡ cond (state.points net.now.state.registers from head) (degrees.degree net.now.state.network head - 1) 0 }
    ensures few { result ≤ 65535 }
{
    if net.points(from, head) {
        degree(net, head).saturating_sub(1)
    } else {
        0
    }
}
