//! Which nodes a disturbance would reach.

ghost use Rattle.std.specs.Prelude.{◌≡◌, ◌&&◌, ◌||◌, nat_eq, is_some, find};
ghost use Rattle.rule_machine.specs.Network.{neighbours};
ghost use Rattle.rule_machine.specs.State as state;
ghost use Rattle.containment_laws.specs.Reach as of;

use crate::rest::is_married;
use net_state::NetState;
use rule_machine::{Event, Node};

fn is_mutual(net: &NetState, v: Node, w: Node) -> bool
    ensures { result ≡ state.is_mutual net.now.state v w }
{
    net.points(v, w) && net.points(w, v)
}

/// Whether `v` is the partner of `a`, or is `a` while `a` is married.
fn is_of_pair(net: &NetState, a: Node, v: Node) -> bool
    ensures { result ≡ (state.is_mutual net.now.state a v || (nat_eq v a && state.married net.now.state a)) }
{
    is_mutual(net, a, v) || (v == a && is_married(net, a))
}

/// Whether the event parts `v` from its partner.
pub(crate) fn is_parted(net: &NetState, event: &Event, v: Node) -> bool
    ensures { result ≡ of.is_parted net.now.state event.now v }
{
    match event {
        Event::Unlink(a, b) => is_mutual(net, *a, *b) && (v == *a || v == *b),
        Event::Point(a, None) => is_of_pair(net, *a, v),
        Event::Point(a, Some(w)) => !net.points(*a, *w) && is_of_pair(net, *a, v),
        Event::Leave(a) => is_mutual(net, *a, v),
        _ => false,
    }
}

/// Whether the event hits `v`.
///
/// An event hits `v` if `v` is unmarried and gets an edge to an unmarried node or a new target, or if the
/// flag of `v` becomes wrong.
pub(crate) fn is_hit(net: &NetState, event: &Event, v: Node) -> bool
    ensures { result ≡ of.is_hit net.now.state event.now v }
{
    match event {
        Event::Link(a, b) => !is_married(net, *a) && !is_married(net, *b) && (v == *a || v == *b),
        Event::Point(a, Some(w)) => v == *a && !is_married(net, *a) && !net.points(*a, *w),
        Event::Flag(a, value) => v == *a && *value != is_married(net, *a),
        _ => false,
    }
}

#[tactic(auto, using(crate::proofs::AbsentNames::absent_alone))]
fn is_beside_parted(net: &NetState, event: &Event, v: Node) -> bool
    ensures { result ≡ is_some (find (of.is_parted net.now.state event.now) (neighbours net.now.state.network v)) }
{
    // Gives the prover `IsState`.
    let _ = net.registers();
    if !net.has(v) {
        return false;
    }
    for &w in net.neighbours(v) {
        if is_parted(net, event, w) {
            return true;
        }
    }
    false
}

/// Whether an event would reach node `v` if this state accepted the event.
///
/// An event reaches the nodes that it hits, the nodes that it parts from their partners, and the unmarried
/// neighbours of parted nodes. A node at rest that the event does not reach stays at rest.
///
/// Cost: a pass over the node's neighbours.
pub fn is_in_reach(net: &NetState, event: &Event, v: Node) -> bool
    ensures { result ≡ of.is_in_reach net.now.state event.now v }
{
    is_hit(net, event, v)
        || is_parted(net, event, v)
        || (!is_married(net, v) && is_beside_parted(net, event, v))
}
