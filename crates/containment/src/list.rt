//! The reach of a disturbance, as a list.

ghost use Rattle.std.specs.Prelude.{◌≡◌, ℕ, Bool, [], ◌∷◌, IfOk, IsTrue, filter, nat_eq};
ghost use Rattle.rule_machine.specs.Network.{names, neighbours};
ghost use Rattle.rule_machine.specs.State as state;
ghost use Rattle.containment_laws.specs.Reach as of;
ghost use Rattle.containment.specs.Candidates as among;

use crate::reach::{is_hit, is_parted};
use crate::rest::is_married;
use net_state::NetState;
use rule_machine::{Event, Node, Want};
use std::alloc::Global;

fn least_head(xs: &[Node], ys: &[Node]) -> Option<Node>
    ensures { result ≡ among.least_head xs.now ys.now }
{
    match (xs.first(), ys.first()) {
        (Some(x), Some(y)) => Some(if *x <= *y { *x } else { *y }),
        (Some(x), None) => Some(*x),
        (None, Some(y)) => Some(*y),
        (None, None) => None,
    }
}

fn without_head(nodes: &[Node], v: Node) -> &[Node]
    ensures { result.now ≡ among.without_head v nodes.now }
{
    match nodes.split_first() {
        Some((first, rest)) if *first == v => rest,
        _ => nodes,
    }
}

#[tactic(auto, using(crate::proofs::AbsentNames::absent_near))]
fn near(net: &NetState, v: Node) -> &[Node]
    ensures { result.now ≡ neighbours net.now.state.network v }
{
    // Gives the prover `IsState`.
    let _ = net.registers();
    if !net.has(v) {
        return &[];
    }
    net.neighbours(v)
}

fn partner(net: &NetState, v: Node) -> Option<Node>
    ensures { result ≡ state.partner net.now.state v }
{
    let _ = net.registers();
    if !net.has(v) {
        return None;
    }
    let Some(w) = net.pointer(v) else {
        return None;
    };
    if net.points(w, v) {
        return Some(w);
    }
    None
}

fn parts_a_pair(net: &NetState, event: &Event) -> bool
    ensures { result ≡ of.parts_a_pair net.now.state event.now }
{
    match event {
        Event::Unlink(a, b) => net.points(*a, *b) && net.points(*b, *a),
        Event::Point(a, None) => is_married(net, *a),
        Event::Point(a, Some(w)) => !net.points(*a, *w) && is_married(net, *a),
        Event::Leave(a) => is_married(net, *a),
        _ => false,
    }
}

/// Whether the event hits or parts `v`, or parts a pair while `v` is unmarried.
///
/// `parts` is whether the event parts a pair.
fn is_touched(net: &NetState, event: &Event, parts: bool, v: Node) -> bool
    requires { parts ≡ of.parts_a_pair net.now.state event.now }
    ensures { result ≡ among.is_hit_or_parted net.now.state event.now v }
{
    is_hit(net, event, v) || is_parted(net, event, v) || (parts && !is_married(net, v))
}

/// Those nodes of two ascending lists that the event touches, ascending.
fn touched(
    alloc: Global,
    net: &NetState,
    event: &Event,
    xs: &[Node],
    ys: &[Node],
) -> Result<Vec<Node>, Want>
    ensures { (p q : ℕ → Bool) → xs.now ≡ filter p (names net.now.state.network) → ys.now ≡ filter q (names net.now.state.network)
        → IfOk result (λ list. list.items ≡ filter (among.is_kept p q (among.is_hit_or_parted net.now.state event.now)) (names net.now.state.network)) }
{
    let parts = parts_a_pair(net, event);
    let mut list = Vec::new(alloc);
    let mut first = xs;
    let mut second = ys;
    while let Some(v) = least_head(first, second) {
        if is_touched(net, event, parts, v) {
            list.push(v)?;
        }
        first = without_head(first, v);
        second = without_head(second, v);
    }
    Ok(list)
}

/// `one`, which contains `v` alone, if `v` is present, else the empty list.
fn only<'a>(net: &NetState, v: Node, one: &'a [Node]) -> &'a [Node]
    requires { one.now ≡ v ∷ [] }
    ensures { result.now ≡ filter (λ x. nat_eq x v) (names net.now.state.network) }
{
    if net.has(v) {
        return one;
    }
    &[]
}

/// The reach of an event that parts a pair: parted nodes and their unmarried neighbours.
fn list_beside(alloc: Global, net: &NetState, event: &Event) -> Result<Vec<Node>, Want>
    requires { IsTrue (of.parts_a_pair net.now.state event.now) }
    ensures { IfOk result (λ list. list.items ≡ filter (of.is_in_reach net.now.state event.now) (names net.now.state.network)) }
{
    let _ = net.registers();
    match event {
        Event::Unlink(a, b) => touched(alloc, net, event, near(net, *a), near(net, *b)),
        Event::Point(v, _) => match partner(net, *v) {
            Some(u) => touched(alloc, net, event, near(net, *v), near(net, u)),
            None => Ok(Vec::new(alloc)),
        },
        Event::Leave(v) => match partner(net, *v) {
            Some(u) => touched(alloc, net, event, near(net, u), only(net, u, &[u])),
            None => Ok(Vec::new(alloc)),
        },
        _ => Ok(Vec::new(alloc)),
    }
}

/// The nodes, ascending, that an event would reach if this state accepted the event.
///
/// `AllocError` if memory runs out.
///
/// Cost: one pass over the neighbours of the nodes that the event names and of their partners.
pub fn list_reach(alloc: Global, net: &NetState, event: &Event) -> Result<Vec<Node>, Want>
    ensures { IfOk result (λ list. list.items ≡ filter (of.is_in_reach net.now.state event.now) (names net.now.state.network)) }
{
    let _ = net.registers();
    if parts_a_pair(net, event) {
        return list_beside(alloc, net, event);
    }
    match event {
        Event::Link(a, b) => touched(
            alloc,
            net,
            event,
            only(net, *a, &[*a]),
            only(net, *b, &[*b]),
        ),
        Event::Point(v, _) => touched(alloc, net, event, only(net, *v, &[*v]), &[]),
        Event::Flag(v, _) => touched(alloc, net, event, only(net, *v, &[*v]), &[]),
        _ => Ok(Vec::new(alloc)),
    }
}
