//! Why a disturbance or a question is refused.

ghost use Rattle.std.specs.Prelude.{◌≡◌};
ghost use Rattle.rule_machine.specs.Refuse as refuse;
ghost use Rattle.rule_machine.specs.Tables.{table_of};

use crate::rules::uses_flags;
use graph_store::MAX_EDGES;
use net_state::NetState;
use rule_machine::{Node, Refusal, RuleSet};

pub(crate) fn link_refusal(net: &NetState, a: Node, b: Node) -> Option<Refusal>
    ensures { result ≡ refuse.link_refusal net.now.state.network a b }
{
    if !(net.has(a) && net.has(b)) {
        Some(Refusal::UnknownNode)
    } else if a == b {
        Some(Refusal::SelfLoop)
    } else if net.linked(a, b) {
        Some(Refusal::AlreadyLinked)
    } else if net.edges() >= MAX_EDGES {
        Some(Refusal::TooManyEdges)
    } else {
        None
    }
}

pub(crate) fn unlink_refusal(net: &NetState, a: Node, b: Node) -> Option<Refusal>
    ensures { result ≡ refuse.unlink_refusal net.now.state.network a b }
{
    if !(net.has(a) && net.has(b)) {
        Some(Refusal::UnknownNode)
    } else if a == b {
        Some(Refusal::SelfLoop)
    } else if net.linked(a, b) {
        None
    } else {
        Some(Refusal::NotLinked)
    }
}

pub(crate) fn point_refusal(net: &NetState, v: Node, target: Option<Node>) -> Option<Refusal>
    ensures { result ≡ refuse.point_refusal net.now.state.network v target }
{
    match target {
        Some(w) if !(net.has(v) && net.has(w)) => Some(Refusal::UnknownNode),
        Some(w) if !net.linked(v, w) => Some(Refusal::NotNeighbour),
        Some(_) => None,
        None => show_refusal(net, v),
    }
}

pub(crate) fn flag_refusal(net: &NetState, rules: RuleSet, v: Node) -> Option<Refusal>
    ensures { result ≡ refuse.flag_refusal (table_of rules) net.now.state.network v }
{
    if uses_flags(rules) {
        show_refusal(net, v)
    } else {
        Some(Refusal::NoFlag)
    }
}

pub(crate) fn join_refusal(net: &NetState, v: Node) -> Option<Refusal>
    ensures { result ≡ refuse.join_refusal net.now.state.network v }
{
    if !net.is_name(v) {
        Some(Refusal::UnknownNode)
    } else if net.has(v) {
        Some(Refusal::AlreadyPresent)
    } else {
        None
    }
}

pub(crate) fn show_refusal(net: &NetState, v: Node) -> Option<Refusal>
    ensures { result ≡ refuse.show_refusal net.now.state.network v }
{
    if net.has(v) {
        None
    } else {
        Some(Refusal::UnknownNode)
    }
}
