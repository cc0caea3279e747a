//! Refusals of edits and faults.

ghost use Rattle.std.specs.Prelude.{◌≡◌, Ok};
ghost use Rattle.rule_machine.specs.Refuse.{unlink_refusal, point_refusal, flag_refusal, join_refusal, leave_refusal};
ghost use Rattle.rule_engine.specs.EventReplies.{stored_reply};
ghost use Rattle.rule_engine.specs.FaultRefusals.{refused_as, edit_reply};

use graph_store::{EdgeStore, GraphFault};
use rule_machine::{Node, Refusal, Reply, Rules, Want};

pub(crate) fn refusal_of(fault: GraphFault) -> Option<Refusal>
    ensures { result ≡ refused_as fault }
{
    match fault {
        GraphFault::UnknownNode => Some(Refusal::UnknownNode),
        GraphFault::SelfLoop => Some(Refusal::SelfLoop),
        GraphFault::AlreadyLinked => Some(Refusal::AlreadyLinked),
        GraphFault::NotLinked => Some(Refusal::NotLinked),
        GraphFault::TooManyEdges => Some(Refusal::TooManyEdges),
        GraphFault::AlreadyPresent => Some(Refusal::AlreadyPresent),
        GraphFault::TooManyNodes | GraphFault::Memory => None,
    }
}

pub(crate) fn put_edit(reply: &mut Reply, refusal: Option<Refusal>) -> Result<(), Want>
    ensures { stored_reply result reply.new ≡ Ok (edit_reply refusal) }
{
    match refusal {
        Some(refusal) => *reply = Reply::Refused(refusal),
        None => *reply = Reply::Accepted,
    }
    Ok(())
}

/// One look-up if the edge exists.
pub(crate) fn refused_unlink(store: &EdgeStore, a: Node, b: Node) -> Option<Refusal>
    ensures { result ≡ unlink_refusal store.now.network a b }
{
    if store.linked(a, b) {
        None
    } else if !store.has(a) || !store.has(b) {
        Some(Refusal::UnknownNode)
    } else if a == b {
        Some(Refusal::SelfLoop)
    } else {
        Some(Refusal::NotLinked)
    }
}

pub(crate) fn refused_flag<R: Rules>(store: &EdgeStore, v: Node) -> Option<Refusal>
    ensures { result ≡ flag_refusal R.table store.now.network v }
{
    if !R::FLAGS {
        return Some(Refusal::NoFlag);
    }
    refused_leave(store, v)
}

pub(crate) fn refused_join(store: &EdgeStore, v: Node) -> Option<Refusal>
    ensures { result ≡ join_refusal store.now.network v }
{
    if v.name() > store.capacity() {
        Some(Refusal::UnknownNode)
    } else if store.has(v) {
        Some(Refusal::AlreadyPresent)
    } else {
        None
    }
}

pub(crate) fn refused_leave(store: &EdgeStore, v: Node) -> Option<Refusal>
    ensures { result ≡ leave_refusal store.now.network v }
{
    if store.has(v) {
        None
    } else {
        Some(Refusal::UnknownNode)
    }
}

pub(crate) fn refused_point(store: &EdgeStore, v: Node, target: Option<Node>) -> Option<Refusal>
    ensures { result ≡ point_refusal store.now.network v target }
{
    if !store.has(v) {
        return Some(Refusal::UnknownNode);
    }
    let w = target?;
    if !store.has(w) {
        Some(Refusal::UnknownNode)
    } else if store.linked(v, w) {
        None
    } else {
        Some(Refusal::NotNeighbour)
    }
}
