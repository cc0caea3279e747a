//! What no state shows at a node.

ghost use Rattle.std.specs.Prelude.{◌≡◌, ◌≤◌, All, IfSome, IsSome, None, map};
ghost use Rattle.local_rule.specs.Faults.{row_fault, rows_fault, own_fault, first_fault};
ghost use Rattle.local_rule.specs.Views.{ShowsAtNode, IsNeverShown, record_of};
ghost use Rattle.local_rule.specs.Star.{star};

use crate::AsRecord;
use rule_machine::{Node, NodeRecord};
use thiserror::Error;

/// Why no state of the machine shows this at a node.
#[derive(Clone, Copy, Debug, PartialEq, Eq, Error)]
pub enum ViewFault {
    /// This neighbour is not above the one listed before it: out of order, or listed twice.
    #[error("the neighbours are not listed ascending by name, each once")]
    NotAscending(Node),
    /// The node is listed among its own neighbours.
    #[error("the node is listed among its own neighbours")]
    OwnNeighbour,
    /// This neighbour points at itself.
    #[error("a neighbour points at itself")]
    PointsAtItself(Node),
    /// The node's own pointer is at this name, which is no neighbour. `repaired` sets it to null.
    #[error("the node points at a name that is no neighbour")]
    PointsAtStranger(Node),
}

pub(crate) fn record_of<T: AsRecord>(around: &[T], w: Node) -> Option<NodeRecord>
    ensures { result ≡ record_of (map T.shows around.now) w }
{
    for row in around {
        let row = row.as_record();
        if row.node == w {
            return Some(row);
        }
    }
    None
}

fn row_fault(me: Node, before: u32, row: &NodeRecord) -> Option<ViewFault>
    ensures fault { result ≡ row_fault me before row.now }
    ensures named { IfSome row.now.target (λ w. 1 ≤ w) }
{
    if let Some(target) = row.target {
        let _ = target.name();
    }
    if row.node.name() <= before {
        return Some(ViewFault::NotAscending(row.node));
    }
    if row.node == me {
        return Some(ViewFault::OwnNeighbour);
    }
    if row.target == Some(row.node) {
        return Some(ViewFault::PointsAtItself(row.node));
    }
    None
}

fn rows_fault<T: AsRecord>(me: Node, around: &[T]) -> Option<ViewFault>
    ensures fault { result ≡ rows_fault me 0 (map T.shows around.now) }
    ensures named { result ≡ None → All (λ r. IfSome r.target (λ w. 1 ≤ w)) (map T.shows around.now) }
{
    let mut before = 0;
    for row in around {
        let row = row.as_record();
        if let Some(fault) = row_fault(me, before, &row) {
            return Some(fault);
        }
        before = row.node.name();
    }
    None
}

fn own_fault<T: AsRecord>(around: &[T], target: Option<Node>) -> Option<ViewFault>
    ensures { result ≡ own_fault (map T.shows around.now) target }
{
    let w = target?;
    if record_of(around, w).is_some() {
        return None;
    }
    Some(ViewFault::PointsAtStranger(w))
}

/// The first fault of what a node holds: `None` if some state shows it (the star does), else no state does.
pub fn fault_of<T: AsRecord>(own: &NodeRecord, around: &[T]) -> Option<ViewFault>
    ensures fault { result ≡ first_fault own.now (map T.shows around.now) }
    ensures shown { result ≡ None → ShowsAtNode (star own.now (map T.shows around.now)) own.now (map T.shows around.now) }
    ensures never { IsSome result → IsNeverShown own.now (map T.shows around.now) }
{
    let _ = own.node.name();
    match rows_fault(own.node, around) {
        Some(fault) => Some(fault),
        None => own_fault(around, own.target),
    }
}
