//! What a node does first if its pointer is at no neighbour.

ghost use Rattle.std.specs.Prelude.{◌≡◌, None, map};
ghost use Rattle.local_rule.specs.Faults.{own_fault};
ghost use Rattle.local_rule.specs.Steps.{repaired};

use crate::AsRecord;
use crate::fault::record_of;
use rule_machine::NodeRecord;

/// The node's record with its pointer null if it is at no neighbour; else the same record.
///
/// No state has such a pointer, so no rule is about it: a node that lost a neighbour clears it first, as the
/// machine does when an edge goes (`unlinking_repairs`).
pub fn repaired<T: AsRecord>(own: &NodeRecord, around: &[T]) -> NodeRecord
    ensures value { result ≡ repaired own.now (map T.shows around.now) }
    ensures near { own_fault (map T.shows around.now) result.target ≡ None }
{
    let target = match own.target {
        Some(w) if record_of(around, w).is_none() => None,
        near => near,
    };
    NodeRecord {
        node: own.node,
        target,
        flagged: own.flagged,
    }
}
