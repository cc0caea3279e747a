//! The nodes that a disturbance would reach.

ghost use Rattle.std.specs.Prelude.{◌≡◌, ◌≤◌, IfOk, length};
ghost use Rattle.containment_laws.specs.Reach.{reach_size};
ghost use Rattle.rule_engine.specs.DisturbanceReach.{would_reach, reach_of, Spares};

use crate::Net;
use crate::touched_nodes::is_disturbance;
use rule_machine::{Event, Node, Rules, Want};

impl<R: Rules> Net<R> {
    /// Whether an event, carried out now, would reach `v`. Nothing changes.
    /// If `v` is at rest and the event would not reach `v`, then `v` stays at rest.
    /// False for a step, for a query, and for an event that would be refused. Goes through the neighbours of
    /// `v`.
    pub fn would_reach(&self, event: &Event, v: Node) -> bool
        ensures { result ≡ would_reach R.table self.now.state event.now v }
    {
        is_disturbance(&self.index(), event) && containment::is_in_reach(&self.net, event, v)
    }

    /// The nodes, ascending, that an event, carried out now, would reach. Nothing changes.
    /// A node at rest that is not in the list stays at rest.
    /// The list is empty for a step, for a query, and for an event that would be refused. `AllocError` if
    /// memory runs out.
    /// Goes once through the neighbours of the nodes that the event names and of these nodes' partners.
    pub fn reach_of(&self, event: &Event) -> Result<Vec<Node>, Want>
        ensures reach { IfOk result (λ list. list.items ≡ reach_of R.table self.now.state event.now) }
        ensures few { IfOk result (λ list. length list.items ≤ reach_size self.now.state event.now) }
        ensures spares { IfOk result (λ list. Spares R.table self.now.state self.now.spent event.now list.items) }
    {
        if !is_disturbance(&self.index(), event) {
            return Ok(Vec::new(self.alloc));
        }
        containment::list_reach(self.alloc, &self.net, event)
    }
}
