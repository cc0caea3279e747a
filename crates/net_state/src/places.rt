//! The list of nodes with their registers, for a base.

ghost use Rattle.std.specs.Prelude.{◌≡◌, ◌≤◌, IfOk, length};
ghost use Rattle.rule_machine.specs.Base.{node_records};
ghost use Rattle.net_state.specs.StateViews.{place_in};

use crate::NetState;
use rule_machine::{Node, NodeRecord, Want};
use std::alloc::Global;

impl NetState {
    fn place_of(&self, v: Node) -> Option<NodeRecord>
        ensures { result ≡ place_in self.now.state v }
    {
        if !self.store.has(v) {
            return None;
        }
        Some(NodeRecord {
            node: v,
            target: self.registers.pointer(v),
            flagged: self.registers.flag(v),
        })
    }

    /// The nodes with their registers, ascending.
    ///
    /// Cost: a look at each name. Fails only if memory runs out.
    pub fn list_places(&self, alloc: Global) -> Result<Vec<NodeRecord>, Want>
        ensures places { IfOk result (λ v. v.items ≡ node_records self.now.state) }
        ensures few { IfOk result (λ v. length v.items ≤ 65535) }
    {
        let mut places = Vec::with_capacity(alloc, self.nodes() as usize)?;
        for below in 0..self.capacity() {
            let v = Node::new(below + 1).unwrap();
            if let Some(place) = self.place_of(v) {
                places.push(place)?;
            }
        }
        Ok(places)
    }
}
