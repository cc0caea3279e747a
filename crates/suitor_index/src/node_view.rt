//! What is visible at a node.

ghost use Rattle.std.specs.Prelude.{IsTrue};
ghost use Rattle.rule_machine.specs.Network.{present};
ghost use Rattle.rule_machine.specs.State.{pointer, flag, first_suitor, has_suitor, married};
ghost use Rattle.rule_machine.specs.RuleTable.{is_open, first_open, last_open_above};

use crate::IndexedNet;
use rule_machine::{Local, Node, Rules};

/// The registers around one node of a network, and the counts there.
#[derive(Drop)]
pub struct NodeView<'a, R: Rules> {
    pub(crate) state: IndexedNet<'a, R>,
    pub(crate) node: Node,
    ghost is_present: { IsTrue (present state.state.network node) },
}

impl<R: Rules> Local for NodeView<'_, R> {
    ghost state = { λ l. l.state.state };

    ghost at = { λ l. l.node };

    ghost opens = { R.table.opens };

    fn pointer(&self, v: Node) -> Option<Node> {
        self.state.pointer(v)
    }

    fn flag(&self, v: Node) -> bool {
        self.state.net().flag(v)
    }

    fn married(&self) -> bool {
        self.state.net().married(self.node)
    }

    fn has_suitor(&self) -> bool {
        self.state.has_suitor(self.node)
    }

    fn first_suitor(&self) -> Option<Node> {
        self.state.first_suitor(self.node)
    }

    fn is_suitor(&self, w: Node) -> bool {
        self.state.is_suitor(self.node, w)
    }

    fn has_open(&self) -> bool {
        self.state.has_open(self.node)
    }

    fn first_open(&self) -> Option<Node> {
        self.state.first_open(self.node)
    }

    fn has_open_above(&self) -> bool {
        self.state.has_open_above(self.node)
    }

    fn last_open_above(&self) -> Option<Node> {
        self.state.last_open_above(self.node)
    }

    fn is_open(&self, w: Node) -> bool {
        self.state.is_open(self.node, w)
    }
}
