//! Rules by name, and moves.

use crate::Node;

/// A rule: what a node does when it moves.
#[derive(Clone, Copy, Debug, PartialEq, Eq, PartialOrd, Ord)]
pub enum Act {
    /// Sets the node's flag to whether the node is married.
    Update,
    /// Points the node at a neighbour that points at the node.
    Marry,
    /// Points the node at a neighbour that the rule set calls open.
    Seduce,
    /// Sets the node's pointer to null.
    Abandon,
}

/// A move that was made.
#[derive(Clone, Copy, Debug, PartialEq, Eq)]
pub struct Moved {
    /// The node that moved.
    pub node: Node,
    /// The node's rule.
    pub act: Act,
    /// The node's new target for `Marry` and `Seduce`, else `None`.
    pub target: Option<Node>,
}
