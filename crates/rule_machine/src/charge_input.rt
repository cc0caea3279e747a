//! What the charge reads at a node.

use crate::Node;

/// A node's standing: all that the charge depends on at the node.
#[derive(Clone, Copy, Debug, PartialEq, Eq)]
pub struct ChargeInput {
    /// The node.
    pub node: Node,
    /// The node's pointer.
    pub pointer: Option<Node>,
    /// The node's married flag.
    pub flag: bool,
    /// Whether the node and a neighbour point at each other.
    pub is_married: bool,
    /// Whether a neighbour points at the node.
    pub has_suitor: bool,
}
