//! The move of a node.

use rule_machine::{Act, Node};

/// What a node does by its rule, and its registers afterwards.
#[derive(Clone, Copy, Debug, PartialEq, Eq)]
pub struct LocalMove {
    /// The node's rule.
    pub act: Act,
    /// The node's new target for `Marry` and `Seduce`, else `None`.
    pub target: Option<Node>,
    /// The node's pointer after the move.
    pub pointer: Option<Node>,
    /// The node's flag after the move.
    pub flag: bool,
}
