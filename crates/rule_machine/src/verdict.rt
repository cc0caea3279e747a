//! Verdicts on items.

use crate::{Moved, Node};

/// What one item of a choice would do alone.
#[derive(Clone, Copy, Debug, PartialEq, Eq)]
pub enum Outcome {
    /// The node is not present.
    Absent,
    /// No rule is enabled at the node.
    Idle,
    /// The node's rule does not allow the wished target.
    Wrong,
    /// The node makes this move.
    Moves(Moved),
}

/// The outcome of one item of a choice, with the item's index.
#[derive(Clone, Copy, Debug, PartialEq, Eq)]
pub struct Verdict {
    /// The item's index in the choice, from 0.
    pub place: u32,
    /// The item's node.
    pub node: Node,
    /// What the item would do.
    pub outcome: Outcome,
}
