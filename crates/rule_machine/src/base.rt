//! Bases, and beginnings of epochs.

use crate::{Edge, Listing, Node};

/// A node with its registers.
#[derive(Clone, Copy, Debug, PartialEq, Eq)]
pub struct NodeRecord {
    /// The node.
    pub node: Node,
    /// The node's pointer; `None` for null.
    pub target: Option<Node>,
    /// The node's married flag.
    pub flagged: bool,
}

/// A base: all that a run needs to continue without the entries before the base.
#[derive(Debug, Drop, PartialEq, Eq)]
pub struct Base {
    /// The number of the last entry before the base; 0 if there was none.
    pub number: u32,
    /// The moves since the last accepted disturbance, or since the start.
    pub spent: u32,
    /// The nodes with their registers, ascending by name.
    pub nodes: Listing<NodeRecord>,
    /// The edges, ascending by lower end, then by higher end.
    pub edges: Listing<Edge>,
}

/// The beginning of an epoch. An epoch is the entries between two accepted disturbances.
#[derive(Clone, Copy, Debug, PartialEq, Eq)]
pub enum EpochStart {
    /// After the accepted disturbance with this entry number; 0 for the beginning of the run.
    At(u32),
    /// Before the base that precedes the retained entries.
    Forgotten,
}
