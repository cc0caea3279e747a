//! Errors of a graph.

use thiserror::Error;

/// Why an edge store could not be made or changed.
#[derive(Clone, Copy, Debug, PartialEq, Eq, Error)]
pub enum GraphFault {
    /// The graph would have more than 65,535 names.
    #[error("a graph has at most 65535 nodes")]
    TooManyNodes,
    /// An end of the edge or the node to leave is not a node of the graph.
    /// For `join`: the name is above the capacity.
    #[error("no node of the graph has this name")]
    UnknownNode,
    /// The name to join is present already.
    #[error("a node of the graph has this name already")]
    AlreadyPresent,
    /// The two ends are the same node.
    #[error("an edge needs two different nodes")]
    SelfLoop,
    /// The graph has this edge already.
    #[error("these nodes are linked already")]
    AlreadyLinked,
    /// The graph does not have this edge.
    #[error("these nodes are not linked")]
    NotLinked,
    /// The graph has 1,048,576 edges already, the most allowed.
    #[error("a graph has at most 1048576 edges")]
    TooManyEdges,
    /// Memory ran out.
    #[error("memory ran out")]
    Memory,
}
