//! Counts of a network.

/// What `status` reports.
#[derive(Clone, Copy, Debug, PartialEq, Eq)]
pub struct Counts {
    /// The number of nodes.
    pub nodes: u32,
    /// The number of edges.
    pub edges: u32,
    /// The number of mutual pairs.
    pub pairs: u32,
    /// The number of enabled nodes.
    pub enabled: u32,
    /// The charge (the potential): at most this many moves can come before the next disturbance.
    pub charge: u32,
    /// The moves since the last accepted disturbance, or since the start.
    pub spent: u32,
}
