//! Undirected edges.

ghost use Rattle.std.specs.Prelude.{◌≡◌, ◌≢◌, ◌<◌, SomeIff, min, max};

use crate::Node;
use std::marker::Model;

/// The most edges of a network.
pub const MAX_EDGES: u32 = 1_048_576;

/// An undirected edge between two different nodes.
/// Contracts see the pair of its ends, the lower name first.
#[derive(Clone, Copy, Debug, PartialEq, Eq, PartialOrd, Ord)]
pub struct Edge {
    low: Node,
    high: Node,
}

impl Model for Edge {
    ghost use Rattle.std.specs.Prelude.{ℕ, ◌<◌};

    ghost Value = { ℕ × ℕ };

    ghost view = { λ e. (e.low, e.high) };

    ghost invariant = { λ e. e.low < e.high };

    ghost inverse = { λ p. record { low = p.0; high = p.1 } };
}

impl Edge {
    /// The edge between two nodes; `None` if they are the same.
    pub fn new(a: Node, b: Node) -> Option<Edge>
        ensures { SomeIff result (a ≢ b) (min a b, max a b) }
    {
        if a < b {
            Some(Edge { low: a, high: b })
        } else if b < a {
            Some(Edge { low: b, high: a })
        } else {
            None
        }
    }

    /// The end with the lower name.
    pub fn low(self) -> Node
        ensures value { result ≡ self.0 }
        ensures below { self.0 < self.1 }
    {
        self.low
    }

    /// The end with the higher name.
    pub fn high(self) -> Node
        ensures value { result ≡ self.1 }
        ensures above { self.0 < self.1 }
    {
        self.high
    }
}
