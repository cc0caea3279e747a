//! A node's stance on its edges.

ghost use Rattle.std.specs.Prelude.{◌≡◌};
ghost use Rattle.net_state.specs.EdgeStances.{are_open};

/// A node's stance on its edges.
#[derive(Clone, Copy, PartialEq, Eq)]
pub enum EdgeStance {
    /// No edge at the node is open.
    Shut,
    /// An edge at the node is open if the edge's other end is `Free`.
    Courted,
    /// An edge at the node is open unless the edge's other end is `Shut`.
    Free,
}

impl EdgeStance {
    /// Whether an edge is open if its ends have these two stances.
    #[inline(always)]
    pub fn is_open_to(self, other: EdgeStance) -> bool
        ensures { result ≡ are_open self other }
    {
        (self != EdgeStance::Shut)
            & (other != EdgeStance::Shut)
            & ((self != EdgeStance::Courted) | (other != EdgeStance::Courted))
    }
}
