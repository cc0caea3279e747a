//! Bounds on moves and on rounds that depend on the number of nodes alone.

ghost use Rattle.std.specs.Prelude.{◌≡◌, ℕ, ◌≤◌, Option};
ghost use Rattle.move_bounds.specs.MovesLeft.{BoundsByNodes};
ghost use Rattle.move_bounds.specs.RoundsLeft.{BoundsRoundsByNodes};

use rule_machine::Rules;

/// A rule set's bounds that depend on the number of nodes alone: on rounds, and on moves if one is known.
pub trait NodeBound: Rules {
    ghost most: { ℕ → Option ℕ };

    ghost rounds: { ℕ → ℕ };

    /// A bound on the moves of this many nodes between two disturbances.
    ///
    /// The bound holds for any edges, any state and any daemon. `None` if no such bound is known.
    fn most_moves(nodes: u32) -> Option<u32>
        requires few { nodes ≤ 65535 }
        ensures { result ≡ most nodes };

    /// A bound on the rounds that this many nodes complete between two disturbances.
    ///
    /// The bound holds for any edges, any state and any daemon.
    fn most_rounds(nodes: u32) -> u32
        requires few { nodes ≤ 65535 }
        ensures { result ≡ rounds nodes };

    /// No run without a disturbance has more moves than `most` of its number of nodes.
    ghost bounds_moves: { BoundsByNodes Self.table most };

    /// No run without a disturbance completes more rounds than `rounds` of its number of nodes.
    ghost bounds_rounds: { BoundsRoundsByNodes Self.table rounds };
}
