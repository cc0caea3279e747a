//! The bound on rounds that depends on the number of nodes alone. No such bound on moves is known.

use crate::Manne;
use move_bounds::NodeBound;

impl NodeBound for Manne {
    ghost use Rattle.std.specs.Prelude.{None, ◌+◌, ◌*◌, ◌/◌};
    ghost use Rattle.rules_manne.specs.NodeBound.{manne_rounds, unbounded_by_nodes};

    ghost most = { λ n. None };

    fn most_moves(_nodes: u32) -> Option<u32> {
        None
    }

    ghost bounds_moves = { unbounded_by_nodes };

    ghost rounds = { λ n. n + 2 * (n / 2) };

    fn most_rounds(nodes: u32) -> u32 {
        nodes + 2 * (nodes / 2)
    }

    ghost bounds_rounds = { manne_rounds };
}
