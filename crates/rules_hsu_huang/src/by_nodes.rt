//! The bounds on moves and rounds that depend on the number of nodes alone.

use crate::HsuHuang;
use move_bounds::NodeBound;

impl NodeBound for HsuHuang {
    ghost use Rattle.std.specs.Prelude.{Some};
    ghost use Rattle.dense_laws.specs.Bound.{dense_bound};
    ghost use Rattle.rules_hsu_huang.specs.NodeBound.{bounded_by_nodes, hsu_huang_rounds};

    ghost most = { λ n. Some (dense_bound n) };

    fn most_moves(nodes: u32) -> Option<u32> {
        let half = nodes * nodes / 2;
        Some((half + nodes).saturating_sub(2))
    }

    ghost bounds_moves = { bounded_by_nodes };

    ghost rounds = { λ n. n };

    fn most_rounds(nodes: u32) -> u32 {
        nodes
    }

    ghost bounds_rounds = { hsu_huang_rounds };
}
