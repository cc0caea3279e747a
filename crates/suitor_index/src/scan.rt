//! Scans of a node's neighbours.

ghost use Rattle.std.specs.Prelude.{◌≡◌, ◌&&◌, All, find, nat_lt, reverse, IsTrue};
ghost use Rattle.rule_machine.specs.Network.{present};
ghost use Rattle.rule_machine.specs.State.{points, pointer, flag};

use crate::IndexedNet;
use rule_machine::{Node, Rules};

pub(crate) fn first_pointing_at<R: Rules>(
    nodes: &[Node],
    net: &IndexedNet<'_, R>,
    v: Node,
) -> Option<Node>
    requires present { All (λ w. IsTrue (present net.now.state.network w)) nodes.now }
    ensures { result ≡ find (λ w. points net.now.state.registers w v) nodes.now }
{
    for &w in nodes {
        if net.points(w, v) {
            return Some(w);
        }
    }
    None
}

pub(crate) fn first_open<R: Rules>(nodes: &[Node], net: &IndexedNet<'_, R>) -> Option<Node>
    requires present { All (λ w. IsTrue (present net.now.state.network w)) nodes.now }
    ensures { result ≡ find (λ w. R.table.opens (pointer net.now.state w) (flag net.now.state w)) nodes.now }
{
    for &w in nodes {
        if net.is_open_at(w) {
            return Some(w);
        }
    }
    None
}

/// The last of these nodes that is open and above `v`.
pub(crate) fn last_open_above<R: Rules>(
    nodes: &[Node],
    net: &IndexedNet<'_, R>,
    v: Node,
) -> Option<Node>
    requires present { All (λ w. IsTrue (present net.now.state.network w)) nodes.now }
    ensures { result ≡ find (λ w. R.table.opens (pointer net.now.state w) (flag net.now.state w) && nat_lt v w) (reverse nodes.now) }
{
    for place in (0..nodes.len()).rev() {
        let w = nodes[place];
        if w > v && net.is_open_at(w) {
            return Some(w);
        }
    }
    None
}
