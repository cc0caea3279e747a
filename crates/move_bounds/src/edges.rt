//! What a new edge costs, and what the removal of one does, whatever the rules.

ghost use Rattle.std.specs.Prelude.{◌≡◌, ◌≤◌, ◌+◌, ◌*◌, ◌&&◌, IsTrue, cond, not};
ghost use Rattle.rule_machine.specs.Network.{present};
ghost use Rattle.rule_machine.specs.State.{IsState, is_mutual, married};
ghost use Rattle.silence_laws.specs.Costs.{single_neighbours};

use crate::unmarried_neighbours;
use net_state::NetState;
use rule_machine::Node;

/// `most` for a new edge between unmarried nodes, else 0.
pub fn link_cost(net: &NetState, a: Node, b: Node, most: u32) -> u32
    requires state { IsState net.now.state }
    requires first { IsTrue (present net.now.state.network a) }
    requires second { IsTrue (present net.now.state.network b) }
    ensures { let s = net.now.state in result ≡ cond (not (married s a) && not (married s b)) most 0 }
{
    if net.married(a) || net.married(b) {
        0
    } else {
        most
    }
}

/// For the edge of a pair 2 for each unmarried neighbour of both nodes, and `more`; else 0.
pub fn unlink_cost(net: &NetState, a: Node, b: Node, more: u32) -> u32
    requires state { IsState net.now.state }
    requires first { IsTrue (present net.now.state.network a) }
    requires second { IsTrue (present net.now.state.network b) }
    requires little { more ≤ 65535 }
    ensures { let s = net.now.state in result ≡ cond (is_mutual s a b) (2 * (single_neighbours s a + single_neighbours s b) + more) 0 }
{
    if net.points(a, b) && net.points(b, a) {
        2 * (unmarried_neighbours(net, a) + unmarried_neighbours(net, b)) + more
    } else {
        0
    }
}
