//! How many neighbours of a node are unmarried.

ghost use Rattle.std.specs.Prelude.{◌≡◌, ◌≤◌, IsTrue};
ghost use Rattle.rule_machine.specs.Network.{present};
ghost use Rattle.silence_laws.specs.Costs.{is_single_but, single_neighbours, single_neighbours_but};

use net_state::NetState;
use rule_machine::Node;

fn is_unmarried_but(net: &NetState, but: &Option<Node>, w: Node) -> bool
    requires { IsTrue (present net.now.state.network w) }
    ensures { result ≡ is_single_but net.now.state but.now w }
{
    if net.married(w) {
        return false;
    }
    match but {
        Some(target) => *target != w,
        None => true,
    }
}

/// How many neighbours of a node are unmarried and not `but`: at most 65,535. Looks at each neighbour.
pub fn unmarried_neighbours_but(net: &NetState, v: Node, but: &Option<Node>) -> u32
    requires { IsTrue (present net.now.state.network v) }
    ensures count { result ≡ single_neighbours_but net.now.state v but.now }
    ensures few { result ≤ 65535 }
{
    // For the prover: the contract of `capacity` says that there are at most 65,535 names.
    let _ = net.capacity();
    let mut count: u32 = 0;
    for &w in net.neighbours(v) {
        count += u32::from(is_unmarried_but(net, but, w));
    }
    count
}

/// How many neighbours of a node are unmarried: at most 65,535. Looks at each neighbour.
#[tactic(auto, using(crate::specs::Unmarried::without_exception))]
pub fn unmarried_neighbours(net: &NetState, v: Node) -> u32
    requires { IsTrue (present net.now.state.network v) }
    ensures count { result ≡ single_neighbours net.now.state v }
    ensures few { result ≤ 65535 }
{
    unmarried_neighbours_but(net, v, &None)
}
