//! Nodes at rest.

ghost use Rattle.std.specs.Prelude.{◌≡◌, IsTrue};
ghost use Rattle.rule_machine.specs.Network as network;
ghost use Rattle.rule_machine.specs.State as state;
ghost use Rattle.containment_laws.specs.Rest as of;

use net_state::NetState;
use rule_machine::Node;

fn is_surrounded(net: &NetState, v: Node) -> bool
    requires { IsTrue (network.present net.now.state.network v) }
    ensures { result ≡ of.is_surrounded net.now.state v }
{
    for &w in net.neighbours(v) {
        if !net.married(w) {
            return false;
        }
    }
    true
}

#[tactic(auto, using(crate::proofs::AbsentNames::absent_unmarried))]
pub(crate) fn is_married(net: &NetState, v: Node) -> bool
    ensures { result ≡ state.married net.now.state v }
{
    // Gives the prover `IsState`.
    let _ = net.registers();
    if !net.has(v) {
        return false;
    }
    net.married(v)
}

/// Whether a node is at rest; true if the node is absent.
///
/// A node is at rest if its flag is right (if flags are used), and it is married, or its pointer is null and
/// each of its neighbours is married.
///
/// Cost: a pass over the neighbours if the node's pointer is null, else a few looks.
#[tactic(auto, using(crate::proofs::AbsentNames::absent_at_rest))]
pub fn is_at_rest(net: &NetState, uses_flags: bool, v: Node) -> bool
    ensures { result ≡ of.is_at_rest uses_flags net.now.state v }
{
    let _ = net.registers();
    if !net.has(v) {
        return true;
    }
    let married = net.married(v);
    if uses_flags && net.flag(v) != married {
        return false;
    }
    married || (net.pointer(v).is_none() && is_surrounded(net, v))
}
