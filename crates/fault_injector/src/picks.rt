//! What a word picks.

ghost use Rattle.std.specs.Prelude.{◌≡◌, ◌<◌, IsTrue, None, slice_index};
ghost use Rattle.rule_machine.specs.Network.{names, node_count, present};
ghost use Rattle.rule_machine.specs.Refuse.{point_refusal};
ghost use Rattle.fault_injector.specs.DrawnFaults.{node_at, drawn_target};

use graph_store::EdgeStore;
use rule_machine::Node;

/// Looks at 24 counts and eight words at most, and at none of them if every name is a node.
fn nth_node(store: &EdgeStore, place: u32) -> Node
    requires { place < node_count store.now.network }
    ensures { result ≡ slice_index (names store.now.network) place }
{
    if store.nodes() == store.capacity() {
        return Node::new(place + 1).unwrap();
    }
    store.nth(place).unwrap()
}

pub(crate) fn pick_node(store: &EdgeStore, word: u32) -> Node
    requires { 0 < node_count store.now.network }
    ensures node { result ≡ node_at store.now.network word }
    ensures present { IsTrue (present store.now.network result) }
{
    nth_node(store, word % store.nodes())
}

/// Looks at one neighbour.
pub(crate) fn pick_target(store: &EdgeStore, node: Node, word: u32) -> Option<Node>
    requires { IsTrue (present store.now.network node) }
    ensures target { result ≡ drawn_target store.now.network node word }
    ensures accepted { point_refusal store.now.network node result ≡ None }
{
    let neighbours = store.neighbours(node);
    let place = word as usize % (neighbours.len() + 1);
    if place == 0 {
        return None;
    }
    Some(neighbours[place - 1])
}
