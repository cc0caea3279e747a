//! The source of register faults.

ghost use Rattle.std.specs.Prelude.{◌≡◌, ◌<◌, ◌↔◌, IfSome, IsNone, IsTrue, None};
ghost use Rattle.rule_machine.specs.Network.{node_count};
ghost use Rattle.rule_machine.specs.Refuse.{refusal_of};
ghost use Rattle.fault_injector.specs.DrawnFaults.{fault_drawn, behind, fault_words, is_register_fault};

use crate::picks::{pick_node, pick_target};
use rand_core::Rng;
use rule_engine::Net;
use rule_machine::{Event, Rules};
use std::marker::Model;

/// Draws faults of registers from the words of a generator; the same words give the same faults.
/// Contracts see the generator.
#[derive(Drop)]
pub struct Injector<G: Rng> {
    generator: G,
}

impl<G: Rng> Model for Injector<G> {
    ghost Value = { G };

    ghost view = { λ i. i.generator };
}

impl<G: Rng> Injector<G> {
    /// An injector that takes its words from this generator. Takes no memory.
    pub fn new(generator: G) -> Injector<G>
        ensures { result ≡ generator }
    {
        Injector { generator }
    }

    /// A fault of a register that the network accepts; `None` exactly if the network has no node.
    /// Takes no word if there is no node; otherwise takes three words if the rules use flags, and two if
    /// not. Takes no memory, and looks at one neighbour at most.
    ///
    /// The words come from `next_u32`:
    ///
    /// - The first word picks the node: of the n nodes, ascending, the one at index `word mod n`, from 0.
    /// - If the rules use flags, the next word picks the register: the flag if odd, the pointer if even.
    /// - The last word picks the value. A flag becomes true if the word is odd. A pointer of a node with d
    ///   neighbours becomes null if `word mod (d + 1)` is 0; otherwise it gets the neighbour with that
    ///   number, from 1, names ascending.
    pub fn draw<R: Rules>(&mut self, net: &Net<R>) -> Option<Event>
        ensures event { (result, G.stream self.new) ≡ fault_drawn net.now.state.network R.table.flags (G.stream self.old) }
        ensures none { IsNone result ↔ (node_count net.now.state.network ≡ 0) }
        ensures unused { node_count net.now.state.network ≡ 0 → G.stream self.new ≡ G.stream self.old }
        ensures words { 0 < node_count net.now.state.network → G.stream self.new ≡ behind (fault_words R.table.flags) (G.stream self.old) }
        ensures register { IfSome result (λ event. IsTrue (is_register_fault event)) }
        ensures accepted { IfSome result (λ event. refusal_of R.table net.now.state event ≡ None) }
    {
        let store = net.store();
        if store.nodes() == 0 {
            return None;
        }
        let node = pick_node(store, self.generator.next_u32());
        if R::FLAGS && self.generator.next_u32() % 2 == 1 {
            return Some(Event::Flag(node, self.generator.next_u32() % 2 == 1));
        }
        Some(Event::Point(node, pick_target(store, node, self.generator.next_u32())))
    }
}
