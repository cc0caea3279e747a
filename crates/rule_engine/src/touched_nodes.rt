//! What a disturbance would cost.

ghost use Rattle.std.specs.Prelude.{◌≡◌};
ghost use Rattle.rule_engine.specs.Costs.{BoundsGrowth, disturbs, disturbance_cost};

use crate::Net;
use crate::edits::{refused_flag, refused_join, refused_leave, refused_point};
use rule_machine::{Event, Local, Node, Rules, Touched};
use suitor_index::IndexedNet;

#[derive(Drop)]
struct TouchedNodes<'a, R: Rules> {
    state: &'a IndexedNet<'a, R>,
}

impl<R: Rules> Touched for TouchedNodes<'_, R> {
    ghost state = { λ t. t.state.now.state };

    fn pointer(&self, v: Node) -> Option<Node> {
        let state = self.state;
        // Called only for the contract: the state is sound.
        let _ = state.store();
        state.registers().pointer(v)
    }

    #[tactic(auto, using(net_state::proofs::EdgeCounts::few_neighbours))]
    fn degree(&self, v: Node) -> u32 {
        let state = self.state;
        state.store().neighbours(v).len() as u32
    }

    fn has_suitor(&self, v: Node) -> bool {
        let state = self.state;
        state.at(v).has_suitor()
    }
}

pub(crate) fn is_disturbance<R: Rules>(state: &IndexedNet<'_, R>, event: &Event) -> bool
    ensures { result ≡ disturbs R.table state.now.state event.now }
{
    let store = state.store();
    match event {
        Event::Link(a, b) => store.link_fault(*a, *b).is_none(),
        Event::Unlink(a, b) => store.linked(*a, *b),
        Event::Point(v, target) => refused_point(store, *v, *target).is_none(),
        Event::Flag(v, _) => refused_flag::<R>(store, *v).is_none(),
        Event::Join(v) => refused_join(store, *v).is_none(),
        Event::Leave(v) => refused_leave(store, *v).is_none(),
        Event::Step(_) | Event::Show(_) => false,
        Event::Enabled | Event::Matching | Event::Status => false,
    }
}

impl<R: Rules> Net<R> {
    /// The most that an event, carried out now, would add to the charge, in moves.
    /// It bounds the growth of the charge, not the moves that follow: those may also use up charge that is
    /// there already. Nothing changes.
    /// 0 for a step, for a query, and for an event that would be refused.
    /// Reads pointers and counts of the nodes that the event touches, whatever the size of the network.
    #[tactic(auto, using(crate::proofs::EventCosts::not_refused))]
    pub fn cost_of(&self, event: &Event) -> u32
        ensures cost { result ≡ disturbance_cost R.table R.cost self.now.state event.now }
        ensures grows { BoundsGrowth R.table self.now.state self.now.spent event.now result }
    {
        let state = self.index();
        if is_disturbance(&state, event) {
            R::cost(&TouchedNodes { state: &state }, event)
        } else {
            0
        }
    }
}
