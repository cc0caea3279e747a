//! What one disturbance of a silent network would cost.

ghost use Rattle.std.specs.Prelude.{◌≡◌, ◌≤◌, ◌+◌, ◌↔◌, [], IfSome, IsSome};
ghost use Rattle.rule_machine.specs.RuleTable.{enabled_names};
ghost use Rattle.rule_engine.specs.Costs.{disturbance_cost};
ghost use Rattle.move_bounds.specs.FromSilence.{BoundsMovesAfter};

use crate::Net;
use crate::touched_nodes::is_disturbance;
use move_bounds::SilentCost;
use rule_machine::Event;
use suitor_index::IndexedNet;

#[tactic(auto, using(crate::proofs::EventCosts::not_refused))]
fn silent_cost_of<R: SilentCost>(state: &IndexedNet<'_, R>, event: &Event) -> u32
    ensures { result ≡ disturbance_cost R.table R.silent_cost state.now.state event.now }
{
    // Called only for the contract: the state is sound.
    let _ = state.registers();
    if is_disturbance(state, event) {
        R::silent_cost(state.net(), event)
    } else {
        0
    }
}

impl<R: SilentCost> Net<R> {
    /// The most moves that an event can cause in a silent network; `None` if a rule is enabled.
    /// Counts the moves until the network is silent again, if no other disturbance comes.
    /// 0 for an event that would be refused, for a step and for a query.
    /// Under Hsu and Huang's rules the result is at most `cost_of`. Under the rules of Manne and others the
    /// result is at most `cost_of`, plus 2 if a new pair may form, plus 1 for `Leave`. The reason: `cost_of`
    /// bounds the growth of the charge, and the charge of a silent network need not be 0.
    /// Looks at each neighbour of at most two nodes. Takes no memory. Nothing changes.
    pub fn silent_cost_of(&self, event: &Event) -> Option<u32>
        ensures silent { IsSome result ↔ (enabled_names R.table self.now.state ≡ []) }
        ensures cost { IfSome result (λ most. most ≡ disturbance_cost R.table R.silent_cost self.now.state event.now) }
        ensures pays { IfSome result (λ most. BoundsMovesAfter R.table self.now.state self.now.spent event.now most) }
        ensures less { IfSome result (λ most. most ≤ disturbance_cost R.table R.cost self.now.state event.now + disturbance_cost R.table R.excess self.now.state event.now) }
    {
        if self.is_quiet() {
            Some(silent_cost_of(&self.index(), event))
        } else {
            None
        }
    }
}
