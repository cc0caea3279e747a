//! The most moves that one disturbance of a silent network can cause.

ghost use Rattle.std.specs.Prelude.{◌≡◌, ℕ, None};
ghost use Rattle.rule_machine.specs.declared.event.Event.{Event};
ghost use Rattle.rule_machine.specs.Refuse.{refusal_of};
ghost use Rattle.rule_machine.specs.State.{State, IsState};
ghost use Rattle.move_bounds.specs.FromSilence.{ExceedsAtMost, PaysFromSilence};

use net_state::NetState;
use rule_machine::{Event, Rules};

/// Rules that bound the moves after one disturbance of a silent network.
pub trait SilentCost: Rules {
    /// What `silent_cost` returns, on a state.
    ghost silent_cost: { State → Event → ℕ };

    /// By how much the silent cost may exceed `cost`, on a state.
    ghost excess: { State → Event → ℕ };

    /// The most moves that can come after an accepted event of a silent network; 0 if it is no disturbance.
    /// Looks at each neighbour of at most two nodes.
    fn silent_cost(net: &NetState, event: &Event) -> u32
        requires state { IsState net.now.state }
        requires accepted { refusal_of Self.table net.now.state event.now ≡ None }
        ensures { result ≡ silent_cost net.now.state event.now };

    /// In a silent network, at most `silent_cost` moves come between the event and the next disturbance.
    ghost silent_cost_pays: { PaysFromSilence Self.table silent_cost };

    /// In a silent network, `silent_cost` exceeds `cost` by at most `excess`.
    ghost silent_cost_is_less: { ExceedsAtMost Self.table silent_cost Self.cost excess };
}
