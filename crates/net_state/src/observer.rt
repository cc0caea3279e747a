//! The trait of values that depend on a state and follow its changes.

ghost use Rattle.std.specs.Prelude.{List, Bool};
ghost use Rattle.net_state.specs.StateViews.{StateView};
ghost use Rattle.net_state.specs.Changes.{IsChange};

use crate::{Change, NetState};

/// A value that depends on a state, and is updated after each change of it.
pub trait Observer {
    /// The value is right for the state.
    ghost fits: { StateView → Self → Type 0 };

    /// A property of the value that each change keeps, for each list of names (as booleans, one for each name).
    ghost stays: { List Bool → Self → Type 0 };

    /// Updates the value after a change. Before the change the value was right. Takes no memory.
    fn saw(&mut self, net: &NetState, change: Change)
        requires { (before : StateView) × (IsChange before change net.now × fits before self.old) }
        ensures fits { fits net.now self.new }
        ensures stays { (names : List Bool) → stays names self.old → stays names self.new };
}

/// Observes nothing.
impl Observer for () {
    ghost fits = { λ net it. Unit {0} };

    ghost stays = { λ names it. Unit {0} };

    #[inline(always)]
    fn saw(&mut self, net: &NetState, change: Change) {}
}
