//! The counts of a network's nodes.

ghost use Rattle.std.specs.Prelude.{◌≡◌, ◌≤◌, ℕ, IfOk};
ghost use Rattle.net_state.specs.StateViews.{StateView};
ghost use Rattle.rule_machine.specs.State.{opening_with};

use crate::tally::{Tally, lone_tally};
use net_state::Observer;
use rule_machine::{Rules, Want};
use std::alloc::Global;
use std::marker::PhantomData;

/// Each node's suitors and open neighbours, counted by the rules `R`.
#[derive(Drop)]
pub struct Suitors<R: Rules> {
    pub(crate) tallies: Vec<Tally>,
    rules: PhantomData<R>,
}

impl<R: Rules> Suitors<R> {
    /// The counts of a network without edges. Takes eight bytes a name; fails only if memory runs out.
    pub fn new(alloc: Global, nodes: u32) -> Result<Suitors<R>, Want>
        requires { nodes ≤ 65535 }
        ensures { IfOk result (λ it. (net : StateView) (count : ℕ) → net.state ≡ opening_with nodes count → ⟦<Suitors<R> as Observer>⟧.fits net it) }
    {
        let tallies = vec![in alloc; lone_tally(None); nodes as usize + 1]?;
        Ok(Suitors {
            tallies,
            rules: PhantomData,
        })
    }
}
