//! The values that are derived from a given state.

ghost use Rattle.std.specs.Prelude.{IfOk};
ghost use Rattle.rule_engine.specs.EngineStates.{AreOn};

use crate::Derived;
use crate::guard::rule_enabled;
use enabled_set::{EnabledSet, Removals};
use net_state::{NetState, Observer};
use net_totals::Contributions;
use rule_machine::{Node, Rules, Want};
use std::alloc::Global;
use suitor_index::{IndexedNet, Suitors};

/// The set of enabled nodes. Evaluates the guard of each node once.
fn enabled_of<R: Rules>(alloc: Global, state: &IndexedNet<'_, R>) -> Result<EnabledSet, Want>
    ensures { IfOk result (λ set. AreOn R.table state.now.state set) }
{
    let capacity = state.net().capacity();
    let mut enabled = EnabledSet::new(alloc, capacity)?;
    for below in 0..capacity {
        let v = Node::new(below + 1).unwrap();
        if rule_enabled(state, v).is_some() {
            enabled.insert(v);
        }
    }
    Ok(enabled)
}

impl<R: Rules> Derived<R> {
    /// The values for a state; all contributions are stale.
    ///
    /// Cost: one pass over the neighbours of each node, and a guard a node.
    pub(crate) fn of(alloc: Global, net: &NetState) -> Result<Derived<R>, Want>
        ensures { IfOk result (λ it. ⟦<Derived<R> as Observer>⟧.fits net.now it) }
    {
        // Gives the prover `IsState`.
        let nodes = net.capacity();
        let suitors = Suitors::of(alloc, net)?;
        let contributions = Contributions::new(alloc, nodes)?;
        let enabled = enabled_of(alloc, &IndexedNet::new(net, &suitors))?;
        Ok(Derived {
            suitors,
            contributions,
            enabled,
            removals: Removals::without_room(alloc),
        })
    }
}
