//! Updates the set of enabled nodes after a change of the network.

ghost use Rattle.std.specs.Prelude.{◌≡◌, ◌+◌, ◌||◌, false, length, nat_eq, IsTrue};
ghost use Rattle.enabled_set.specs.RemovedNames.{KeepsNotes};
ghost use Rattle.rule_machine.specs.Network.{present};
ghost use Rattle.rule_engine.specs.EngineStates.{AreOn};
ghost use Rattle.rule_engine.specs.DerivedValues.{WereOn};
ghost use Rattle.rule_engine.specs.GuardRefresh.{IsRefreshed};
ghost use Rattle.suitor_index.specs.TurnedGuards.{TurnsNone};

use crate::look::{look_after_write, look_at, look_at_target};
use enabled_set::{EnabledSet, Removals};
use net_state::Change;
use rule_machine::{Node, Rules};
use suitor_index::IndexedNet;

fn look_at_ends<R: Rules>(
    state: &IndexedNet<'_, R>,
    enabled: &mut EnabledSet,
    removals: &mut Removals,
    a: Node,
    b: Node,
)
    requires has_a { IsTrue (present state.now.state.network a) }
    requires has_b { IsTrue (present state.now.state.network b) }
    requires places { length enabled.old ≡ state.now.state.network.size + 1 }
    ensures set { IsRefreshed R.table state.now.state (λ w. nat_eq w a || nat_eq w b) enabled.old enabled.new }
    ensures noted { KeepsNotes enabled.old removals.old enabled.new removals.new }
{
    look_at(state, enabled, removals, a);
    look_at(state, enabled, removals, b);
}

/// Evaluates guards again at the nodes whose guard the change may have changed.
///
/// `turned` is what `Suitors::follow` returned: whether a neighbour's guard may have turned with the node.
///
/// Cost: if `turned` is `false`, at a write no neighbour's guard is read but of those that point at the node.
#[inline(always)]
pub(crate) fn refresh<R: Rules>(
    state: &IndexedNet<'_, R>,
    enabled: &mut EnabledSet,
    removals: &mut Removals,
    change: Change,
    turned: bool,
)
    requires told { WereOn R.table enabled.old change state.now }
    requires none { turned ≡ false → TurnsNone R.COURTS_HIGHER_ONLY R.table.opens state.now.state change }
    ensures set { AreOn R.table state.now.state enabled.new }
    ensures noted { KeepsNotes enabled.old removals.old enabled.new removals.new }
{
    match change {
        Change::Pointed(v, was, is) => {
            look_at_target(state, enabled, removals, was);
            look_at_target(state, enabled, removals, is);
            look_after_write(state, enabled, removals, v, turned);
        }
        Change::Flagged(v, ..) => look_after_write(state, enabled, removals, v, turned),
        Change::Linked(a, b) => look_at_ends(state, enabled, removals, a, b),
        Change::Unlinked(a, b) => look_at_ends(state, enabled, removals, a, b),
        Change::Joined(v) => look_at(state, enabled, removals, v),
        Change::Removed(v) => enabled.remove_noted(v, removals),
    }
}
