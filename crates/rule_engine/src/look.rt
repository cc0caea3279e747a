//! Evaluates guards again at nodes near a change.

ghost use Rattle.std.specs.Prelude.{◌≡◌, ◌+◌, ◌&&◌, IfSome, IsTrue, length, nat_eq};
ghost use Rattle.enabled_set.specs.RemovedNames.{KeepsNotes};
ghost use Rattle.rule_machine.specs.Network.{linked, present};
ghost use Rattle.rule_machine.specs.RuleTable as RuleTable;
ghost use Rattle.rule_engine.specs.GuardRefresh.{is_null_target, is_suitor, may_change_guard, IsRefreshed};
ghost use Rattle.suitor_index.specs.TurnedGuards.{may_turn};

use crate::guard::rule_at;
use enabled_set::{EnabledSet, Removals};
use rule_machine::{Local, Node, Rules, asks_for};
use suitor_index::IndexedNet;

pub(crate) fn look_at<R: Rules>(
    state: &IndexedNet<'_, R>,
    enabled: &mut EnabledSet,
    removals: &mut Removals,
    v: Node,
)
    requires has { IsTrue (present state.now.state.network v) }
    requires places { length enabled.old ≡ state.now.state.network.size + 1 }
    ensures set { IsRefreshed R.table state.now.state (λ w. nat_eq w v) enabled.old enabled.new }
    ensures noted { KeepsNotes enabled.old removals.old enabled.new removals.new }
{
    if rule_at(state, v).is_some() {
        enabled.insert(v);
    } else {
        enabled.remove_noted(v, removals);
    }
}

fn look_if<R: Rules>(
    state: &IndexedNet<'_, R>,
    enabled: &mut EnabledSet,
    removals: &mut Removals,
    v: Node,
    asked: bool,
)
    requires has { IsTrue (present state.now.state.network v) }
    requires places { length enabled.old ≡ state.now.state.network.size + 1 }
    ensures set { IsRefreshed R.table state.now.state (λ w. nat_eq w v && asked) enabled.old enabled.new }
    ensures noted { KeepsNotes enabled.old removals.old enabled.new removals.new }
{
    if asked {
        look_at(state, enabled, removals, v);
    }
}

/// Evaluates the guard of a pointer's old or new target again, if that target points nowhere.
pub(crate) fn look_at_target<R: Rules>(
    state: &IndexedNet<'_, R>,
    enabled: &mut EnabledSet,
    removals: &mut Removals,
    target: Option<Node>,
)
    requires has { IfSome target (λ w. IsTrue (present state.now.state.network w)) }
    requires places { length enabled.old ≡ state.now.state.network.size + 1 }
    ensures set { IsRefreshed R.table state.now.state (is_null_target state.now.state target) enabled.old enabled.new }
    ensures noted { KeepsNotes enabled.old removals.old enabled.new removals.new }
{
    if let Some(w) = target {
        look_if(state, enabled, removals, w, state.has_null(w));
    }
}

/// Searches only if several neighbours point at `v`.
fn look_at_suitors<R: Rules>(
    state: &IndexedNet<'_, R>,
    enabled: &mut EnabledSet,
    removals: &mut Removals,
    v: Node,
)
    requires has { IsTrue (present state.now.state.network v) }
    requires places { length enabled.old ≡ state.now.state.network.size + 1 }
    ensures set { IsRefreshed R.table state.now.state (is_suitor state.now.state v) enabled.old enabled.new }
    ensures noted { KeepsNotes enabled.old removals.old enabled.new removals.new }
{
    if let Some(w) = state.lone_suitor(v) {
        return look_at(state, enabled, removals, w);
    }
    let neighbours = state.store().neighbours(v);
    if !state.at(v).has_suitor() {
        return;
    }
    for &w in neighbours {
        look_if(state, enabled, removals, w, state.points(w, v));
    }
}

/// Evaluates guards again at neighbours that point nowhere and see an open node exactly if `v` is open.
/// If guards ask for higher names only, stops at the first neighbour that is not below `v`.
fn look_where_turned<R: Rules>(
    state: &IndexedNet<'_, R>,
    enabled: &mut EnabledSet,
    removals: &mut Removals,
    v: Node,
)
    requires has { IsTrue (present state.now.state.network v) }
    requires places { length enabled.old ≡ state.now.state.network.size + 1 }
    ensures set { IsRefreshed R.table state.now.state (may_turn R.COURTS_HIGHER_ONLY R.table.opens state.now.state v) enabled.old enabled.new }
    ensures noted { KeepsNotes enabled.old removals.old enabled.new removals.new }
{
    let is_open = state.is_open_at(v);
    for &w in state.store().neighbours(v) {
        if !asks_for::<R>(w, v) {
            return;
        }
        look_if(
            state,
            enabled,
            removals,
            w,
            state.is_turned_by(w, v, is_open),
        );
    }
}

/// Evaluates guards again at the nodes whose guard a write of `v`'s registers may have changed.
/// These nodes are `v`, each node that points at `v`, and, if `turned`, each neighbour that points nowhere
/// and sees no open node except `v`.
/// Does not look at the old and new target of the pointer: `look_at_target` does.
pub(crate) fn look_after_write<R: Rules>(
    state: &IndexedNet<'_, R>,
    enabled: &mut EnabledSet,
    removals: &mut Removals,
    v: Node,
    turned: bool,
)
    requires has { IsTrue (present state.now.state.network v) }
    requires places { length enabled.old ≡ state.now.state.network.size + 1 }
    ensures set { IsRefreshed R.table state.now.state (may_change_guard R.COURTS_HIGHER_ONLY R.table.opens state.now.state v turned) enabled.old enabled.new }
    ensures noted { KeepsNotes enabled.old removals.old enabled.new removals.new }
{
    look_at(state, enabled, removals, v);
    look_at_suitors(state, enabled, removals, v);
    if turned {
        look_where_turned(state, enabled, removals, v);
    }
}
