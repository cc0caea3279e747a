//! Looks at names, which keep the set of enabled nodes.

ghost use Rattle.std.specs.Prelude.{◌≡◌, ◌<◌, ℕ, Bool, List, false, length, slice_set};
ghost use Rattle.enabled_set.specs.Members.{is_in};
ghost use Rattle.enabled_set.specs.RemovedNames.{KeepsNotes};
ghost use Rattle.rule_machine.specs.Tables.{table_of};
ghost use Rattle.judged_rounds.specs.Following.{AreOnBut};
ghost use Rattle.reply_checker.specs.Witnesses.{RestsOn, is_on};

use enabled_set::{EnabledSet, Marks, Removals};
use reply_checker::{Judge, Witness, is_enabled};
use rule_machine::{Node, RuleSet};

fn is_on(judge: &Judge, rules: RuleSet, v: Node, witness: &mut Witness) -> bool
    ensures value { result ≡ is_on (table_of rules) judge.now v }
    ensures rests { RestsOn (table_of rules) judge.now v witness.new.node }
{
    let net = judge.net();
    net.has(v) && is_enabled(net, rules, v, witness)
}

/// Puts `v` into the set or removes it, and notes it if it leaves the set.
fn set_enabled(enabled: &mut EnabledSet, removals: &mut Removals, v: Node, on: bool)
    requires { v < length enabled.old }
    ensures set { enabled.new ≡ slice_set enabled.old v on }
    ensures noted { KeepsNotes enabled.old removals.old enabled.new removals.new }
{
    if on {
        enabled.insert(v);
    } else {
        enabled.remove_noted(v, removals);
    }
}

/// Looks at all marked names, unmarks them, and notes those that leave the set.
pub(crate) fn look_again(
    enabled: &mut EnabledSet,
    removals: &mut Removals,
    due: &mut Marks,
    witnesses: &mut [Witness],
    judge: &Judge,
    rules: RuleSet,
)
    requires due_places { length enabled.old ≡ length due.old }
    requires witness_places { length enabled.old ≡ length witnesses.old }
    ensures on { AreOnBut (table_of rules) judge.now enabled.old due.old witnesses.old → AreOnBut (table_of rules) judge.now enabled.new due.new witnesses.new }
    ensures noted { KeepsNotes enabled.old removals.old enabled.new removals.new }
    ensures none { (v : ℕ) → is_in due.new v ≡ false }
    ensures places { (length enabled.new ≡ length enabled.old) × (length due.new ≡ length due.old) }
    ensures witness_places { length witnesses.new ≡ length witnesses.old }
{
    while let Some(v) = due.take() {
        let on = is_on(judge, rules, v, &mut witnesses[v.place()]);
        set_enabled(enabled, removals, v, on);
    }
}
