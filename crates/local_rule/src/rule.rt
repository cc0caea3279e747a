//! The rule of one node.

ghost use Rattle.std.specs.Prelude.{◌≡◌, IfOk, IfErr, OnErr, OnOk, Some, IsSome, map};
ghost use Rattle.rule_machine.specs.State.{State};
ghost use Rattle.std.specs.Result.{result_ok};
ghost use Rattle.rule_machine.specs.RuleTable.{rule_at, least_target};
ghost use Rattle.rule_machine.specs.Target.{target_at};
ghost use Rattle.rule_machine.specs.Tables.{table_of};
ghost use Rattle.local_rule.specs.Faults.{first_fault};
ghost use Rattle.local_rule.specs.Moves.{move_at, may_move_at, move_from};
ghost use Rattle.local_rule.specs.Star.{star};
ghost use Rattle.local_rule.specs.Views.{ShowsAtNode, IsShown, IsNeverShown};

use crate::fault::{ViewFault, fault_of};
use crate::local_rules::LocalRules;
use crate::seen::{Seen, is_answered};
use crate::{AsRecord, LocalMove};
use rule_machine::{Act, BadTarget, Node, NodeRecord, RuleSet};
use rules_hsu_huang::HsuHuang;
use rules_manne::Manne;

fn move_from<T: AsRecord>(
    own: &NodeRecord,
    around: &[T],
    act: Act,
    target: Option<Node>,
) -> LocalMove
    ensures { result ≡ move_from own.now (map T.shows around.now) act target }
{
    let pointer = match act {
        Act::Update => own.target,
        Act::Marry | Act::Seduce => target,
        Act::Abandon => None,
    };
    let flag = match act {
        Act::Update => is_answered(own, around),
        Act::Marry | Act::Seduce | Act::Abandon => own.flagged,
    };
    LocalMove {
        act,
        target,
        pointer,
        flag,
    }
}

fn checked<T: AsRecord>(own: &NodeRecord, around: &[T]) -> Result<(), ViewFault>
    ensures ok { OnOk result (ShowsAtNode (star own.now (map T.shows around.now)) own.now (map T.shows around.now)) }
    ensures fault { IfErr result (λ why. first_fault own.now (map T.shows around.now) ≡ Some why) }
    ensures never { OnErr result (IsNeverShown own.now (map T.shows around.now)) }
{
    match fault_of(own, around) {
        Some(fault) => Err(fault),
        None => Ok(()),
    }
}

fn guard<R: LocalRules, T: AsRecord>(own: &NodeRecord, around: &[T]) -> Option<Act>
    requires shown { ShowsAtNode (star own.now (map T.shows around.now)) own.now (map T.shows around.now) }
    ensures { result ≡ rule_at R.table (star own.now (map T.shows around.now)) own.now.node }
{
    R::guard(&Seen::<R, T>::new(own, around), own.node)
}

fn target<R: LocalRules, T: AsRecord>(
    own: &NodeRecord,
    around: &[T],
    wish: Option<Node>,
) -> Result<Option<Node>, BadTarget>
    requires shown { ShowsAtNode (star own.now (map T.shows around.now)) own.now (map T.shows around.now) }
    requires enabled { IsSome (rule_at R.table (star own.now (map T.shows around.now)) own.now.node) }
    ensures { result_ok result ≡ target_at R.table (star own.now (map T.shows around.now)) own.now.node wish }
{
    R::target(&Seen::<R, T>::new(own, around), own.node, wish)
}

fn least<R: LocalRules, T: AsRecord>(own: &NodeRecord, around: &[T], act: Act) -> Option<Node>
    requires shown { ShowsAtNode (star own.now (map T.shows around.now)) own.now (map T.shows around.now) }
    requires enabled { rule_at R.table (star own.now (map T.shows around.now)) own.now.node ≡ Some act }
    ensures { result ≡ least_target R.table (star own.now (map T.shows around.now)) own.now.node act }
{
    match target::<R, T>(own, around, None) {
        Ok(target) => target,
        Err(_) => None,
    }
}

/// What the node does by its rule, to the least target; `None` if no rule is enabled.
///
/// The answer is the machine's in every state that shows this at the node. An error comes exactly if no
/// state does. `around` has the neighbours' records, ascending by name.
pub fn local_rule<R: LocalRules, T: AsRecord>(
    own: &NodeRecord,
    around: &[T],
) -> Result<Option<LocalMove>, ViewFault>
    ensures machine { IfOk result (λ answer. (s : State) → ShowsAtNode s own.now (map T.shows around.now) → answer ≡ move_at R.table s own.now.node) }
    ensures shown { OnOk result (IsShown own.now (map T.shows around.now)) }
    ensures fault { IfErr result (λ why. first_fault own.now (map T.shows around.now) ≡ Some why) }
    ensures never { OnErr result (IsNeverShown own.now (map T.shows around.now)) }
{
    checked(own, around)?;
    match guard::<R, T>(own, around) {
        None => Ok(None),
        Some(act) => {
            let target = least::<R, T>(own, around, act);
            Ok(Some(move_from(own, around, act, target)))
        }
    }
}

/// Whether the machine may move the node by this rule to this target, in every state that shows this at the
/// node.
pub fn may_move<R: LocalRules, T: AsRecord>(
    own: &NodeRecord,
    around: &[T],
    act: Act,
    target: Option<Node>,
) -> Result<bool, ViewFault>
    ensures machine { IfOk result (λ yes. (s : State) → ShowsAtNode s own.now (map T.shows around.now) → yes ≡ may_move_at R.table s own.now.node act target) }
    ensures shown { OnOk result (IsShown own.now (map T.shows around.now)) }
    ensures fault { IfErr result (λ why. first_fault own.now (map T.shows around.now) ≡ Some why) }
    ensures never { OnErr result (IsNeverShown own.now (map T.shows around.now)) }
{
    checked(own, around)?;
    Ok(is_allowed::<R, T>(own, around, act, target))
}

fn is_allowed<R: LocalRules, T: AsRecord>(
    own: &NodeRecord,
    around: &[T],
    act: Act,
    wish: Option<Node>,
) -> bool
    requires shown { ShowsAtNode (star own.now (map T.shows around.now)) own.now (map T.shows around.now) }
    ensures { result ≡ may_move_at R.table (star own.now (map T.shows around.now)) own.now.node act wish }
{
    match guard::<R, T>(own, around) {
        Some(enabled) if enabled == act => match wish {
            None => matches!(act, Act::Update | Act::Abandon),
            Some(_) => target::<R, T>(own, around, wish).is_ok(),
        },
        _ => false,
    }
}

/// `local_rule` of a rule set by name.
pub fn local_rule_of<T: AsRecord>(
    rules: RuleSet,
    own: &NodeRecord,
    around: &[T],
) -> Result<Option<LocalMove>, ViewFault>
    ensures machine { IfOk result (λ answer. (s : State) → ShowsAtNode s own.now (map T.shows around.now) → answer ≡ move_at (table_of rules) s own.now.node) }
    ensures shown { OnOk result (IsShown own.now (map T.shows around.now)) }
    ensures fault { IfErr result (λ why. first_fault own.now (map T.shows around.now) ≡ Some why) }
    ensures never { OnErr result (IsNeverShown own.now (map T.shows around.now)) }
{
    match rules {
        RuleSet::Hh => local_rule::<HsuHuang, T>(own, around),
        RuleSet::Manne => local_rule::<Manne, T>(own, around),
    }
}

/// `may_move` of a rule set by name.
pub fn may_move_of<T: AsRecord>(
    rules: RuleSet,
    own: &NodeRecord,
    around: &[T],
    act: Act,
    target: Option<Node>,
) -> Result<bool, ViewFault>
    ensures machine { IfOk result (λ yes. (s : State) → ShowsAtNode s own.now (map T.shows around.now) → yes ≡ may_move_at (table_of rules) s own.now.node act target) }
    ensures shown { OnOk result (IsShown own.now (map T.shows around.now)) }
    ensures fault { IfErr result (λ why. first_fault own.now (map T.shows around.now) ≡ Some why) }
    ensures never { OnErr result (IsNeverShown own.now (map T.shows around.now)) }
{
    match rules {
        RuleSet::Hh => may_move::<HsuHuang, T>(own, around, act, target),
        RuleSet::Manne => may_move::<Manne, T>(own, around, act, target),
    }
}
