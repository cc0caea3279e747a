//! What differs by the rule set: most functions dispatch to the file of its rules.

ghost use Rattle.std.specs.Prelude.{◌≡◌, ◌≤◌, IsTrue, is_some};
ghost use Rattle.rule_machine.specs.Network.{present};
ghost use Rattle.rule_machine.specs.RuleTable as table;
ghost use Rattle.rule_machine.specs.Tables.{table_of};
ghost use Rattle.reply_checker.specs.ReplyVerdicts.{cost_by};
ghost use Rattle.reply_checker.specs.Witnesses.{RestsOn};
ghost use Rattle.reply_checker.specs.Contributions.{closes, flag_charge};

use crate::witness::Witness;
use crate::{hsu_huang, manne};
use net_state::NetState;
use rule_machine::{Act, Event, Node, RuleSet};

/// The rule that is enabled at a node, if any. Looks at neighbours if the pointer is null.
#[inline(always)]
pub fn rule_at(net: &NetState, rules: RuleSet, v: Node) -> Option<Act>
    requires { IsTrue (present net.now.state.network v) }
    ensures { result ≡ table.rule_at (table_of rules) net.now.state v }
{
    match rules {
        RuleSet::Hh => hsu_huang::rule_at(net, v),
        RuleSet::Manne => manne::rule_at(net, v),
    }
}

/// Whether a rule is enabled at a node; stores the node's witness.
///
/// A neighbour calls the node if it points at the node or the node may court it. The answer does not depend on
/// what `witness` was before.
///
/// Cost: a look at the node and its target. If the pointer is null, a look at the neighbours from the caller
/// that was found last on, then at those before it, up to the first caller.
pub fn is_enabled(net: &NetState, rules: RuleSet, v: Node, witness: &mut Witness) -> bool
    requires { IsTrue (present net.now.state.network v) }
    ensures value { result ≡ is_some (table.rule_at (table_of rules) net.now.state v) }
    ensures rests { RestsOn (table_of rules) net.now.state v witness.new.node }
{
    match rules {
        RuleSet::Hh => hsu_huang::is_enabled(net, v, witness),
        RuleSet::Manne => manne::is_enabled(net, v, witness),
    }
}

pub(crate) fn is_allowed(net: &NetState, rules: RuleSet, v: Node, act: Act, w: Node) -> bool
    ensures { result ≡ (table_of rules).allowed net.now.state v act w }
{
    match rules {
        RuleSet::Hh => hsu_huang::is_allowed(net, v, act, w),
        RuleSet::Manne => manne::is_allowed(net, v, act, w),
    }
}

pub(crate) fn is_central(rules: RuleSet) -> bool
    ensures { result ≡ (table_of rules).central }
{
    match rules {
        RuleSet::Hh => true,
        RuleSet::Manne => false,
    }
}

pub(crate) fn uses_flags(rules: RuleSet) -> bool
    ensures { result ≡ (table_of rules).flags }
{
    match rules {
        RuleSet::Hh => false,
        RuleSet::Manne => true,
    }
}

#[inline(always)]
pub(crate) fn flag_charge(net: &NetState, rules: RuleSet, v: Node) -> u8
    requires { IsTrue (present net.now.state.network v) }
    ensures value { result ≡ flag_charge rules net.now.state v }
    ensures few { result ≤ 2 }
{
    match rules {
        RuleSet::Hh => 0,
        RuleSet::Manne => manne::flag_charge(net, v),
    }
}

/// Whether a node's pointer closes an edge that is open by the stances of its ends.
#[inline(always)]
pub(crate) fn closes(net: &NetState, rules: RuleSet, v: Node) -> bool
    requires { IsTrue (present net.now.state.network v) }
    ensures { result ≡ closes rules net.now.state v }
{
    match rules {
        RuleSet::Hh => hsu_huang::closes(net, v),
        RuleSet::Manne => manne::closes(net, v),
    }
}

/// How much an event may add to the charge if the network's state accepts the event.
///
/// A sum of degrees of the nodes that the event touches, at most 262,144; 0 for a step and a question.
///
/// Cost: a few looks, and one at each neighbour of a node that a fault hits.
pub fn cost_of(net: &NetState, rules: RuleSet, event: &Event) -> u32
    ensures { result ≡ cost_by rules net.now.state event.now }
{
    match rules {
        RuleSet::Hh => hsu_huang::cost_of(net, event),
        RuleSet::Manne => manne::cost_of(net, event),
    }
}
