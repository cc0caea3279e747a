//! What a name contributes to the totals of its network.

ghost use Rattle.std.specs.Prelude.{◌≡◌, ◌≤◌, IsTrue, None, cond, false, is_some};
ghost use Rattle.rule_machine.specs.Network.{present};
ghost use Rattle.rule_machine.specs.RuleTable as table;
ghost use Rattle.rule_machine.specs.State as state;
ghost use Rattle.rule_machine.specs.Tables.{table_of};
ghost use Rattle.reply_checker.specs.Contributions.{IsShare, edge_stance_by};
ghost use Rattle.reply_checker.specs.AscendingLists.{lower_end_pair};

use crate::rules::{closes, flag_charge, rule_at};
use net_state::{EdgeStance, NetState};
use rule_machine::{Act, Node, RuleSet};

/// `added` is what the node adds to the charge apart from its edges.
///
/// `closes` is whether the node's pointer closes an edge that is open by the stances of its ends.
#[derive(Clone, Copy)]
pub(crate) struct Contribution {
    pub(crate) rule: Option<Act>,
    pub(crate) is_lower_end: bool,
    pub(crate) added: u8,
    pub(crate) closes: bool,
}

pub(crate) const NO_SHARE: Contribution = Contribution {
    rule: None,
    is_lower_end: false,
    added: 0,
    closes: false,
};

pub(crate) fn share_of(net: &NetState, rules: RuleSet, v: Node) -> Contribution
    requires { v ≤ net.now.state.network.size }
    ensures share { IsShare rules net.now.state v result }
    ensures light { result.added ≤ 3 }
{
    if !net.has(v) {
        return NO_SHARE;
    }
    Contribution {
        rule: rule_at(net, rules, v),
        is_lower_end: is_lower_end(net, v),
        added: u8::from(is_unanswered(net, v)) + flag_charge(net, rules, v),
        closes: closes(net, rules, v),
    }
}

#[inline(always)]
fn is_lower_end(net: &NetState, v: Node) -> bool
    requires { IsTrue (present net.now.state.network v) }
    ensures { result ≡ is_some (lower_end_pair net.now.state v) }
{
    // Gives the prover `IsState`.
    let _ = net.registers();
    match net.pointer(v) {
        Some(w) => v < w && net.points(w, v),
        None => false,
    }
}

#[inline(always)]
fn is_unanswered(net: &NetState, v: Node) -> bool
    requires { IsTrue (present net.now.state.network v) }
    ensures { result ≡ state.is_unanswered net.now.state v }
{
    match net.pointer(v) {
        Some(w) => !net.points(w, v),
        None => false,
    }
}

/// A node's stance towards its edges; `Shut` for an absent name. `rule` is the rule enabled at `v`: by Hsu and
/// Huang's rules a node with a null pointer has a suitor exactly if the node may marry.
#[inline(always)]
pub(crate) fn end_at(net: &NetState, rules: RuleSet, v: Node, rule: Option<Act>) -> EdgeStance
    requires within { v ≤ net.now.state.network.size }
    requires rule { rule ≡ cond (present net.now.state.network v) (table.rule_at (table_of rules) net.now.state v) None }
    ensures { IsTrue (present net.now.state.network v) → result ≡ edge_stance_by rules net.now.state v }
{
    if !net.has(v) {
        return EdgeStance::Shut;
    }
    match rules {
        RuleSet::Hh if net.married(v) => EdgeStance::Shut,
        RuleSet::Hh if rule == Some(Act::Marry) => EdgeStance::Courted,
        RuleSet::Hh => EdgeStance::Free,
        RuleSet::Manne if net.married(v) => EdgeStance::Shut,
        RuleSet::Manne => EdgeStance::Free,
    }
}
