//! Whether a reply answers a question rightly.

ghost use Rattle.std.specs.Prelude.{◌≡◌, ◌↔◌, IsTrue, Some};
ghost use Rattle.rule_machine.specs.Answer.{counts_of};
ghost use Rattle.rule_machine.specs.RuleTable.{enabled};
ghost use Rattle.rule_machine.specs.Stable.{mutual_pairs};
ghost use Rattle.rule_machine.specs.Tables.{table_of};
ghost use Rattle.reply_checker.specs.AscendingLists.{AreRising, lower_end_pair, ruled_node};
ghost use Rattle.reply_checker.specs.Contributions.{AreFresh};

use crate::CountedNet;
use net_state::NetState;
use rule_machine::{Act, Edge, Node, Reply, RuleSet};

/// Compares the number of entries with the count of enabled nodes, then checks each entry.
pub(crate) fn are_enabled(counted: &mut CountedNet, rules: RuleSet, reply: &Reply) -> bool
    ensures value { IsTrue result ↔ (reply.now ≡ Reply.EnabledAre (enabled (table_of rules) counted.old.net.state)) }
    ensures kept { counted.new.net.state ≡ counted.old.net.state }
{
    let Reply::EnabledAre(listing) = reply else {
        return false;
    };
    let totals = counted.totals(rules);
    let given = listing.as_slice();
    given.len() == totals.enabled as usize && are_ruled(counted, given)
}

#[inline(never)]
fn are_ruled(counted: &CountedNet, given: &[(Node, Act)]) -> bool
    requires { AreFresh counted.now.shares.touched counted.now.shares.due }
    ensures { IsTrue result ↔ AreRising (ruled_node (table_of counted.now.shares.rules) counted.now.net.state) 0 given.now }
{
    let mut last = 0;
    for item in given {
        let (v, act) = *item;
        if v.name() <= last || !has_rule(counted, v, act) {
            return false;
        }
        last = v.name();
    }
    true
}

#[inline(always)]
fn has_rule(counted: &CountedNet, v: Node, act: Act) -> bool
    requires { AreFresh counted.now.shares.touched counted.now.shares.due }
    ensures { IsTrue result ↔ (ruled_node (table_of counted.now.shares.rules) counted.now.net.state v ≡ Some (v, act)) }
{
    counted.rule_of(v) == Some(act)
}

pub(crate) fn are_mutual(counted: &mut CountedNet, rules: RuleSet, reply: &Reply) -> bool
    ensures value { IsTrue result ↔ (reply.now ≡ Reply.Pairs (mutual_pairs counted.old.net.state)) }
    ensures kept { counted.new.net.state ≡ counted.old.net.state }
{
    let Reply::Pairs(listing) = reply else {
        return false;
    };
    let totals = counted.totals(rules);
    let given = listing.as_slice();
    given.len() == totals.pairs as usize && are_pairs(&counted.net, given)
}

#[inline(never)]
fn are_pairs(net: &NetState, given: &[Edge]) -> bool
    ensures { IsTrue result ↔ AreRising (lower_end_pair net.now.state) 0 given.now }
{
    let mut last = 0;
    for pair in given {
        let low = pair.low().name();
        if low <= last || !is_mutual(net, *pair) {
            return false;
        }
        last = low;
    }
    true
}

#[inline(always)]
fn is_mutual(net: &NetState, pair: Edge) -> bool
    ensures { IsTrue result ↔ (lower_end_pair net.now.state pair.0 ≡ Some pair) }
{
    // Gives the prover `IsState`.
    let _ = net.registers();
    let (low, high) = (pair.low(), pair.high());
    net.points(low, high) && net.points(high, low)
}

pub(crate) fn has_counts(
    counted: &mut CountedNet,
    rules: RuleSet,
    spent: u64,
    reply: &Reply,
) -> bool
    ensures value { IsTrue result ↔ (reply.now ≡ Reply.Counts (counts_of (table_of rules) counted.old.net.state spent)) }
    ensures kept { counted.new.net.state ≡ counted.old.net.state }
{
    let Reply::Counts(given) = reply else {
        return false;
    };
    let totals = counted.totals(rules);
    given.nodes == counted.net.nodes()
        && given.edges == counted.net.edges()
        && u64::from(given.spent) == spent
        && given.pairs == totals.pairs
        && given.enabled == totals.enabled
        && given.charge == totals.charge
}
