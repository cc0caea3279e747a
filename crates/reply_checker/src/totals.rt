//! The totals that questions need, updated by looks at the names that are touched or due.

ghost use Rattle.std.specs.Prelude.{◌≡◌, ◌+◌, ◌*◌, ◌<◌, ◌≤◌, ℕ, true, false, length, IsTrue, None, cond};
ghost use Rattle.enabled_set.specs.Members.{is_in};
ghost use Rattle.rule_machine.specs.Network.{linked, present};
ghost use Rattle.rule_machine.specs.RuleTable as table;
ghost use Rattle.rule_machine.specs.Tables.{table_of};
ghost use Rattle.reply_checker.specs.Contributions.{asks, AreAsking, AreFresh, AreTotals};

use crate::CountedNet;
use crate::contribution::{end_at, share_of};
use enabled_set::Marks;
use net_state::NetState;
use rule_machine::{Act, Node, RuleSet};

#[derive(Clone, Copy)]
pub(crate) struct Totals {
    pub(crate) pairs: u32,
    pub(crate) enabled: u32,
    pub(crate) charge: u32,
}

#[inline(always)]
fn asks(net: &NetState, v: Node, w: Node) -> bool
    requires present { IsTrue (present net.now.state.network v) }
    requires linked { IsTrue (linked net.now.state.network v w) }
    ensures { result ≡ asks net.now.state v w }
{
    // Gives the prover `IsState`.
    let _ = net.registers();
    match net.pointer(v) {
        Some(x) => x == w,
        None => true,
    }
}

fn mark_around(net: &NetState, v: Node, due: &mut Marks)
    requires within { v ≤ net.now.state.network.size }
    requires places { length due.old ≡ net.now.state.network.size + 1 }
    ensures { AreAsking net.now.state v due.old due.new }
{
    let _ = net.registers();
    due.mark(v);
    if !net.has(v) {
        return;
    }
    for &w in net.neighbours(v) {
        if asks(net, w, v) {
            due.mark(w);
        }
    }
}

impl CountedNet {
    /// Marks as due the names that depend on touched names.
    fn spread(&mut self)
        ensures kept { (self.new.net.state ≡ self.old.net.state) × (self.new.shares.rules ≡ self.old.shares.rules) }
        ensures none { (v : ℕ) → is_in self.new.shares.touched v ≡ false }
    {
        while let Some(v) = self.shares.touched.take() {
            mark_around(&self.net, v, &mut self.shares.due);
        }
    }

    fn look(&mut self)
        ensures kept { (self.new.net.state ≡ self.old.net.state) × (self.new.shares.rules ≡ self.old.shares.rules) }
        ensures touched { self.new.shares.touched ≡ self.old.shares.touched }
        ensures none { (v : ℕ) → is_in self.new.shares.due v ≡ false }
    {
        while let Some(v) = self.shares.due.take() {
            let share = share_of(&self.net, self.shares.rules, v);
            let end = end_at(&self.net, self.shares.rules, v, share.rule);
            self.shares.put(v, share);
            self.shares.open_edges.set_stance(&self.net, v, end);
        }
    }

    fn use_rules(&mut self, rules: RuleSet)
        ensures rules { self.new.shares.rules ≡ rules }
        ensures kept { self.new.net.state ≡ self.old.net.state }
    {
        if self.shares.rules != rules {
            self.shares.go_by(rules);
        }
    }

    pub(crate) fn totals(&mut self, rules: RuleSet) -> Totals
        ensures value { AreTotals rules self.old.net.state result }
        ensures kept { self.new.net.state ≡ self.old.net.state }
        ensures rules { self.new.shares.rules ≡ rules }
        ensures fresh { AreFresh self.new.shares.touched self.new.shares.due }
    {
        self.use_rules(rules);
        self.spread();
        self.look();
        self.count()
    }

    /// An edge that is open by the stances of its ends adds 2 to the charge, unless a pointer closes it.
    fn count(&self) -> Totals
        requires { AreFresh self.now.shares.touched self.now.shares.due }
        ensures { AreTotals self.now.shares.rules self.now.net.state result }
    {
        let shares = &self.shares;
        let charge = 2 * shares.open_edges.count() + shares.added - 2 * shares.closing;
        Totals {
            pairs: shares.pairs,
            enabled: shares.enabled,
            charge,
        }
    }

    #[inline(always)]
    pub(crate) fn rule_of(&self, v: Node) -> Option<Act>
        requires { AreFresh self.now.shares.touched self.now.shares.due }
        ensures { result ≡ cond (present self.now.net.state.network v) (table.rule_at (table_of self.now.shares.rules) self.now.net.state v) None }
    {
        match self.shares.each.get(v.place()) {
            Some(share) => share.rule,
            None => None,
        }
    }
}
