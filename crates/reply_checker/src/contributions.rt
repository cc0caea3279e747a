//! What each name contributes to the totals of its network, as of the last look at the name.

ghost use Rattle.std.specs.Prelude.{◌≡◌, All, ℕ, ◌+◌, ◌<◌, ◌≤◌, true, false, length, replicate, slice_set, IfOk};
ghost use Rattle.enabled_set.specs.Members.{is_in};
ghost use Rattle.rule_machine.specs.Network.{Network};
ghost use Rattle.net_state.specs.EdgeStances.{CountsOpenEdges};
ghost use Rattle.reply_checker.specs.Contributions.{absent_contribution, AreExactIfFresh, AreStatusSums, FitsTwoBits};

use crate::contribution::{Contribution, NO_SHARE};
use enabled_set::Marks;
use net_state::{Change, NetState, Observer, OpenEdges};
use rule_machine::{Node, RuleSet, Want};
use std::alloc::Global;

/// What each name contributed at the last look by these rules, with the sums.
///
/// A name that changed is touched until the names whose contributions depend on that name are marked as
/// due. A due name needs a new look. The count of open edges follows each change.
#[derive(Drop)]
pub(crate) struct Contributions {
    pub(crate) rules: RuleSet,
    pub(crate) each: Vec<Contribution>,
    pub(crate) pairs: u32,
    pub(crate) enabled: u32,
    pub(crate) added: u32,
    pub(crate) closing: u32,
    pub(crate) touched: Marks,
    pub(crate) due: Marks,
    pub(crate) open_edges: OpenEdges,
    ghost few: { length each.items ≤ 65536 },
    ghost light: { All FitsTwoBits each.items },
    ghost summed: { AreStatusSums each.items pairs enabled added closing },
}

impl Contributions {
    /// Creates empty contributions by Hsu and Huang's rules; all names up to `nodes` are due.
    ///
    /// Takes twelve bytes a name.
    pub(crate) fn new(alloc: Global, nodes: u32) -> Result<Contributions, Want>
        requires { nodes ≤ 65535 }
        ensures each { IfOk result (λ it. it.each.items ≡ replicate (nodes + 1) absent_contribution) }
        ensures touched { IfOk result (λ it. it.touched ≡ replicate (nodes + 1) false) }
        ensures places { IfOk result (λ it. length it.due ≡ nodes + 1) }
        ensures due { IfOk result (λ it. (v : ℕ) → 1 ≤ v → v ≤ nodes → is_in it.due v ≡ true) }
        ensures open { IfOk result (λ it. (net : Network) → net.size ≡ nodes → CountsOpenEdges net it.open_edges) }
    {
        let each = no_shares(alloc, nodes as usize + 1)?;
        let touched = Marks::new(alloc, nodes)?;
        let mut due = Marks::new(alloc, nodes)?;
        due.mark_all();
        let open_edges = OpenEdges::new(alloc, nodes)?;
        Ok(Contributions {
            rules: RuleSet::Hh,
            each,
            pairs: 0,
            enabled: 0,
            added: 0,
            closing: 0,
            touched,
            due,
            open_edges,
        })
    }

    pub(crate) fn put(&mut self, v: Node, share: Contribution)
        requires share { v < length self.old.each.items }
        requires light { FitsTwoBits share }
        ensures each { self.new.each.items ≡ slice_set self.old.each.items v share }
        ensures rules { self.new.rules ≡ self.old.rules }
        ensures kept { (self.new.touched ≡ self.old.touched) × (self.new.due ≡ self.old.due) }
        ensures open { self.new.open_edges ≡ self.old.open_edges }
    {
        let was = self.each[v.place()];
        self.each[v.place()] = share;
        self.pairs = self.pairs - u32::from(was.is_lower_end) + u32::from(share.is_lower_end);
        self.enabled = self.enabled - u32::from(was.rule.is_some())
            + u32::from(share.rule.is_some());
        self.added = self.added - u32::from(was.added) + u32::from(share.added);
        self.closing = self.closing - u32::from(was.closes) + u32::from(share.closes);
    }

    pub(crate) fn go_by(&mut self, rules: RuleSet)
        ensures rules { self.new.rules ≡ rules }
        ensures kept { (self.new.each.items ≡ self.old.each.items) × (self.new.touched ≡ self.old.touched) }
        ensures open { self.new.open_edges ≡ self.old.open_edges }
        ensures places { length self.new.due ≡ length self.old.due }
        ensures due { (v : ℕ) → 1 ≤ v → v < length self.old.due → is_in self.new.due v ≡ true }
    {
        self.rules = rules;
        self.due.mark_all();
    }
}

impl Observer for Contributions {
    ghost fits = { λ net it. AreExactIfFresh it.rules net.state it.open_edges it.each.items it.touched it.due };

    ghost stays = { λ names it. Unit {0} };

    #[inline(always)]
    fn saw(&mut self, net: &NetState, change: Change) {
        // Copied: the prover drops facts about a moved value.
        let marked = change;
        self.open_edges.follow(net, change);
        marked.mark_names(&mut self.touched);
    }
}

fn no_shares(alloc: Global, places: usize) -> Result<Vec<Contribution>, Want>
    requires { places ≤ 65536 }
    ensures { IfOk result (λ each. each.items ≡ replicate places absent_contribution) }
{
    vec![in alloc; NO_SHARE; places]
}
