//! Replies to events, and the memory that carrying them out needs.

ghost use Rattle.std.specs.Prelude.{◌≡◌, IfOk, OnErr, None};
ghost use Rattle.rule_machine.specs.Least.{reply_of};
ghost use Rattle.rule_machine.specs.Refuse.{refusal_of};
ghost use Rattle.rule_machine.specs.declared.event.Event.TheVariants.{Link, Step, Show, Enabled, Matching, Status};
ghost use Rattle.rule_engine.specs.ChoiceMoves.{HaveOutcomes, verdicts_of};
ghost use Rattle.rule_engine.specs.EventReplies.{Prepares, stored_reply};
ghost use Rattle.rule_engine.specs.PreparedEvents.{IsPrepared, net_moment};

use crate::Net;
use crate::charge::totals_of;
use crate::collected_moves::{CollectedMoves, step_reply};
use crate::edits::{
    put_edit, refusal_of, refused_flag, refused_join, refused_leave, refused_point, refused_unlink,
};
use crate::guard::{put_reply_to_one, refused_size, take_items};
use crate::listing::{enabled_rules, mutual_edges};
use rule_machine::{
    Choice, Counts, Event, Item, Listing, Node, Refusal, Reply, Rules, Verdict, Want,
};
use std::alloc::AllocError;
use suitor_index::IndexedNet;

impl<R: Rules> Net<R> {
    /// Writes the reply to an event into `reply`, and takes all memory that `commit` needs.
    /// The caller keeps the reply, because replies are large to move.
    #[inline(always)]
    pub(crate) fn reply_to(&mut self, event: &Event, reply: &mut Reply) -> Result<(), Want>
        ensures { Prepares R.table self.old event.now (stored_reply result reply.new) self.new }
    {
        match event {
            Event::Link(a, b) => self.prepare_link(*a, *b, reply),
            Event::Unlink(a, b) => put_edit(reply, refused_unlink(self.net.store(), *a, *b)),
            Event::Point(v, target) => put_edit(
                reply,
                refused_point(self.net.store(), *v, *target),
            ),
            Event::Flag(v, _) => put_edit(reply, refused_flag::<R>(self.net.store(), *v)),
            Event::Join(v) => put_edit(reply, refused_join(self.net.store(), *v)),
            Event::Leave(v) => put_edit(reply, refused_leave(self.net.store(), *v)),
            Event::Step(choice) => self.prepare_choice(choice, reply),
            Event::Show(v) => {
                self.show(*v, reply);
                Ok(())
            }
            Event::Enabled => self.prepare_enabled(reply),
            Event::Matching => self.prepare_matching(reply),
            Event::Status => {
                self.status(reply);
                Ok(())
            }
        }
    }

    fn prepare_link(&mut self, a: Node, b: Node, reply: &mut Reply) -> Result<(), Want>
        ensures { Prepares R.table self.old (Link a b) (stored_reply result reply.new) self.new }
    {
        let Err(fault) = self.net.reserve_link(a, b) else {
            return put_edit(reply, None);
        };
        let refusal = refusal_of(fault);
        if refusal.is_none() {
            return Err(AllocError);
        }
        put_edit(reply, refusal)
    }

    fn prepare_choice(&mut self, choice: &Choice, reply: &mut Reply) -> Result<(), Want>
        ensures { Prepares R.table self.old (Step choice.now) (stored_reply result reply.new) self.new }
    {
        let items = choice.items();
        if items.len() == 1 {
            put_reply_to_one(reply, &self.index(), items[0]);
            return Ok(());
        }
        *reply = self.step_of(items, &[])?;
        Ok(())
    }

    /// The reply to a step of these items, by the verdicts of those that were judged.
    fn step_of(&mut self, items: &[Item], judged: &[Verdict]) -> Result<Reply, Want>
        requires { HaveOutcomes R.table self.old.state items.now judged.now }
        ensures { Prepares R.table self.old (Step items.now) result self.new }
    {
        if let Some(refusal) = refused_size(R::CENTRAL, items.len()) {
            return Ok(Reply::Refused(refusal));
        }
        let mut gathered = CollectedMoves::new(self.alloc, items.len());
        let index = IndexedNet::new(&self.net, &self.derived.suitors);
        let refused = take_items(&index, &mut self.chosen, &mut gathered, items, judged);
        step_reply(refused, gathered)
    }

    /// Like `prepare` of a step, but takes the verdicts of the step's items. Evaluates no guard again.
    /// `AllocError` if memory runs out, which can happen only if the step is not refused.
    pub fn prepare_step(&mut self, choice: &Choice, verdicts: &[Verdict]) -> Result<Reply, Want>
        requires { verdicts.now ≡ verdicts_of R.table self.old.state choice.now }
        ensures reply { IfOk result (λ reply. reply ≡ reply_of R.table self.old.state self.old.spent (Step choice.now)) }
        ensures prepared { IfOk result (λ reply. IsPrepared R.table self.new (Step choice.now) reply) }
        ensures kept { net_moment self.new ≡ net_moment self.old }
        ensures counting { self.new.counting ≡ self.old.counting }
        ensures want { OnErr result (refusal_of R.table self.old.state (Step choice.now) ≡ None) }
    {
        self.step_of(choice.items(), verdicts)
    }

    fn show(&self, v: Node, reply: &mut Reply)
        ensures { reply.new ≡ reply_of R.table self.now.state self.now.spent (Show v) }
    {
        if !self.net.has(v) {
            *reply = Reply::Refused(Refusal::UnknownNode);
            return;
        }
        *reply = Reply::Shown(self.net.pointer(v));
    }

    // A separate function, so that other events reserve no stack for the results of this one.
    fn prepare_enabled(&self, reply: &mut Reply) -> Result<(), Want>
        ensures { Prepares R.table self.now Enabled (stored_reply result reply.new) self.now }
    {
        let nodes = self.derived.enabled.to_list()?;
        let rules = enabled_rules(self.alloc, &self.index(), &nodes)?;
        *reply = Reply::EnabledAre(Listing::from_vec(rules));
        Ok(())
    }

    fn prepare_matching(&mut self, reply: &mut Reply) -> Result<(), Want>
        ensures { Prepares R.table self.old Matching (stored_reply result reply.new) self.new }
    {
        let pairs = mutual_edges(self.alloc, &self.net, &mut self.derived)?;
        *reply = Reply::Pairs(Listing::from_vec(pairs));
        Ok(())
    }

    fn status(&mut self, reply: &mut Reply)
        ensures reply { reply.new ≡ reply_of R.table self.old.state self.old.spent Status }
        ensures kept { self.new ≡ self.old }
    {
        let totals = totals_of(&self.net, &mut self.derived);
        *reply = Reply::Counts(Counts {
            nodes: self.net.nodes(),
            edges: self.net.edges(),
            pairs: totals.pairs,
            enabled: self.derived.enabled.count(),
            charge: totals.charge,
            spent: self.spent,
        });
    }
}
