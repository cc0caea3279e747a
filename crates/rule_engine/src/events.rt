//! Events carried out on a network: prepared, then committed.

ghost use Rattle.std.specs.Prelude.{◌≡◌, ℕ, IfOk, OnOk, OnErr, IsTrue, None};
ghost use Rattle.enabled_set.specs.RemovedNames.{KeepsNotes};
ghost use Rattle.round_counter.specs.Counting.{is_step};
ghost use Rattle.round_laws.specs.RoundCounts.{next_counting};
ghost use Rattle.rule_machine.specs.Answer.{Answers};
ghost use Rattle.rule_machine.specs.Least.{reply_of, state_after};
ghost use Rattle.rule_machine.specs.Refuse.{refusal_of};
ghost use Rattle.rule_machine.specs.Run.{moment_after};
ghost use Rattle.rule_machine.specs.declared.event.Event.TheVariants.{Step};
ghost use Rattle.rule_machine.specs.declared.reply.Reply.TheVariants.{Accepted};
ghost use Rattle.machine_laws.specs.StatesAfterReplies.{disturbed};
ghost use Rattle.rule_engine.specs.ChoiceMoves.{verdicts_of};
ghost use Rattle.rule_engine.specs.EventReplies.{takes_memory};
ghost use Rattle.rule_engine.specs.PreparedEvents.{HasRoomTo, IsPrepared, event_of, net_moment};

use crate::charge::spent_after;
use crate::rounds::{begin, follow};
use crate::{Derived, Net};
use net_state::{
    NetState, Observer, join, leave, link_reserved, make_moves, set_flag, set_pointer, unlink,
};
use rule_machine::{Choice, Event, Reply, Rules, Verdict, Want};

/// What a reply is to: an event, or a step that is given by its choice.
#[derive(Clone, Copy)]
enum Cause<'a> {
    Event(&'a Event),
    Step(&'a Choice),
}

impl<R: Rules> Net<R> {
    /// The reply that `apply` would give to an event. Takes all memory that carrying out the event needs.
    /// `commit` then carries out the event and cannot fail. The state does not change. Errors are those of
    /// `apply`.
    /// Costs what `apply` costs, without the writes and without evaluating guards after the writes.
    #[inline(always)]
    pub fn prepare(&mut self, event: &Event) -> Result<Reply, Want>
        ensures reply { IfOk result (λ reply. reply ≡ reply_of R.table self.old.state self.old.spent event.now) }
        ensures prepared { IfOk result (λ reply. IsPrepared R.table self.new event.now reply) }
        ensures kept { net_moment self.new ≡ net_moment self.old }
        ensures counting { self.new.counting ≡ self.old.counting }
        ensures want { OnErr result ((refusal_of R.table self.old.state event.now ≡ None) × IsTrue (takes_memory event.now)) }
    {
        let mut reply = Reply::Accepted;
        self.prepare_into(event, &mut reply)?;
        Ok(reply)
    }

    /// Like `prepare`, but writes the reply into `reply` instead of returning it.
    /// If memory runs out, the value of `reply` is unspecified.
    #[inline(always)]
    pub fn prepare_into(&mut self, event: &Event, reply: &mut Reply) -> Result<(), Want>
        ensures reply { OnOk result (reply.new ≡ reply_of R.table self.old.state self.old.spent event.now) }
        ensures prepared { OnOk result (IsPrepared R.table self.new event.now reply.new) }
        ensures kept { net_moment self.new ≡ net_moment self.old }
        ensures counting { self.new.counting ≡ self.old.counting }
        ensures want { OnErr result ((refusal_of R.table self.old.state event.now ≡ None) × IsTrue (takes_memory event.now)) }
    {
        self.reply_to(event, reply)
    }

    /// Carries out an event, given the reply that was prepared for this event.
    /// The network must not have changed since. Takes no memory. `apply` lists the guards that are evaluated
    /// again.
    #[inline(always)]
    pub fn commit(&mut self, event: &Event, reply: &Reply)
        requires { IsPrepared R.table self.old event.now reply.now }
        ensures state { net_moment self.new ≡ moment_after R.table (net_moment self.old) event.now }
        ensures machine { Answers R.table self.old.state self.old.spent event.now reply.now self.new.state }
        ensures counting { self.new.counting ≡ next_counting R.table reply.now self.new.state self.old.counting }
    {
        self.commit_to(Cause::Event(event), reply);
    }

    /// Carries out an event (an edit, a fault, a step or a query), and returns the reply.
    /// In a step each free target is the least allowed one.
    /// `AllocError` if memory runs out; nothing has changed then. This can happen only if the event is not
    /// refused, and never for `Unlink`, `Point`, `Flag`, `Join`, `Leave`, `Show` and `Status`.
    ///
    /// The guards that are evaluated again:
    ///
    /// | change | nodes |
    /// |---|---|
    /// | an edge is added or removed | the edge's two ends |
    /// | a node's register is written | the node, and each neighbour that points at the node |
    /// | a node's pointer is written | also the old and the new target, each if it points nowhere |
    /// | a write opens or closes a node | also neighbours that point nowhere and see no other open node |
    /// | a name becomes a node | that node |
    ///
    /// In the fourth case counts stored at each neighbour decide. A step also looks at each chosen node, and
    /// sorts the moves unless they ascend already. `Matching` and `Status` look at each node whose
    /// contribution may have changed since the last such query. They also look at the node's neighbours if
    /// the node's effect on its edges changed or several nodes point at the node.
    pub fn apply(&mut self, event: &Event) -> Result<Reply, Want>
        ensures reply { IfOk result (λ reply. reply ≡ reply_of R.table self.old.state self.old.spent event.now) }
        ensures state { OnOk result (net_moment self.new ≡ moment_after R.table (net_moment self.old) event.now) }
        ensures machine { IfOk result (λ reply. Answers R.table self.old.state self.old.spent event.now reply self.new.state) }
        ensures counting { IfOk result (λ reply. self.new.counting ≡ next_counting R.table reply self.new.state self.old.counting) }
        ensures kept { OnErr result (net_moment self.new ≡ net_moment self.old) }
        ensures kept_counting { OnErr result (self.new.counting ≡ self.old.counting) }
        ensures want { OnErr result ((refusal_of R.table self.old.state event.now ≡ None) × IsTrue (takes_memory event.now)) }
    {
        let reply = self.prepare(event)?;
        self.commit(event, &reply);
        Ok(reply)
    }

    /// Carries out a step from the verdicts of the step's items, with the result and errors of `apply`.
    /// Evaluates no guard again to find the reply.
    pub fn apply_step(&mut self, choice: &Choice, verdicts: &[Verdict]) -> Result<Reply, Want>
        requires { verdicts.now ≡ verdicts_of R.table self.old.state choice.now }
        ensures reply { IfOk result (λ reply. reply ≡ reply_of R.table self.old.state self.old.spent (Step choice.now)) }
        ensures state { OnOk result (net_moment self.new ≡ moment_after R.table (net_moment self.old) (Step choice.now)) }
        ensures counting { IfOk result (λ reply. self.new.counting ≡ next_counting R.table reply self.new.state self.old.counting) }
        ensures kept { OnErr result (net_moment self.new ≡ net_moment self.old) }
        ensures kept_counting { OnErr result (self.new.counting ≡ self.old.counting) }
        ensures want { OnErr result (refusal_of R.table self.old.state (Step choice.now) ≡ None) }
    {
        let reply = self.prepare_step(choice, verdicts)?;
        self.commit_to(Cause::Step(choice), &reply);
        Ok(reply)
    }

    #[inline(always)]
    fn commit_to(&mut self, cause: Cause<'_>, reply: &Reply)
        requires { IsPrepared R.table self.old (event_of cause) reply.now }
        ensures state { net_moment self.new ≡ moment_after R.table (net_moment self.old) (event_of cause.entry) }
        ensures machine { Answers R.table self.old.state self.old.spent (event_of cause.entry) reply.now self.new.state }
        ensures counting { self.new.counting ≡ next_counting R.table reply.now self.new.state self.old.counting }
    {
        begin(&mut self.rounds, &self.derived.enabled, reply);
        carry_out(&mut self.net, &mut self.derived, cause, reply);
        self.spent = spent_after::<R>(self.net.store(), self.spent, reply);
        follow::<R>(
            &mut self.rounds,
            &self.derived.enabled,
            &mut self.derived.removals,
            self.spent,
            reply,
        );
    }
}

/// Takes no memory.
#[inline(always)]
fn carry_out<R: Rules>(
    net: &mut NetState,
    derived: &mut Derived<R>,
    cause: Cause<'_>,
    reply: &Reply,
)
    requires reply { (spent : ℕ) × (reply.now ≡ reply_of R.table net.old.state spent (event_of cause)) }
    requires room { HasRoomTo (event_of cause) reply.now net.old.room }
    requires fits { ⟦<Derived<R> as Observer>⟧.fits net.old derived.old }
    ensures state { net.new.state ≡ state_after R.table net.old.state (event_of cause.entry) }
    ensures fits { ⟦<Derived<R> as Observer>⟧.fits net.new derived.new }
    ensures noted { IsTrue (is_step reply.now) → KeepsNotes derived.old.enabled derived.old.removals derived.new.enabled derived.new.removals }
{
    match reply {
        Reply::Accepted => disturb(net, derived, cause),
        Reply::Moves(moves) => make_moves(net, derived, moves.as_slice()),
        _ => {}
    }
}

fn disturb<R: Rules>(net: &mut NetState, derived: &mut Derived<R>, cause: Cause<'_>)
    requires accepted { refusal_of R.table net.old.state (event_of cause) ≡ None }
    requires room { HasRoomTo (event_of cause) Accepted net.old.room }
    requires fits { ⟦<Derived<R> as Observer>⟧.fits net.old derived.old }
    ensures state { net.new.state ≡ disturbed net.old.state (event_of cause.entry) }
    ensures fits { ⟦<Derived<R> as Observer>⟧.fits net.new derived.new }
{
    let Cause::Event(event) = cause else {
        return;
    };
    match event {
        Event::Link(a, b) => link_reserved(net, derived, *a, *b),
        Event::Unlink(a, b) => unlink(net, derived, *a, *b),
        Event::Point(v, target) => set_pointer(net, derived, *v, *target),
        Event::Flag(v, value) => set_flag(net, derived, *v, *value),
        Event::Join(v) => join(net, derived, *v),
        Event::Leave(v) => leave(net, derived, *v),
        _ => {}
    }
}
