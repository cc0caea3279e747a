//! The count.

ghost use Rattle.std.specs.Prelude.{◌≡◌, ◌+◌, false, length, IsTrue, List};
ghost use Rattle.enabled_set.specs.Members.{members};
ghost use Rattle.rule_machine.specs.Run.{Entry};
ghost use Rattle.rule_machine.specs.RuleTable.{RuleTable, enabled_names};
ghost use Rattle.rule_machine.specs.State.{State};
ghost use Rattle.round_counter.specs.Counting.{HasCounted, is_step};

use crate::around::mark_affected;
use crate::looks::look_again;
use enabled_set::{EnabledSet, Marks, Removals};
use reply_checker::{Judge, Witness};
use round_counter::RoundCounter;
use rule_machine::{Event, Reply, RuleSet, Want};
use std::alloc::Global;

/// How many rounds are complete in a run that a judge follows, and which nodes are enabled.
///
/// A name is due from the call before an entry, which may enable or disable a rule there, to the call after it.
/// `removals` has the names that left the set since the last step.
/// `witnesses` has the witness of each name.
#[derive(Drop)]
pub struct JudgedRounds {
    rules: RuleSet,
    size: u32,
    enabled: EnabledSet,
    removals: Removals,
    due: Marks,
    witnesses: Vec<Witness>,
    counter: RoundCounter,
    ghost places: { length enabled ≡ size + 1 },
    ghost due_places: { length due ≡ size + 1 },
    ghost witness_places: { length witnesses.items ≡ size + 1 },
}

/// Copies the pending nodes before a step.
fn begin(counter: &mut RoundCounter, enabled: &EnabledSet, reply: &Reply)
    ensures ready { IsTrue (is_step reply.now) → counter.new.is_new ≡ false }
    ensures rounds { counter.new.rounds ≡ counter.old.rounds }
    ensures counted { (t : RuleTable) (start : State) (log : List Entry) (s : State) → members enabled.now ≡ enabled_names t s
        → HasCounted t start log s counter.old → HasCounted t start log s counter.new }
{
    if let Reply::Moves(_) = reply {
        counter.begin_step(enabled);
    }
}

impl JudgedRounds {
    ghost use Rattle.std.specs.Prelude.{◌≡◌, ◌<◌, ◌≤◌, ◌+◌, cond, [], List, IfOk};
    ghost use Rattle.rule_machine.specs.declared.event.Event.{Event};
    ghost use Rattle.rule_machine.specs.Run.{Entry};
    ghost use Rattle.rule_machine.specs.State.{State};
    ghost use Rattle.machine_laws.specs.StatesAfterReplies.{followed};
    ghost use Rattle.round_counter.specs.Counting.{is_step, start_after, log_after};
    ghost use Rattle.judged_rounds.specs.Following.{CountsIn, IsReadyFor};

    /// A count by these rules that begins in the judge's state, with no complete round.
    ///
    /// Cost: a look at each name. Takes some nine kilobytes and ten bytes a name. Error: out of memory.
    pub fn new(alloc: Global, rules: RuleSet, judge: &Judge) -> Result<JudgedRounds, Want>
        ensures rules { IfOk result (λ it. it.rules ≡ rules) }
        ensures rounds { IfOk result (λ it. it.counter.rounds ≡ 0) }
        ensures counts { IfOk result (CountsIn judge.now [] judge.now) }
    {
        let size = judge.net().capacity();
        let mut enabled = EnabledSet::new(alloc, size)?;
        let mut removals = Removals::new(alloc)?;
        let mut due = Marks::new(alloc, size)?;
        due.mark_all();
        let mut witnesses = vec![in alloc; Witness::new(); size as usize + 1]?;
        let counter = RoundCounter::new(alloc)?;
        // Gives the prover `IsState`.
        let _ = judge.net();
        look_again(
            &mut enabled,
            &mut removals,
            &mut due,
            &mut witnesses,
            judge,
            rules,
        );
        Ok(JudgedRounds {
            rules,
            size,
            enabled,
            removals,
            due,
            witnesses,
            counter,
        })
    }

    /// The complete rounds since the last accepted disturbance, or since counting began. Constant time.
    pub fn rounds(&self) -> u32
        ensures { result ≡ self.now.counter.rounds }
    {
        self.counter.rounds()
    }

    /// Marks the names whose rules an event with this reply may enable or disable.
    ///
    /// Call it before the judge carries the event out. Cost: for each node that moves, or whose registers a fault
    /// writes, a look at the witness of each neighbour. For an edge or node that goes, a mark at each neighbour of
    /// its ends or of the node; for a node that leaves, also at the neighbours of each node that points at it. At
    /// a round's beginning, a copy of the set of enabled nodes, 64 names at a time.
    pub fn prepare(&mut self, judge: &Judge, event: &Event, reply: &Reply)
        ensures rules { self.new.rules ≡ self.old.rules }
        ensures rounds { self.new.counter.rounds ≡ self.old.counter.rounds }
        ensures ready { (start : State) (log : List Entry) → CountsIn start log judge.now self.old → IsReadyFor start log judge.now event.now reply.now self.new }
    {
        begin(&mut self.counter, &self.enabled, reply);
        mark_affected(
            &mut self.due,
            self.size,
            &self.witnesses,
            judge,
            event,
            reply,
        );
    }

    /// Counts an entry that `prepare` was called with, after the judge carried it out.
    ///
    /// Cost: for each marked name, a look at the neighbour that called last and, if it no longer calls, at the
    /// neighbours after it, in turn, up to the next that does. For a step, also a look or two at each mover and at
    /// each name that left the set of enabled nodes since the last step. If these are many, at 64 names at a time.
    pub fn follow(&mut self, judge: &Judge, reply: &Reply)
        ensures rules { self.new.rules ≡ self.old.rules }
        ensures few { self.new.counter.rounds ≤ self.old.counter.rounds + cond (is_step reply.now) 1 0 }
        ensures counts { (start : State) (log : List Entry) (s : State) (event : Event) → IsReadyFor start log s event reply.now self.old → judge.now ≡ followed s event reply.now → self.old.counter.rounds < 4294967295
            → CountsIn (start_after start reply.now judge.now) (log_after log event reply.now) judge.now self.new }
    {
        // Gives the prover `IsState`.
        let _ = judge.net();
        look_again(
            &mut self.enabled,
            &mut self.removals,
            &mut self.due,
            &mut self.witnesses,
            judge,
            self.rules,
        );
        self.counter
            .follow(reply, &self.enabled, &mut self.removals);
    }
}
