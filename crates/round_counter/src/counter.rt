//! The counter of rounds.

use crate::pending::serve_all;
use enabled_set::{EnabledSet, NameBits, Removals};
use rule_machine::{Reply, Want};
use std::alloc::Global;

/// How many rounds are complete, and which nodes are pending in the present round.
///
/// If `is_new`, a round has just begun: all enabled nodes are pending, whatever the set has.
#[derive(Drop)]
pub struct RoundCounter {
    rounds: u32,
    is_new: bool,
    pending: NameBits,
}

impl RoundCounter {
    ghost use Rattle.std.specs.Prelude.{◌≡◌, ◌≤◌, ◌+◌, cond, false, [], List, IfOk, IsTrue};
    ghost use Rattle.enabled_set.specs.Members.{members};
    ghost use Rattle.enabled_set.specs.RemovedNames.{AreNoted};
    ghost use Rattle.rule_machine.specs.declared.event.Event.{Event};
    ghost use Rattle.rule_machine.specs.RuleTable.{RuleTable, enabled_names};
    ghost use Rattle.rule_machine.specs.Run.{Entry};
    ghost use Rattle.rule_machine.specs.State.{State};
    ghost use Rattle.machine_laws.specs.StatesAfterReplies.{followed};
    ghost use Rattle.round_counter.specs.Counting.{HasCounted, CanCount, count_in, is_step, start_after, log_after};
    ghost use Rattle.round_laws.specs.RoundCounts.{first_count, next_count};

    /// A counter that begins here, with no complete round. It fits a network of any size.
    /// Takes some eight kilobytes. Error: out of memory.
    pub fn new(alloc: Global) -> Result<RoundCounter, Want>
        ensures rounds { IfOk result (λ counter. counter.rounds ≡ 0) }
        ensures count { IfOk result (λ counter. (t : RuleTable) (s : State) → count_in t s counter ≡ first_count t s) }
        ensures counted { IfOk result (λ counter. (t : RuleTable) (s : State) → HasCounted t s [] s counter) }
    {
        Ok(RoundCounter {
            rounds: 0,
            is_new: true,
            pending: NameBits::new(alloc)?,
        })
    }

    /// The complete rounds since the last accepted disturbance, or since counting began. Constant time.
    pub fn rounds(&self) -> u32
        ensures { result ≡ self.now.rounds }
    {
        self.rounds
    }

    /// Lists the pending nodes if a round has just begun. Call it before each step, with the enabled nodes.
    /// Cost: constant within a round. At its beginning, that of copying the set: 64 names at a time.
    #[inline(always)]
    pub fn begin_step(&mut self, enabled: &EnabledSet)
        ensures ready { self.new.is_new ≡ false }
        ensures rounds { self.new.rounds ≡ self.old.rounds }
        ensures count { (t : RuleTable) (s : State) → members enabled.now ≡ enabled_names t s → count_in t s self.new ≡ count_in t s self.old }
        ensures counted { (t : RuleTable) (start : State) (log : List Entry) (s : State) → members enabled.now ≡ enabled_names t s → HasCounted t start log s self.old → HasCounted t start log s self.new }
    {
        if self.is_new {
            self.pending.copy_from(enabled);
            self.is_new = false;
        }
    }

    /// Counts an entry by its reply; `enabled` is the set after it.
    ///
    /// For a step, `removals` has the names that left the set of enabled nodes since the last step, and is empty
    /// afterwards. Names that are enabled again do no harm.
    /// An accepted disturbance begins a new count. A question and a refusal change nothing.
    /// The number of rounds stops at 4,294,967,295, which no run reaches: each round has a move.
    ///
    /// Cost: for a step, a look or two at each mover and at each name that left the set of enabled nodes since the
    /// last step. If these are many, at 64 names at a time. For other entries, constant.
    #[inline(always)]
    pub fn follow(&mut self, reply: &Reply, enabled: &EnabledSet, removals: &mut Removals)
        ensures few { self.new.rounds ≤ self.old.rounds + cond (is_step reply.now) 1 0 }
        ensures count { (t : RuleTable) (s : State) (event : Event)
            → members enabled.now ≡ enabled_names t (followed s event reply.now) → CanCount reply.now self.old
            → (IsTrue (is_step reply.now) → AreNoted self.old.pending enabled.now removals.old)
            → count_in t (followed s event reply.now) self.new ≡ next_count t reply.now (followed s event reply.now) (count_in t s self.old) }
        ensures counted { (t : RuleTable) (start : State) (log : List Entry) (s : State) (event : Event)
            → members enabled.now ≡ enabled_names t (followed s event reply.now) → CanCount reply.now self.old
            → (IsTrue (is_step reply.now) → AreNoted self.old.pending enabled.now removals.old) → HasCounted t start log s self.old
            → HasCounted t (start_after start reply.now (followed s event reply.now)) (log_after log event reply.now) (followed s event reply.now) self.new }
    {
        match reply {
            Reply::Moves(moves) => {
                serve_all(&mut self.pending, enabled, removals, moves.as_slice());
                removals.clear();
                if self.pending.is_empty() {
                    self.rounds = self.rounds.saturating_add(1);
                    self.is_new = true;
                }
            }
            Reply::Accepted => {
                self.rounds = 0;
                self.is_new = true;
            }
            _ => {}
        }
    }
}
