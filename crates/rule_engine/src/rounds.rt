//! How many rounds are complete.

ghost use Rattle.std.specs.Prelude.{◌≡◌, ℕ, IfSome, OnErr, OnOk, List, Some};
ghost use Rattle.rule_machine.specs.declared.event.Event.{Event};
ghost use Rattle.rule_machine.specs.declared.reply.Reply.{Reply};
ghost use Rattle.rule_machine.specs.Answer.{Answers, spent_after};
ghost use Rattle.rule_machine.specs.Run.{Entry, Moment};
ghost use Rattle.rule_machine.specs.RuleTable.{RuleTable, enabled_names};
ghost use Rattle.rule_machine.specs.State.{State, IsState};
ghost use Rattle.enabled_set.specs.Members.{members};
ghost use Rattle.machine_laws.specs.ChargeWords.{IsUndisturbed};
ghost use Rattle.round_laws.specs.RoundCounts.{count_of_log, next_counting, rounds_of};
ghost use Rattle.round_laws.specs.Rounds.{rounds_in};
ghost use Rattle.rule_engine.specs.EngineStates.{moment};
ghost use Rattle.rule_engine.specs.PreparedEvents.{net_moment, with_counting};
ghost use Rattle.rule_engine.specs.Rounds.{AreLeaversNoted, CountsRounds, HasRounds, IsReady, counting_in};

use crate::Net;
use enabled_set::{EnabledSet, Removals};
use round_counter::RoundCounter;
use rule_machine::{Reply, Rules, Want};

impl<R: Rules> Net<R> {
    /// Counts rounds from here on, or from here anew.
    /// A step then costs a look or two more at each mover and at each node that it disables. A round's first step
    /// also copies the set of enabled nodes, 64 names at a time. Takes some nine kilobytes.
    /// `AllocError` if memory runs out; nothing has changed then.
    pub fn count_rounds(&mut self) -> Result<(), Want>
        ensures ok { OnOk result (self.new ≡ with_counting R.table self.old) }
        ensures err { OnErr result (self.new ≡ self.old) }
    {
        let counter = RoundCounter::new(self.alloc)?;
        let removals = Removals::new(self.alloc)?;
        self.derived.removals = removals;
        self.rounds = Some(counter);
        Ok(())
    }

    /// The complete rounds since the last accepted disturbance, or since counting began; `None` if rounds are
    /// not counted. Constant time.
    pub fn rounds(&self) -> Option<u32>
        ensures count { result ≡ rounds_of self.now.counting }
        ensures exact { (start : State) (log : List Entry) → IsUndisturbed log → self.now.counting ≡ Some (count_of_log R.table start log) → result ≡ Some (rounds_in R.table start log) }
        ensures some { IfSome self.now.counting (λ count. HasRounds R.table (net_moment self.now) count) }
    {
        match &self.rounds {
            Some(counter) => Some(counter.rounds()),
            None => None,
        }
    }
}

/// Copies the pending nodes before a step, if rounds are counted. Only a step has moves.
#[inline(always)]
pub(crate) fn begin(rounds: &mut Option<RoundCounter>, enabled: &EnabledSet, reply: &Reply)
    ensures ready { IsReady reply.now rounds.new }
    ensures counts { (t : RuleTable) (m : Moment) → members enabled.now ≡ enabled_names t m.state → CountsRounds t m rounds.old → CountsRounds t m rounds.new }
    ensures same { (t : RuleTable) (s : State) → members enabled.now ≡ enabled_names t s → counting_in t s rounds.new ≡ counting_in t s rounds.old }
{
    if let Reply::Moves(_) = reply {
        if let Some(counter) = rounds {
            counter.begin_step(enabled);
        }
    }
}

/// Counts an entry that led to `spent` moves and these enabled nodes, if rounds are counted.
#[inline(always)]
pub(crate) fn follow<R: Rules>(
    rounds: &mut Option<RoundCounter>,
    enabled: &EnabledSet,
    removals: &mut Removals,
    spent: u32,
    reply: &Reply,
)
    ensures { (m : Moment) (event : Event) (next : State) → members enabled.now ≡ enabled_names R.table next
        → IsState m.state → Answers R.table m.state m.spent event reply.now next → spent ≡ spent_after m.spent reply.now
        → IsReady reply.now rounds.old → AreLeaversNoted reply.now rounds.old enabled.now removals.old
        → CountsRounds R.table m rounds.old
        → CountsRounds R.table (moment next spent) rounds.new × (counting_in R.table next rounds.new ≡ next_counting R.table reply.now next (counting_in R.table m.state rounds.old)) }
{
    if let Some(counter) = rounds {
        counter.follow(reply, enabled, removals);
    }
}
