//! How many rounds are complete, and how many can still come. Asking makes no entry.

ghost use Rattle.std.specs.Prelude.{◌≡◌, IfSome, OnErr, OnOk, List, Some};
ghost use Rattle.round_laws.specs.RoundCounts.{rounds_of};
ghost use Rattle.round_laws.specs.Rounds.{rounds_in};
ghost use Rattle.rule_machine.specs.Run.{Entry};
ghost use Rattle.rule_machine.specs.State.{State};
ghost use Rattle.rule_machine.specs.Tables.{table_of};
ghost use Rattle.rule_engine.specs.Rounds.{HasRounds};
ghost use Rattle.rule_engine.specs.RoundsLeft.{LeavesIfCounted};
ghost use Rattle.rudekpi_c.specs.RoundCalls.{AnswersCounting, AnswersRounds, AnswersRoundsLeft, CountsLog, counted_from};
ghost use Rattle.rudekpi_c.specs.Session.{stands, rules_of, stands_at, rules_at, HasSameRules};
ghost use Rattle.rudekpi_c.specs.declared.session.Session.{Session};

use crate::session::{Machine, Session, with_run};
use crate::slot::{Slot, look};
use crate::status::{DONE, MEMORY, NO_SESSION, NOT_COUNTED, ok_or, some_or};
use rule_machine::Want;
use std::alloc::Global;

impl Machine {
    fn count_rounds(&mut self) -> Result<(), Want>
        ensures ok { OnOk result (stands_at self.new ≡ counted_from (table_of (rules_at self.old)) (stands_at self.old)) }
        ensures err { OnErr result (self.new ≡ self.old) }
        ensures same { HasSameRules self.old self.new }
    {
        with_run!(self, run => run.recorder.count_rounds())
    }
}

impl Session {
    fn rounds(&self) -> Option<u32>
        ensures rounds { result ≡ rounds_of (stands self.now).counting }
        ensures some { IfSome (stands self.now).counting (λ count. HasRounds (table_of (rules_of self.now)) (stands self.now).moment count) }
    {
        with_run!(&self.machine, run => run.recorder.net().rounds())
    }

    fn rounds_left(&mut self) -> Option<u32>
        ensures left { LeavesIfCounted (table_of (rules_of self.old)) (stands self.old).moment (stands self.old).counting result }
        ensures kept { self.new ≡ self.old }
    {
        with_run!(&mut self.machine, run => run.recorder.rounds_left())
    }
}

/// Counts the rounds of a session from here on, or from here anew.
///
/// Returns 3 if memory runs out, and 4 if there is no session; then nothing has changed. Takes some nine
/// kilobytes. From then on a step costs a look or two more at each mover and at each node that it disables.
#[unsafe(no_mangle)]
pub extern "C" fn rudekpi_count_rounds(alloc: Global, slot: &mut Slot) -> u32
    ensures { AnswersCounting result slot.old.handle.value slot.new.handle.value }
{
    let done = look!(alloc, slot, NO_SESSION, session => session.machine.count_rounds());
    ok_or!(done, MEMORY);
    DONE
}

/// Writes how many rounds are complete since the last accepted disturbance, or since counting began.
///
/// Returns 4 if there is no session, and 10 if rounds are not counted; then 0 is written. Constant time.
#[unsafe(no_mangle)]
pub extern "C" fn rudekpi_rounds(alloc: Global, slot: &mut Slot, rounds: &mut u32) -> u32
    ensures answers { AnswersRounds result rounds.new slot.old.handle.value }
    ensures exact { (session : Session) (start : State) (log : List Entry) → slot.old.handle.value ≡ Some session → CountsLog session start log
        → (result ≡ 0) × (rounds.new ≡ rounds_in (table_of (rules_of session)) start log) }
    ensures kept { slot.new.handle.value ≡ slot.old.handle.value }
{
    *rounds = 0;
    let found = look!(alloc, slot, NO_SESSION, session => session.rounds());
    *rounds = some_or!(found, NOT_COUNTED);
    DONE
}

/// Writes how many rounds can still be completed before the next accepted edit or fault: 0 in silence.
///
/// Returns 4 if there is no session, and 10 if rounds are not counted; then 0 is written.
#[unsafe(no_mangle)]
pub extern "C" fn rudekpi_rounds_left(alloc: Global, slot: &mut Slot, left: &mut u32) -> u32
    ensures answers { AnswersRoundsLeft result left.new slot.old.handle.value }
    ensures kept { slot.new.handle.value ≡ slot.old.handle.value }
{
    *left = 0;
    let found = look!(alloc, slot, NO_SESSION, session => session.rounds_left());
    *left = some_or!(found, NOT_COUNTED);
    DONE
}
