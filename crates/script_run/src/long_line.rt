//! The turns of a line, whose text is written while they are taken.

ghost use Rattle.std.specs.Prelude.{◌≡◌, ◌<◌, true, IsErrOf};
ghost use Rattle.run_session.specs.Line.{progress_of};
ghost use Rattle.script_run.specs.Line.{TurnsWrite};
ghost use Rattle.script_run.specs.declared.fault.RunFault.TheVariants.{Write as Unwritten};

use crate::RunFault;
use crate::runner::Run;
use crate::writing::hand_over;
use byte_streams::FailStopWriter;
use rule_machine::Rules;
use seeded_turns::EventSource;
use std::io::Write;

// After how many turns the text is looked at: if several nodes move in a turn, one turn's text may be long.
fn turns_at_once(central: bool) -> u32
    ensures { 0 < result }
{
    if central { 256 } else { 1 }
}

impl<R: Rules> Run<R> {
    // Stops at a turn that draws no event. After each 256 turns (`manne`: each turn) the text is written if it
    // has reached 65,536 bytes, so memory does not grow with the number of turns.
    pub fn take_turns<S: EventSource, Out: Write>(
        &mut self,
        source: &mut S,
        count: u32,
        writer: &mut FailStopWriter<Out>,
    ) -> Result<(), RunFault>
        ensures ends { TurnsWrite S.draws R.table self.old.line.recorder.limit count (S.stream source.old)
            (progress_of self.old.line) (progress_of self.new.line) (Out.contents writer.old.writer) (Out.contents writer.new.writer) result }
        ensures unwritten { IsErrOf result Unwritten → writer.new.failed ≡ true }
        ensures limit { self.new.line.recorder.limit ≡ self.old.line.recorder.limit }
    {
        let mut left = count;
        while left > 0 {
            let some = left.min(turns_at_once(R::CENTRAL));
            if !self.line.take_turns(source, some)? {
                return Ok(());
            }
            hand_over(writer, &mut self.line.text)?;
            left -= some;
        }
        Ok(())
    }
}
