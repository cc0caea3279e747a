//! Steps whose items several workers judge.

ghost use Rattle.std.specs.Prelude.{◌≡◌, ◌<◌, ◌≤◌, ◌/◌, IsErrOf, MatchOption, length, max, min};
ghost use Rattle.rule_machine.specs.declared.event.Event.TheVariants.{Step};
ghost use Rattle.line_text.specs.EventText.{event_text};
ghost use Rattle.run_session.specs.Line.{progress_of};
ghost use Rattle.script_run.specs.Line.{StepEnds};
ghost use Rattle.step_log.specs.declared.fault.RecordFault.TheVariants.{LogFull};

use crate::runner::Run;
use line_text::put_entry_of_line;
use rule_machine::{Choice, Rules};
use std::alloc::Global;
use std::sync::Wait;
use std::thread::Threads;
use steal_pool::{NoGate, evaluate, paying_workers};
use step_log::RecordFault;

impl<R: Rules> Run<R> {
    // How many workers judge a step, if it is worth more than one.
    pub fn workers_for(&self, choice: &Choice) -> Option<u32>
        ensures { MatchOption result
            (min self.now.workers (min (max (length choice.now / 16384) 1) 64) ≤ 1)
            (λ workers. (1 < workers) × (workers ≡ min self.now.workers (min (max (length choice.now / 16384) 1) 64))) }
    {
        let workers = paying_workers(self.workers, choice.items().len());
        if workers > 1 {
            return Some(workers);
        }
        None
    }
}

impl<R: Rules + Sync> Run<R> {
    // A full log is reported before any item is judged.
    pub fn log_step<T: Threads + Wait + Sync>(
        &mut self,
        rt: &T,
        alloc: Global,
        choice: &Choice,
        line: &[u8],
        workers: u32,
    ) -> Result<(), RecordFault>
        requires text { line.now ≡ event_text (Step choice.now) }
        requires some { 0 < workers }
        ensures ends { StepEnds R.table self.old.line.recorder.limit (Step choice.now) (progress_of self.old.line) (progress_of self.new.line) result }
        ensures full { self.old.line.recorder.len ≡ self.old.line.recorder.limit → IsErrOf result LogFull }
        ensures limit { self.new.line.recorder.limit ≡ self.old.line.recorder.limit }
    {
        if self.line.recorder.is_full() {
            return Err(RecordFault::LogFull);
        }
        let net = self.line.recorder.net();
        let Ok(verdicts) = evaluate(rt, alloc, net, choice, workers, &NoGate) else {
            return Err(RecordFault::Memory);
        };
        let answer = self.line.recorder.log_step(choice, &verdicts)?;
        put_entry_of_line(&mut self.line.text, answer.seq, line, &answer.reply)?;
        Ok(())
    }
}
