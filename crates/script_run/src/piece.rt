//! Carrying out the lines in a piece of a script.

ghost use Rattle.std.specs.Prelude.{◌≡◌, ◌<◌, ◌≤◌, ◌+◌, ◌^◌, ◌++◌, ℕ, List, [], Option, true, length, IsErrOf, OnOk};
ghost use Rattle.script_text.specs.Script.{Progress, lines_of};
ghost use Rattle.script_run.specs.declared.fault.RunFault.TheVariants.{Read as Unread, Write as Unwritten};
ghost use Rattle.script_run.specs.RunEnds.{EndsReading};
ghost use Rattle.run_session.specs.Line.{progress_of};
ghost use Rattle.script_run.specs.Line.{CarriesLine};
ghost use Rattle.script_run.specs.ReadProgress.{IsReadUpTo, CarriesPiece, extent};

use crate::RunFault;
use crate::read_progress::ReadProgress;
use crate::runner::Run;
use crate::writing::hand_over;
use byte_streams::{FailStopWriter, split_line};
use rule_machine::Rules;
use script_text::MAX_LINE;
use std::alloc::Global;
use std::io::Write;
use std::sync::Wait;
use std::thread::Threads;

impl<R: Rules + Sync> Run<R> {
    // Carries out the line that an earlier piece began, and that `end` completes.
    fn carry_out_ended<T: Threads + Wait + Sync, Out: Write>(
        &mut self,
        rt: &T,
        alloc: Global,
        reading: &mut ReadProgress,
        end: &[u8],
        writer: &mut FailStopWriter<Out>,
    ) -> Result<(), RunFault>
        requires { reading.old.lines + 1 < 2 ^ 64 }
        ensures ends { CarriesLine R.table self.old.line self.new.line (reading.old.lines + 1) (reading.old.begun.items ++ end.now) (Out.contents writer.old.writer) (Out.contents writer.new.writer) result }
        ensures unwritten { IsErrOf result Unwritten → writer.new.failed ≡ true }
        ensures limit { self.new.line.recorder.limit ≡ self.old.line.recorder.limit }
        ensures lines { OnOk result (reading.new.lines ≡ reading.old.lines + 1) }
        ensures begun { OnOk result (reading.new.begun.items ≡ []) }
    {
        reading.lines += 1;
        let joined = !reading.begun.is_empty();
        if joined {
            reading.begun.extend_from_slice(end)?;
        }
        let line = if joined {
            reading.begun.as_slice()
        } else {
            end
        };
        self.carry_out(rt, alloc, reading.lines, line, writer)?;
        reading.begun.clear();
        Ok(())
    }

    // Writes the text whenever it has reached 65,536 bytes. A line too long to be a command is bad before its
    // end is read.
    pub fn carry_out_piece<Out: Write, T: Threads + Wait + Sync>(
        &mut self,
        rt: &T,
        alloc: Global,
        reading: &mut ReadProgress,
        piece: &[u8],
        writer: &mut FailStopWriter<Out>,
    ) -> Result<(), RunFault>
        requires { extent reading.old + length piece.now < 2 ^ 64 }
        ensures piece { CarriesPiece R.table self.old.line.recorder.limit piece.now reading.old reading.new
            (progress_of self.old.line) (progress_of self.new.line) (Out.contents writer.old.writer) (Out.contents writer.new.writer) result }
        ensures unwritten { IsErrOf result Unwritten → writer.new.failed ≡ true }
        ensures reads { IsErrOf result Unread → ⊥ }
        ensures room { OnOk result (extent reading.new ≤ extent reading.old + length piece.now) }
        ensures limit { self.new.line.recorder.limit ≡ self.old.line.recorder.limit }
    {
        let mut rest = piece;
        while let Some((end, behind)) = split_line(rest) {
            self.carry_out_ended(rt, alloc, reading, end, writer)?;
            hand_over(writer, &mut self.line.text)?;
            rest = behind;
        }
        if reading.begun.len() + rest.len() > MAX_LINE {
            let line = reading.lines + 1;
            self.refused.keep_long(&reading.begun, rest);
            return Err(RunFault::BadLine { line });
        }
        match reading.begun.extend_from_slice(rest) {
            Ok(()) => Ok(()),
            Err(_) => Err(RunFault::Memory),
        }
    }

    // At the end of the script: carries out the begun line, if there is one.
    pub fn carry_out_last<T: Threads + Wait + Sync, Out: Write>(
        &mut self,
        rt: &T,
        alloc: Global,
        reading: &ReadProgress,
        writer: &mut FailStopWriter<Out>,
    ) -> Result<(), RunFault>
        requires { reading.now.lines + 1 < 2 ^ 64 }
        ensures unwritten { IsErrOf result Unwritten → writer.new.failed ≡ true }
        ensures reads { IsErrOf result Unread → ⊥ }
        ensures last { (start : Progress) (old : Option (List ℕ)) (read : List ℕ)
            → IsReadUpTo R.table self.old.line.recorder.limit start old read reading.now.begun.items [] reading.now.lines (progress_of self.old.line) (Out.contents writer.old.writer)
            → EndsReading R.table self.old.line.recorder.limit (lines_of read) start old (Out.contents writer.new.writer) self.new.line.text.items result }
        ensures limit { self.new.line.recorder.limit ≡ self.old.line.recorder.limit }
    {
        if reading.begun.is_empty() {
            return Ok(());
        }
        self.carry_out(rt, alloc, reading.lines + 1, &reading.begun, writer)?;
        Ok(())
    }
}
