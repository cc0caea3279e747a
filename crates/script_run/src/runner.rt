//! The run of a script under one rule set.

ghost use Rattle.std.specs.Prelude.{◌≡◌, true, IfOk, IfSome, IsErrOf, OnOk};
ghost use Rattle.std.specs.Io.KnownBytes.{Appends, IsAtEnd};
ghost use Rattle.script_text.specs.Command.{Says};
ghost use Rattle.script_text.specs.Script.{lines_of};
ghost use Rattle.byte_streams.specs.StreamEnds.{IsEnded};
ghost use Rattle.script_run.specs.RunEnds.{EndsReading, SplitsOutput, ends_unwritten};
ghost use Rattle.run_session.specs.RunStart.{first_progress};
ghost use Rattle.run_session.specs.Line.{progress_of};
ghost use Rattle.script_run.specs.Line.{CommandEndsAtOnce, CommandWrites, CarriesLine};
ghost use Rattle.script_run.specs.declared.fault.RunFault.TheVariants.{Read as Unread, Write as Unwritten};
ghost use Rattle.script_run.specs.Outcome.{EndsFrom};
ghost use Rattle.script_run.specs.WholeLines.{DoesWholeLines};

use crate::read_progress::{ReadProgress, read_on};
use crate::writing::hand_over_all;
use crate::{Options, RefusedLine, RunFault};
use byte_streams::{CountingReader, FailStopWriter, chunk_of};
use rule_machine::{Event, Rules, Want};
use run_session::{Run as LineRun, read_command};
use script_text::Command;
use seeded_turns::{daemon_of_seed, injector_of_seed};
use std::alloc::Global;
use std::io::{Read, Write};
use std::mem;
use std::sync::Wait;
use std::thread::Threads;
use step_log::RecordFault;

/// A run whose text is the unwritten part of the transcript, how many workers judge a step, and the line that
/// was refused.
#[derive(Drop)]
pub struct Run<R: Rules> {
    pub line: LineRun<R>,
    pub workers: u32,
    pub refused: RefusedLine,
}

impl<R: Rules> Run<R> {
    fn new(alloc: Global, options: &Options) -> Result<Run<R>, Want>
        ensures begins { IfOk result (λ run. progress_of run.line ≡ first_progress options.now.rules options.now.nodes options.now.present) }
        ensures limit { IfOk result (λ run. run.line.recorder.limit ≡ options.now.limit) }
        ensures workers { IfOk result (λ run. run.workers ≡ options.now.workers) }
    {
        let (nodes, present) = (options.nodes(), options.present());
        let line = LineRun::new(alloc, options.rules(), nodes, present, options.limit())?;
        let workers = options.workers();
        let refused = RefusedLine::none(alloc);
        Ok(Run {
            line,
            workers,
            refused,
        })
    }
}

impl<R: Rules + Sync> Run<R> {
    // Workers judge the items of a step that is worth more than one worker. Writes no text.
    #[inline(always)]
    fn follow_at_once<T: Threads + Wait + Sync>(
        &mut self,
        rt: &T,
        alloc: Global,
        command: &Command,
        line: &[u8],
    ) -> Result<(), RecordFault>
        requires { Says line.now command.now }
        ensures ends { CommandEndsAtOnce R.table self.old.line.recorder.limit command.now (progress_of self.old.line) (progress_of self.new.line) result }
        ensures limit { self.new.line.recorder.limit ≡ self.old.line.recorder.limit }
    {
        if let Command::Tell(Event::Step(choice)) = command {
            if let Some(workers) = self.workers_for(choice) {
                return self.log_step(rt, alloc, choice, line, workers);
            }
        }
        self.line.follow(alloc, command, line)
    }

    // Only turns are written before the line ends.
    #[inline(always)]
    fn follow<T: Threads + Wait + Sync, Out: Write>(
        &mut self,
        rt: &T,
        alloc: Global,
        command: &Command,
        line: &[u8],
        writer: &mut FailStopWriter<Out>,
    ) -> Result<(), RunFault>
        requires { Says line.now command.now }
        ensures ends { CommandWrites R.table self.old.line.recorder.limit command.now (progress_of self.old.line) (progress_of self.new.line)
            (Out.contents writer.old.writer) (Out.contents writer.new.writer) result }
        ensures unwritten { IsErrOf result Unwritten → writer.new.failed ≡ true }
        ensures limit { self.new.line.recorder.limit ≡ self.old.line.recorder.limit }
    {
        match command {
            Command::Drive(turns) => {
                let mut daemon = daemon_of_seed(alloc, turns.seed);
                self.take_turns(&mut daemon, turns.count, writer)
            }
            Command::Scramble(turns) => {
                let mut injector = injector_of_seed(turns.seed);
                self.take_turns(&mut injector, turns.count, writer)
            }
            _ => Ok(self.follow_at_once(rt, alloc, command, line)?),
        }
    }

    #[inline(always)]
    fn carry_out_line<T: Threads + Wait + Sync, Out: Write>(
        &mut self,
        rt: &T,
        alloc: Global,
        number: u64,
        line: &[u8],
        writer: &mut FailStopWriter<Out>,
    ) -> Result<(), RunFault>
        ensures ends { CarriesLine R.table self.old.line self.new.line number line.now (Out.contents writer.old.writer) (Out.contents writer.new.writer) result }
        ensures unwritten { IsErrOf result Unwritten → writer.new.failed ≡ true }
        ensures limit { self.new.line.recorder.limit ≡ self.old.line.recorder.limit }
    {
        let mut command = Command::Checkpoint;
        if !read_command(alloc, number, line, &mut command)? {
            return Ok(());
        }
        self.follow(rt, alloc, &command, line, writer)
    }

    // The same, and keeps a bad line.
    #[inline(always)]
    pub fn carry_out<T: Threads + Wait + Sync, Out: Write>(
        &mut self,
        rt: &T,
        alloc: Global,
        number: u64,
        line: &[u8],
        writer: &mut FailStopWriter<Out>,
    ) -> Result<(), RunFault>
        ensures ends { CarriesLine R.table self.old.line self.new.line number line.now (Out.contents writer.old.writer) (Out.contents writer.new.writer) result }
        ensures unwritten { IsErrOf result Unwritten → writer.new.failed ≡ true }
        ensures limit { self.new.line.recorder.limit ≡ self.old.line.recorder.limit }
    {
        let done = self.carry_out_line(rt, alloc, number, line, writer);
        if let Err(RunFault::BadLine { .. }) = done {
            self.refused.keep(line);
        }
        done
    }

    // Reads a script and carries out its lines. Before each read, all text so far is written and flushed.
    fn carry_out_all<In: Read, Out: Write, T: Threads + Wait + Sync>(
        &mut self,
        rt: &T,
        alloc: Global,
        reader: &mut CountingReader<In>,
        writer: &mut FailStopWriter<Out>,
    ) -> Result<(), RunFault>
        ensures outcome { IfSome (In.remaining reader.old.reader) (λ script.
            EndsReading R.table self.old.line.recorder.limit (lines_of script) (progress_of self.old.line)
            (Out.contents writer.old.writer) (Out.contents writer.new.writer) self.new.line.text.items result) }
        ensures whole { IsErrOf result Unread → DoesWholeLines R.table self.old.line.recorder.limit (progress_of self.old.line)
            (In.remaining reader.old.reader) (In.remaining reader.new.reader)
            (λ text. SplitsOutput (Out.contents writer.old.writer) (Out.contents writer.new.writer) text self.new.line.text.items) }
        ensures read { OnOk result (IsAtEnd (In.remaining reader.new.reader)) }
        ensures unread { IsErrOf result Unread → IsEnded reader.new.failed reader.new.count }
        ensures unwritten { IsErrOf result Unwritten → writer.new.failed ≡ true }
    {
        let Ok(mut chunk) = chunk_of(alloc) else {
            return Err(RunFault::Memory);
        };
        let mut reading = ReadProgress::new(alloc);
        loop {
            hand_over_all(writer, &mut self.line.text)?;
            let Ok(len) = read_on(reader, &mut chunk, &self.line.text) else {
                return Err(RunFault::Read);
            };
            if len == 0 {
                return self.carry_out_last(rt, alloc, &reading, writer);
            }
            self.carry_out_piece(rt, alloc, &mut reading, &chunk[..len], writer)?;
        }
    }
}

fn is_unwritten(ended: Result<(), RunFault>) -> bool
    ensures { result ≡ ends_unwritten ended }
{
    match ended {
        Err(RunFault::Write) => true,
        _ => false,
    }
}

/// Carries out the lines of a script in a run that has begun, and writes the run's text.
///
/// A line that is no command is put into `refused`.
pub fn play<R: Rules + Sync, In: Read, Out: Write, T: Threads + Wait + Sync>(
    rt: &T,
    alloc: Global,
    run: Run<R>,
    reader: &mut CountingReader<In>,
    writer: &mut FailStopWriter<Out>,
    refused: &mut RefusedLine,
) -> Result<(), RunFault>
    ensures outcome { IfSome (In.remaining reader.old.reader) (λ script.
        EndsFrom R.table run.line.recorder.limit (progress_of run.line) script
        (Out.contents writer.old.writer) (Out.contents writer.new.writer) result) }
    ensures whole { IsErrOf result Unread → DoesWholeLines R.table run.line.recorder.limit (progress_of run.line)
        (In.remaining reader.old.reader) (In.remaining reader.new.reader) (Appends (Out.contents writer.old.writer) (Out.contents writer.new.writer)) }
    ensures read { OnOk result (IsAtEnd (In.remaining reader.new.reader)) }
    ensures unread { IsErrOf result Unread → IsEnded reader.new.failed reader.new.count }
    ensures unwritten { IsErrOf result Unwritten → writer.new.failed ≡ true }
{
    let mut run = run;
    let ended = run.carry_out_all(rt, alloc, reader, writer);
    mem::swap(refused, &mut run.refused);
    if is_unwritten(ended) {
        return ended;
    }
    writer.finish(&run.line.text)?;
    ended
}

/// Runs a script under the rules `R`, and writes its transcript.
pub fn run_on<R: Rules + Sync, In: Read, Out: Write, T: Threads + Wait + Sync>(
    rt: &T,
    alloc: Global,
    reader: &mut CountingReader<In>,
    writer: &mut FailStopWriter<Out>,
    options: &Options,
    refused: &mut RefusedLine,
) -> Result<(), RunFault>
    ensures outcome { IfSome (In.remaining reader.old.reader) (λ script.
        EndsFrom R.table options.now.limit (first_progress options.now.rules options.now.nodes options.now.present) script
        (Out.contents writer.old.writer) (Out.contents writer.new.writer) result) }
    ensures whole { IsErrOf result Unread → DoesWholeLines R.table options.now.limit (first_progress options.now.rules options.now.nodes options.now.present)
        (In.remaining reader.old.reader) (In.remaining reader.new.reader) (Appends (Out.contents writer.old.writer) (Out.contents writer.new.writer)) }
    ensures read { OnOk result (IsAtEnd (In.remaining reader.new.reader)) }
    ensures unread { IsErrOf result Unread → IsEnded reader.new.failed reader.new.count }
    ensures unwritten { IsErrOf result Unwritten → writer.new.failed ≡ true }
{
    let Ok(run) = Run::<R>::new(alloc, options) else {
        return Err(RunFault::Memory);
    };
    play(rt, alloc, run, reader, writer, refused)
}
