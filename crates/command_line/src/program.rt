//! The program: from the words of the command line to the exit status.

ghost use Rattle.std.specs.Prelude.{◌≡◌, ◌≢◌, ◌⊎◌, ℕ, List, Some, false, true, IfErr, IfOk, IfSome, MatchOption, OnErr, Result, map, string_bytes};
ghost use Rattle.std.specs.Io.KnownBytes.{Appends};
ghost use Rattle.clap.specs.declared.error.kind.ErrorKind.TheVariants.{OutOfMemory};
ghost use Rattle.cli_args.specs.declared.task.Task.{Task};
ghost use Rattle.cli_args.specs.declared.storm_words.ResumeStormWords.{ResumeStormWords};
ghost use Rattle.cli_args.specs.declared.storm_words.StormWords.{StormWords};
ghost use Rattle.std.specs.Borrow.{Bor};
ghost use Rattle.cli_args.specs.declared.request.Request.{Request};
ghost use Rattle.cli_args.specs.TaskWords.{ParsesTo, ReadsFrom, Asks, ParsesAsTask};
ghost use Rattle.clap.specs.declared.error.Error.{Error};
ghost use Rattle.clap.specs.Words.{kind_of};
ghost use Rattle.byte_streams.specs.PartialOutput.{AppendsBeginning};
ghost use Rattle.byte_streams.specs.StreamEnds.{IsEnded};
ghost use Rattle.command_line.specs.FaultText.{bad_present_line, run_fault_line, no_words_line};
ghost use Rattle.command_line.specs.ProgramEnds.{TellsBadPresent, TellsMistake, TellsOutcome, TellsCheck, DoesTask};
ghost use Rattle.command_line.specs.FileEnds.{ActsOnFile, ActsOnWords, DoesOnFile, OpensFile};
ghost use Rattle.command_line.specs.WriterStates.{heard};
ghost use Rattle.command_line.specs.Status.{IsRunStatus, IsStatus, run_status, no_words_status, words_status};
ghost use Rattle.command_line.specs.ViewEnds.{ShowsSome, ShowsText, TellsEarly};

use crate::fault_line::write_fault;
use crate::file_fault::{NotingFile, add_note, file_fault, tell_unread};
use crate::options::network_options;
use crate::playing::play_storm;
use crate::playing_on::resume_storm_file;
use crate::resuming::resume_file;
use crate::run_note::tell_run;
use crate::verdict::check;
use crate::viewing::{draw, list_epochs, show_text};
use byte_streams::{CountingReader, FailStopWriter};
use clap::Error;
use clap::error::ErrorKind;
use cli_args::{Request, Task, read_words};
use script_run::{Options, RefusedLine, RunFault, run};
use std::alloc::{AllocError, Global};
use std::convert::AsStr;
use std::fs::File;
use std::io::{self, Read, Write};
use std::rt::Files;
use std::sync::Wait;
use std::thread::Threads;

/// The exit status of a run that ended early.
///
/// The status is 2 for a bad line; 3 for a failed read or write; 4 for a full log, no memory, or failed
/// workers.
pub fn status(fault: RunFault) -> u8
    ensures { result ≡ run_status fault }
{
    match fault {
        RunFault::BadLine { .. } => 2,
        RunFault::Read | RunFault::Write => 3,
        RunFault::LogFull | RunFault::Memory | RunFault::Pool(_) => 4,
    }
}

/// Writes why a run ended early, as one line, and returns the exit status.
///
/// If a write fails, only a beginning of the line is written; the exit status is the same.
pub fn tell<Faults: Write>(fault: RunFault, faults: &mut FailStopWriter<Faults>) -> u8
    ensures status { result ≡ run_status fault }
    ensures told { AppendsBeginning (Faults.contents faults.old.writer) (Faults.contents faults.new.writer) (run_fault_line fault) }
    ensures whole { faults.new.failed ≡ false → Appends (Faults.contents faults.old.writer) (Faults.contents faults.new.writer) (run_fault_line fault) }
{
    let _ = write_fault(fault, faults);
    status(fault)
}

/// Writes why the words could not be read, as one line, and returns the exit status.
///
/// The status is 2 for a word that is not UTF-8, and 4 for any other failure.
pub fn tell_no_words<Faults: Write>(kind: io::ErrorKind, faults: &mut FailStopWriter<Faults>) -> u8
    ensures status { result ≡ no_words_status kind }
    ensures told { AppendsBeginning (Faults.contents faults.old.writer) (Faults.contents faults.new.writer) (no_words_line kind) }
    ensures whole { faults.new.failed ≡ false → Appends (Faults.contents faults.old.writer) (Faults.contents faults.new.writer) (no_words_line kind) }
{
    if kind == io::ErrorKind::InvalidData {
        let _ = faults.finish(b"! a word is not UTF-8\n");
        return 2;
    }
    tell(RunFault::Memory, faults)
}

/// Writes that more nodes are to be present than there are names, as one line, and returns 2.
pub fn tell_bad_present<Faults: Write>(faults: &mut FailStopWriter<Faults>) -> u8
    ensures status { result ≡ 2 }
    ensures told { AppendsBeginning (Faults.contents faults.old.writer) (Faults.contents faults.new.writer) bad_present_line }
    ensures whole { faults.new.failed ≡ false → Appends (Faults.contents faults.old.writer) (Faults.contents faults.new.writer) bad_present_line }
{
    let _ = faults.finish(b"! bad present\n");
    2
}

// Returns 2 for bad words, also if memory runs out for clap's text. Returns 4 if memory ran out while the
// words were read.
fn refuse<Faults: Write>(alloc: Global, error: Error, faults: &mut FailStopWriter<Faults>) -> u8
    ensures status { result ≡ words_status (kind_of error) }
    ensures device { result ≢ 3 }
    ensures told { TellsMistake (kind_of error) (Faults.contents faults.old.writer) (heard Faults.contents faults.new) }
{
    if error.kind() == ErrorKind::OutOfMemory {
        return tell(RunFault::Memory, faults);
    }
    let Ok(text) = format!(in alloc; "{error}") else {
        tell(RunFault::Memory, faults);
        return 2;
    };
    let _ = faults.finish(text.as_bytes());
    2
}

fn show_made<Out: Write, Faults: Write>(
    made: Result<String, AllocError>,
    writer: &mut FailStopWriter<Out>,
    faults: &mut FailStopWriter<Faults>,
) -> u8
    ensures shown { IfOk made (λ text. ShowsText (string_bytes text) 0 (Out.contents writer.old.writer) (Out.contents writer.new.writer)
        (Faults.contents faults.old.writer) (heard Faults.contents faults.new) result) }
    ensures memory { OnErr made (TellsEarly RunFault.Memory (Out.contents writer.old.writer) (Out.contents writer.new.writer)
        (Faults.contents faults.old.writer) (heard Faults.contents faults.new) result) }
    ensures status { IsStatus result }
    ensures device { result ≡ 3 → writer.new.failed ≡ true }
{
    match made {
        Ok(text) => show_text(text.as_bytes(), 0, writer, faults),
        Err(_) => tell(RunFault::Memory, faults),
    }
}

fn show<Out: Write, Faults: Write>(
    alloc: Global,
    text: Error,
    writer: &mut FailStopWriter<Out>,
    faults: &mut FailStopWriter<Faults>,
) -> u8
    ensures shown { ShowsSome (Out.contents writer.old.writer) (Out.contents writer.new.writer)
        (Faults.contents faults.old.writer) (heard Faults.contents faults.new) result }
    ensures status { IsStatus result }
    ensures device { result ≡ 3 → writer.new.failed ≡ true }
{
    show_made(format!(in alloc; "{text}"), writer, faults)
}

fn run_script<In: Read, Out: Write, Faults: Write, T: Threads + Wait + Sync>(
    rt: &T,
    alloc: Global,
    options: &Options,
    reader: &mut CountingReader<In>,
    writer: &mut FailStopWriter<Out>,
    faults: &mut FailStopWriter<Faults>,
) -> u8
    ensures outcome { IfSome (In.remaining reader.old.reader) (λ script.
        TellsOutcome options.now.rules options.now.nodes options.now.present options.now.limit script
        (Out.contents writer.old.writer) (Out.contents writer.new.writer)
        (Faults.contents faults.old.writer) (heard Faults.contents faults.new) result) }
    ensures status { IsRunStatus result }
    ensures device { result ≡ 3 → IsEnded reader.new.failed reader.new.count ⊎ (writer.new.failed ≡ true) }
{
    let mut refused = RefusedLine::none(alloc);
    match run(rt, alloc, reader, writer, options, &mut refused) {
        Ok(()) => 0,
        Err(fault) => tell_run(alloc, fault, &refused, faults),
    }
}

// Without options, reports too many nodes at the start.
fn run_network<In: Read, Out: Write, Faults: Write, T: Threads + Wait + Sync>(
    rt: &T,
    alloc: Global,
    options: Option<Options>,
    reader: &mut CountingReader<In>,
    writer: &mut FailStopWriter<Out>,
    faults: &mut FailStopWriter<Faults>,
) -> u8
    ensures outcome { IfSome (In.remaining reader.old.reader) (λ script. MatchOption options
        (TellsBadPresent (Out.contents writer.old.writer) (Out.contents writer.new.writer)
        (Faults.contents faults.old.writer) (heard Faults.contents faults.new) result)
        (λ good. TellsOutcome good.rules good.nodes good.present good.limit script
        (Out.contents writer.old.writer) (Out.contents writer.new.writer)
        (Faults.contents faults.old.writer) (heard Faults.contents faults.new) result)) }
    ensures status { IsRunStatus result }
    ensures device { result ≡ 3 → IsEnded reader.new.failed reader.new.count ⊎ (writer.new.failed ≡ true) }
{
    match options {
        Some(options) => run_script(rt, alloc, &options, reader, writer, faults),
        None => tell_bad_present(faults),
    }
}

fn check_transcript<In: Read, Out: Write, Faults: Write>(
    alloc: Global,
    reader: &mut CountingReader<In>,
    writer: &mut FailStopWriter<Out>,
    faults: &mut FailStopWriter<Faults>,
) -> u8
    ensures verdict { IfSome (In.remaining reader.old.reader) (λ bytes.
        TellsCheck bytes (Out.contents writer.old.writer) (Out.contents writer.new.writer)
        (Faults.contents faults.old.writer) (heard Faults.contents faults.new) result) }
    ensures status { IsStatus result }
    ensures device { result ≡ 3 → IsEnded reader.new.failed reader.new.count ⊎ (writer.new.failed ≡ true) }
{
    match check(alloc, reader, writer) {
        Ok(end) => end.status(),
        Err(failed) => tell(failed, faults),
    }
}

/// Does a task, whose script or transcript comes from the reader. Returns the exit status.
///
/// A storm reads its scripts instead, and the help nothing. For the statuses see `start`.
pub fn perform<In: Read, Out: Write, Faults: Write, T: Threads + Wait + Sync + Files>(
    rt: &T,
    alloc: Global,
    task: Task<'_>,
    reader: &mut CountingReader<In>,
    writer: &mut FailStopWriter<Out>,
    faults: &mut FailStopWriter<Faults>,
) -> u8
    ensures does { IfSome (In.remaining reader.old.reader) (λ input. DoesTask task.entry input
        (Out.contents writer.old.writer) (Out.contents writer.new.writer)
        (Faults.contents faults.old.writer) (heard Faults.contents faults.new) result) }
    ensures status { IsStatus result }
    ensures device { result ≡ 3 → OpensFile task.entry ⊎ (IsEnded reader.new.failed reader.new.count ⊎ (writer.new.failed ≡ true)) }
{
    match task {
        Task::Run {
            rules,
            nodes,
            present,
            workers,
        } => {
            let options = network_options(rules, nodes, present, workers);
            run_network(rt, alloc, options, reader, writer, faults)
        }
        Task::Resume { from, workers } => {
            resume_file(rt, alloc, from, workers, reader, writer, faults)
        }
        Task::Audit => check_transcript(alloc, reader, writer, faults),
        Task::Picture { entry } => draw(alloc, entry, reader, writer, faults),
        Task::Epochs => list_epochs(alloc, reader, writer, faults),
        Task::Storm(words) => play_storm(rt, alloc, words, writer, faults),
        Task::ResumeStorm(words) => resume_storm_file(rt, alloc, words, writer, faults),
        Task::Show(text) => show(alloc, text, writer, faults),
    }
}

// A failed read is followed by a line that names the file.
fn perform_on<Opened: Read + Drop, Out: Write, Faults: Write, T: Threads + Wait + Sync + Files>(
    rt: &T,
    alloc: Global,
    task: Task<'_>,
    name: &str,
    opened: Opened,
    writer: &mut FailStopWriter<Out>,
    faults: &mut FailStopWriter<Faults>,
) -> u8
    ensures does { DoesOnFile name.now (Opened.remaining opened) task.entry
        (Out.contents writer.old.writer) (Out.contents writer.new.writer)
        (Faults.contents faults.old.writer) (heard Faults.contents faults.new) result }
    ensures status { IsStatus result }
{
    let mut noting = NotingFile::new(opened);
    let mut reader = CountingReader::new(&mut noting);
    let status = perform(rt, alloc, task, &mut reader, writer, faults);
    add_note(alloc, name, noting.fault, faults);
    status
}

fn perform_on_file<Out: Write, Faults: Write, T: Threads + Wait + Sync + Files>(
    rt: &T,
    alloc: Global,
    task: Task<'_>,
    name: &str,
    writer: &mut FailStopWriter<Out>,
    faults: &mut FailStopWriter<Faults>,
) -> u8
    ensures does { ActsOnFile name.now task.entry (Out.contents writer.old.writer) (Out.contents writer.new.writer)
        (Faults.contents faults.old.writer) (heard Faults.contents faults.new) result }
    ensures status { IsStatus result }
{
    match File::open(rt, name) {
        Ok(opened) => perform_on(rt, alloc, task, name, opened, writer, faults),
        Err(error) => tell_unread(alloc, name, Some(file_fault(error.kind())), faults),
    }
}

/// Does the task of the words, of which the first is the program's name. Returns the exit status.
///
/// | Status | When |
/// |---|---|
/// | 0 | a whole run or storm, an accepted transcript, or a view, the help or the version shown |
/// | 1 | a refused transcript or settle, also the transcript of `--from` |
/// | 2 | bad words, too many nodes at the start, a bad line, too many scripts, or a missing entry |
/// | 3 | a failed read or write, or a file that could not be opened |
/// | 4 | no memory, a full log, or a clerk that is behind |
///
/// If the words name a file other than `-`, the task reads it in place of `reader`. Faults are written to
/// `faults`. After bad words nothing is written to `writer`. Only a run and a storm may wait, for the threads
/// that they start from `rt`.
pub fn start<S: AsStr, In: Read, Out: Write, Faults: Write, T: Threads + Wait + Sync + Files>(
    rt: &T,
    alloc: Global,
    words: &[S],
    reader: &mut CountingReader<In>,
    writer: &mut FailStopWriter<Out>,
    faults: &mut FailStopWriter<Faults>,
) -> u8
    ensures does { IfSome (In.remaining reader.old.reader) (λ input. (request : Result Request Error)
        × IfOk request (λ good. ParsesTo (map S.text words.entry.now) good.task × ReadsFrom (map S.text words.entry.now) good.task good.file)
        × IfErr request (λ e. (task : Task) → ParsesAsTask (map S.text words.entry.now) task → kind_of e ≡ OutOfMemory)
        × ActsOnWords request input (Out.contents writer.old.writer) (Out.contents writer.new.writer)
        (Faults.contents faults.old.writer) (heard Faults.contents faults.new) result) }
    ensures status { IsStatus result }
    ensures device { result ≡ 3 → ((storm : StormWords) × Asks (map S.text words.entry.now) (Task.Storm storm))
        ⊎ (((from : Bor (List ℕ)) × (workers : ℕ) × Asks (map S.text words.entry.now) (Task.Resume from workers))
        ⊎ (((more : ResumeStormWords) × Asks (map S.text words.entry.now) (Task.ResumeStorm more))
        ⊎ (((task : Task) × (file : Bor (List ℕ)) × ReadsFrom (map S.text words.entry.now) task (Some file))
        ⊎ (IsEnded reader.new.failed reader.new.count ⊎ (writer.new.failed ≡ true))))) }
{
    match read_words(alloc, words) {
        Ok(Request { task, file }) => match file {
            None => perform(rt, alloc, task, reader, writer, faults),
            Some(name) => perform_on_file(rt, alloc, task, name, writer, faults),
        },
        Err(error) => refuse(alloc, error, faults),
    }
}
