//! Playing the scripts of several files at once, from where the run of a file ended.

ghost use Rattle.std.specs.Prelude.{◌≡◌, length};
ghost use Rattle.auditor.specs.TranscriptEnds.{MayGoOn};
ghost use Rattle.cli_args.specs.TaskWords.{resumed_storm_of};
ghost use Rattle.command_line.specs.ResumeEnds.{ResumesStorm, StormsOpened, storm_from};
ghost use Rattle.command_line.specs.Status.{IsStatus};
ghost use Rattle.command_line.specs.StormEnds.{EndsStormFrom};
ghost use Rattle.command_line.specs.WriterStates.{heard};
ghost use Rattle.command_line.specs.StormTexts.{IsAcceptedLog};
ghost use Rattle.script_run.specs.Restarts.{options_at, restart_of};

use crate::file_fault::{file_fault, tell_unread};
use crate::playing::{Unread, open_all, tell_end};
use crate::resuming::{end_in, refuse_file, restart_at};
use auditor::TranscriptEnd;
use byte_streams::FailStopWriter;
use cli_args::ResumeStormWords;
use script_run::Restart;
use std::alloc::Global;
use std::fs::File;
use std::io::{Read, Write};
use std::rt::Files;
use std::sync::Wait;
use std::thread::Threads;
use steal_pool::NoGate;
use storm_runner::{StormFault, resume_storm};

fn play_files_from<'a, Out: Write, T: Threads + Wait + Sync + Files>(
    rt: &T,
    alloc: Global,
    restart: Restart,
    names: &[&'a str],
    writer: &mut FailStopWriter<Out>,
) -> (Result<(), StormFault>, Unread<'a>)
    ensures { EndsStormFrom (IsAcceptedLog (options_at (restart_of restart))) (restart_of restart) (length names.now) (Out.contents writer.old.writer) (Out.contents writer.new.writer) result.0 }
{
    match open_all(rt, alloc, names) {
        Ok(files) => (
            resume_storm(rt, alloc, restart, files, writer, &NoGate),
            None,
        ),
        Err((fault, unread)) => (Err(fault), unread),
    }
}

fn storm_restart(end: TranscriptEnd, words: &ResumeStormWords<'_>) -> Restart
    requires { MayGoOn end }
    ensures { restart_of result ≡ storm_from end (resumed_storm_of words.now) }
{
    restart_at(end, words.workers).with_roam(u32::from(words.roamers), words.turns)
}

fn resume_storm_opened<
    Opened: Read + Drop,
    Out: Write,
    Faults: Write,
    T: Threads + Wait + Sync + Files,
>(
    rt: &T,
    alloc: Global,
    words: &ResumeStormWords<'_>,
    opened: Opened,
    writer: &mut FailStopWriter<Out>,
    faults: &mut FailStopWriter<Faults>,
) -> u8
    ensures resumed { StormsOpened (Opened.remaining opened) (resumed_storm_of words.now) (Out.contents writer.old.writer) (Out.contents writer.new.writer)
        (Faults.contents faults.old.writer) (heard Faults.contents faults.new) result }
    ensures status { IsStatus result }
{
    let mut why = None;
    match end_in(alloc, opened, &mut why) {
        Ok(end) => {
            let restart = storm_restart(end, words);
            let (ended, unread) = play_files_from(rt, alloc, restart, &words.scripts, writer);
            tell_end(alloc, ended, unread, faults)
        }
        Err(fault) => refuse_file(alloc, words.from, fault, why, faults),
    }
}

/// Plays a storm from where the run of a file ended, and returns the exit status.
///
/// The file is a transcript or a base alone. It is audited before the scripts are opened.
///
/// | Status | When |
/// |---|---|
/// | 0 | every script was run |
/// | 1 | the file is refused; `faults` has its name and the audit's verdict. Or a settle is refused |
/// | 2 | a line is not a command, or there are too many scripts |
/// | 3 | the file or a script could not be opened, or a read or a write failed |
/// | 4 | memory ran out, the log is full, or a clerk is behind |
pub fn resume_storm_file<Out: Write, Faults: Write, T: Threads + Wait + Sync + Files>(
    rt: &T,
    alloc: Global,
    words: ResumeStormWords<'_>,
    writer: &mut FailStopWriter<Out>,
    faults: &mut FailStopWriter<Faults>,
) -> u8
    ensures resumed { ResumesStorm (resumed_storm_of words.entry) (Out.contents writer.old.writer) (Out.contents writer.new.writer)
        (Faults.contents faults.old.writer) (heard Faults.contents faults.new) result }
    ensures status { IsStatus result }
{
    match File::open(rt, words.from) {
        Ok(opened) => resume_storm_opened(rt, alloc, &words, opened, writer, faults),
        Err(error) => tell_unread(alloc, words.from, Some(file_fault(error.kind())), faults),
    }
}
