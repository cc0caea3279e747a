//! Playing the scripts of several files at once.

ghost use Rattle.std.specs.Prelude.{◌≡◌, Err, length, IfErr, IfOk};
ghost use Rattle.storm_runner.specs.declared.fault.StormFault.TheVariants.{Read as Unheard};
ghost use Rattle.script_run.specs.RunOptions.{asked_of};
ghost use Rattle.cli_args.specs.TaskWords.{present_at_start, storm_of};
ghost use Rattle.command_line.specs.ProgramEnds.{DoesStorm};
ghost use Rattle.command_line.specs.StormEnds.{EndsStorm, FailsToOpen, TellsStormEnd};
ghost use Rattle.command_line.specs.WriterStates.{heard};
ghost use Rattle.command_line.specs.Status.{IsStatus};

use crate::file_fault::{FileFault, add_note, file_fault};
use crate::options::network_options;
use crate::program::tell_bad_present;
use byte_streams::FailStopWriter;
use cli_args::StormWords;
use script_run::Options;
use std::alloc::Global;
use std::fs::{self, File};
use std::io::Write;
use std::rt::Files;
use std::sync::Wait;
use std::thread::Threads;
use steal_pool::NoGate;
use storm_runner::{StormFault, storm, storm_end};

/// A script that is not read, and why.
pub(crate) type Unread<'a> = Option<(&'a str, FileFault)>;

// A folder can be opened, but not read.
fn is_folder<T: Files>(rt: &T, name: &str) -> bool {
    match fs::metadata(rt, name) {
        Ok(found) => found.is_dir(),
        Err(_) => false,
    }
}

fn open_file<'a, T: Files>(rt: &T, name: &'a str) -> Result<T::File, Unread<'a>> {
    match File::open(rt, name) {
        Ok(_) if is_folder(rt, name) => Err(Some((name, FileFault::Folder))),
        Ok(file) => Ok(file),
        Err(error) => Err(Some((name, file_fault(error.kind())))),
    }
}

/// The files, opened in order; `Read` at the first file that cannot be opened, which is named then.
pub(crate) fn open_all<'a, T: Files>(
    rt: &T,
    alloc: Global,
    names: &[&'a str],
) -> Result<Vec<T::File>, (StormFault, Unread<'a>)>
    ensures count { IfOk result (λ files. length files.items ≡ length names.now) }
    ensures fault { IfErr result (λ why. FailsToOpen (length names.now) why.0) }
{
    let mut files = Vec::new(alloc);
    for name in names {
        match open_file(rt, *name) {
            Ok(file) => {
                if files.push(file).is_err() {
                    return Err((StormFault::Memory, None));
                }
            }
            Err(unread) => return Err((StormFault::Read, unread)),
        }
    }
    Ok(files)
}

fn tell_unread_script<Faults: Write>(
    alloc: Global,
    unread: Unread<'_>,
    faults: &mut FailStopWriter<Faults>,
) -> u8
    ensures { TellsStormEnd (Err Unheard) (Faults.contents faults.old.writer) (heard Faults.contents faults.new) result }
{
    let status = storm_end(Err(StormFault::Read), faults);
    if let Some((name, fault)) = unread {
        add_note(alloc, name, Some(fault), faults);
    }
    status
}

/// Reports how a storm ended, and returns the exit status. After a failed read it names the unread script.
pub(crate) fn tell_end<Faults: Write>(
    alloc: Global,
    ended: Result<(), StormFault>,
    unread: Unread<'_>,
    faults: &mut FailStopWriter<Faults>,
) -> u8
    ensures { TellsStormEnd ended (Faults.contents faults.old.writer) (heard Faults.contents faults.new) result }
{
    match ended {
        Err(StormFault::Read) => tell_unread_script(alloc, unread, faults),
        ended => storm_end(ended, faults),
    }
}

fn play_files<'a, Out: Write, T: Threads + Wait + Sync + Files>(
    rt: &T,
    alloc: Global,
    options: &Options,
    names: &[&'a str],
    writer: &mut FailStopWriter<Out>,
) -> (Result<(), StormFault>, Unread<'a>)
    ensures { EndsStorm (asked_of options.now) (length names.now) (Out.contents writer.old.writer) (Out.contents writer.new.writer) result.0 }
{
    match open_all(rt, alloc, names) {
        Ok(files) => (storm(rt, alloc, options, files, writer, &NoGate), None),
        Err((fault, unread)) => (Err(fault), unread),
    }
}

/// Plays the scripts that a storm's words name, and returns the exit status.
///
/// If the words ask for more nodes at the start than there are names, it reports that and plays nothing.
pub fn play_storm<Out: Write, Faults: Write, T: Threads + Wait + Sync + Files>(
    rt: &T,
    alloc: Global,
    words: StormWords<'_>,
    writer: &mut FailStopWriter<Out>,
    faults: &mut FailStopWriter<Faults>,
) -> u8
    ensures played { DoesStorm (storm_of words.entry) (present_at_start words.entry.nodes words.entry.present)
        (Out.contents writer.old.writer) (Out.contents writer.new.writer) (Faults.contents faults.old.writer) (heard Faults.contents faults.new) result }
    ensures status { IsStatus result }
{
    let network = network_options(words.rules, words.nodes, words.present, words.workers);
    let Some(options) = network else {
        return tell_bad_present(faults);
    };
    let options = options.with_roam(u32::from(words.roamers), words.turns);
    let (ended, unread) = play_files(rt, alloc, &options, &words.scripts, writer);
    tell_end(alloc, ended, unread, faults)
}
