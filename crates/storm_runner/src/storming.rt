//! A storm: scripts read, played at once on one network, settled and written.

ghost use Rattle.std.specs.Prelude.{◌≡◌, ◌≤◌, true, length, map, IfErr, IfOk, IfSome, IsErrOf};
ghost use Rattle.script_run.specs.Restarts.{restart_of};
ghost use Rattle.script_run.specs.RunOptions.{asked_of};
ghost use Rattle.step_log.specs.JournalViews.{kept_of};
ghost use Rattle.storm_runner.specs.Outcome.{EndsUnder, IsResumedStorm, IsStormOutcome, Leaves};
ghost use Rattle.storm_runner.specs.StormParts.{FailsToPlay, GoesOnAs, start_of};
ghost use Rattle.storm_runner.specs.declared.fault.StormFault.TheVariants.{Write as Unwritten};

use crate::log::write_log;
use crate::opening::net_for;
use crate::{StormFault, WorkerConfig, play_scripts};
use byte_streams::FailStopWriter;
use locked_net::CallFault;
use rule_machine::{RuleSet, Rules};
use rules_hsu_huang::HsuHuang;
use rules_manne::Manne;
use script_run::{Options, Restart};
use script_text::{Script, read_scripts};
use std::alloc::Global;
use std::io::{Read, Write};
use std::sync::Wait;
use std::thread::Threads;
use steal_pool::Gate;
use step_log::Journal;

fn play<R: Rules + Send + Sync, G: Gate + Sync, T: Threads + Wait + Sync>(
    rt: &T,
    alloc: Global,
    options: &Options,
    restart: Option<Restart>,
    scripts: &[Script],
    gate: &G,
) -> Result<(Journal<R>, Option<CallFault>), StormFault>
    requires few { length scripts.now ≤ 64 }
    requires start { IfSome restart (GoesOnAs R.table R.NODE_WEIGHT (asked_of options.now)) }
    ensures log { IfOk result (λ left. Leaves R.table R.NODE_WEIGHT (start_of (asked_of options.now) restart) scripts.now left.1 (kept_of left.0)) }
    ensures fault { IfErr result (FailsToPlay R.table (start_of (asked_of options.now) restart) scripts.now) }
{
    let Ok(net) = net_for(rt, alloc, options, restart) else {
        return Err(StormFault::Memory);
    };
    let config = WorkerConfig {
        workers: options.workers(),
        roamers: options.roamers(),
        turns: options.turns(),
    };
    Ok(play_scripts(rt, alloc, net, scripts, config, gate)?)
}

fn storm_on<
    R: Rules + Send + Sync,
    In: Read + Drop,
    Out: Write,
    G: Gate + Sync,
    T: Threads + Wait + Sync,
>(
    rt: &T,
    alloc: Global,
    options: &Options,
    restart: Option<Restart>,
    readers: Vec<In>,
    writer: &mut FailStopWriter<Out>,
    gate: &G,
) -> Result<(), StormFault>
    requires start { IfSome restart (GoesOnAs R.table R.NODE_WEIGHT (asked_of options.now)) }
    ensures outcome { EndsUnder R.table R.NODE_WEIGHT (start_of (asked_of options.now) restart) In.remaining readers.items
        Out.contents writer.old.writer writer.new.writer result }
    ensures unwritten { IsErrOf result Unwritten → writer.new.failed ≡ true }
{
    let scripts = read_scripts(alloc, readers)?;
    let (journal, fault) = play::<R, G, T>(rt, alloc, options, restart, &scripts, gate)?;
    write_log(alloc, options, &journal, writer)?;
    match fault {
        Some(fault) => Err(StormFault::from(fault)),
        None => Ok(()),
    }
}

/// Plays a script from each reader at once on one new network, and writes the settled log.
///
/// Each script has its own clerk. The options say how many workers roam meanwhile, and how many workers
/// evaluate a `step`. The text is a header, an entry for each answered command of a script, and an entry for
/// each node that a worker moved. If scripts made checkpoints, the text is the lines of the last checkpoint's
/// base and the entries after it. Without readers the text is only the header.
///
/// The first of these errors is returned:
///
/// | Error | When | Written before it |
/// |---|---|---|
/// | `TooManyScripts` | above 64 readers | nothing |
/// | `Read`, `BadLine` | script by script: the reader's first error; the first line neither empty nor a command | nothing |
/// | `Unsettled` | the receipts do not account for the log | nothing |
/// | `Write` | only if a write or a flush failed | a beginning of the text |
/// | `LogFull`, `Behind`, `Memory` | the fault of the first script that met one, or else of the first worker | all of the text |
///
/// `LogFull` comes from a command or turn beyond the limit, and `Memory` in this row from a call. The script
/// or worker that meets a fault ends there, and the others go on. `Memory` also comes if memory runs out
/// elsewhere; then nothing was written. `Thread` never comes.
///
/// Before each command, the script passes the gate with two numbers: the script's, from 0, and the line's.
/// Workers pass no gate. The storm waits for the gate, for the network's lock, and for its threads. If no
/// thread can be started, the scripts are played one after another, and then the workers roam.
pub fn storm<In: Read + Drop, Out: Write, G: Gate + Sync, T: Threads + Wait + Sync>(
    rt: &T,
    alloc: Global,
    options: &Options,
    readers: Vec<In>,
    writer: &mut FailStopWriter<Out>,
    gate: &G,
) -> Result<(), StormFault>
    ensures outcome { IsStormOutcome (asked_of options.now) (map In.remaining readers.items) (Out.contents writer.old.writer) (Out.contents writer.new.writer) result }
    ensures unwritten { IsErrOf result Unwritten → writer.new.failed ≡ true }
{
    match options.rules() {
        RuleSet::Hh => storm_on::<HsuHuang, In, Out, G, T>(
            rt, alloc, options, None, readers, writer, gate,
        ),
        RuleSet::Manne => storm_on::<Manne, In, Out, G, T>(
            rt, alloc, options, None, readers, writer, gate,
        ),
    }
}

/// Like `storm`, on a network that goes on after a run.
///
/// The rules, the names, the nodes at the start and the limit are the restart's; the limit counts all numbers.
/// The text begins with the base of the restart's network, and its first entry has the number after the
/// restart's last one. If scripts made checkpoints, the text begins with the last checkpoint's base.
///
/// Errors are those of `storm`. Takes what `storm` takes, and memory for three copies of the base.
pub fn resume_storm<In: Read + Drop, Out: Write, G: Gate + Sync, T: Threads + Wait + Sync>(
    rt: &T,
    alloc: Global,
    restart: Restart,
    readers: Vec<In>,
    writer: &mut FailStopWriter<Out>,
    gate: &G,
) -> Result<(), StormFault>
    ensures outcome { IsResumedStorm (restart_of restart) (map In.remaining readers.items) (Out.contents writer.old.writer) (Out.contents writer.new.writer) result }
    ensures unwritten { IsErrOf result Unwritten → writer.new.failed ≡ true }
{
    let options = restart.options();
    let (rules, from) = (restart.rules, Some(restart));
    match rules {
        RuleSet::Hh => storm_on::<HsuHuang, In, Out, G, T>(
            rt, alloc, &options, from, readers, writer, gate,
        ),
        RuleSet::Manne => storm_on::<Manne, In, Out, G, T>(
            rt, alloc, &options, from, readers, writer, gate,
        ),
    }
}
