//! The run of a script that goes on where another run has come to.

ghost use Rattle.std.specs.Prelude.{◌≡◌, IfSome, IsErrOf, OnOk, true};
ghost use Rattle.std.specs.Io.KnownBytes.{Appends, IsAtEnd};
ghost use Rattle.byte_streams.specs.StreamEnds.{IsEnded};
ghost use Rattle.rule_machine.specs.Tables.{table_of, weight_of};
ghost use Rattle.script_run.specs.declared.fault.RunFault.TheVariants.{Read as Unread, Write as Unwritten};
ghost use Rattle.script_run.specs.Outcome.{EndsFrom};
ghost use Rattle.script_run.specs.Restarts.{restarted};
ghost use Rattle.script_run.specs.WholeLines.{DoesWholeLines};

use crate::runner::{Run, play};
use crate::{RefusedLine, Restart, RunFault};
use byte_streams::{CountingReader, FailStopWriter};
use rule_engine::Net;
use rule_machine::{RuleSet, Rules};
use rules_hsu_huang::HsuHuang;
use rules_manne::Manne;
use run_session::Run as LineRun;
use std::alloc::Global;
use std::io::{Read, Write};
use std::sync::Wait;
use std::thread::Threads;
use step_log::Recorder;

fn resume_on<R: Rules + Sync, In: Read, Out: Write, T: Threads + Wait + Sync>(
    rt: &T,
    alloc: Global,
    reader: &mut CountingReader<In>,
    writer: &mut FailStopWriter<Out>,
    restart: Restart,
    refused: &mut RefusedLine,
) -> Result<(), RunFault>
    requires table { table_of restart.rules ≡ R.table }
    requires weight { weight_of restart.rules ≡ R.NODE_WEIGHT }
    ensures outcome { IfSome (In.remaining reader.old.reader) (λ script.
        EndsFrom R.table restart.limit (restarted restart) script
        (Out.contents writer.old.writer) (Out.contents writer.new.writer) result) }
    ensures whole { IsErrOf result Unread → DoesWholeLines R.table restart.limit (restarted restart)
        (In.remaining reader.old.reader) (In.remaining reader.new.reader) (Appends (Out.contents writer.old.writer) (Out.contents writer.new.writer)) }
    ensures read { OnOk result (IsAtEnd (In.remaining reader.new.reader)) }
    ensures unread { IsErrOf result Unread → IsEnded reader.new.failed reader.new.count }
    ensures unwritten { IsErrOf result Unwritten → writer.new.failed ≡ true }
{
    let Restart {
        rules,
        net,
        spent,
        number,
        limit,
        workers,
        ..
    } = restart;
    let Ok(net) = Net::<R>::of_state(alloc, net, spent) else {
        return Err(RunFault::Memory);
    };
    let recorder = Recorder::of_net(net, number, limit);
    let Ok(line) = LineRun::resume(alloc, rules, recorder) else {
        return Err(RunFault::Memory);
    };
    let run = Run {
        line,
        workers,
        refused: RefusedLine::none(alloc),
    };
    play(rt, alloc, run, reader, writer, refused)
}

/// Goes on with a run: carries out the lines of a script in turn, and writes the transcript.
///
/// The transcript begins with the base of the network. Its first entry has the number after the restart's last
/// one. So the transcript up to the restart, with this one appended, is the transcript of one run.
///
/// Errors are those of `run`, and `refused` is as after `run`. Takes what `run` takes, and memory for the base.
pub fn resume<In: Read, Out: Write, T: Threads + Wait + Sync>(
    rt: &T,
    alloc: Global,
    reader: &mut CountingReader<In>,
    writer: &mut FailStopWriter<Out>,
    restart: Restart,
    refused: &mut RefusedLine,
) -> Result<(), RunFault>
    ensures outcome { IfSome (In.remaining reader.old.reader) (λ script.
        EndsFrom (table_of restart.rules) restart.limit (restarted restart) script
        (Out.contents writer.old.writer) (Out.contents writer.new.writer) result) }
    ensures whole { IsErrOf result Unread → DoesWholeLines (table_of restart.rules) restart.limit (restarted restart)
        (In.remaining reader.old.reader) (In.remaining reader.new.reader) (Appends (Out.contents writer.old.writer) (Out.contents writer.new.writer)) }
    ensures read { OnOk result (IsAtEnd (In.remaining reader.new.reader)) }
    ensures unread { IsErrOf result Unread → IsEnded reader.new.failed reader.new.count }
    ensures unwritten { IsErrOf result Unwritten → writer.new.failed ≡ true }
{
    match restart.rules {
        RuleSet::Hh => resume_on::<HsuHuang, In, Out, T>(
            rt, alloc, reader, writer, restart, refused,
        ),
        RuleSet::Manne => resume_on::<Manne, In, Out, T>(
            rt, alloc, reader, writer, restart, refused,
        ),
    }
}
