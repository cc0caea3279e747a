//! The run of a script.

ghost use Rattle.std.specs.Prelude.{◌≡◌, true, OnOk, IfSome, IsErrOf};
ghost use Rattle.std.specs.Io.KnownBytes.{Appends, IsAtEnd};
ghost use Rattle.byte_streams.specs.StreamEnds.{IsEnded};
ghost use Rattle.script_run.specs.declared.fault.RunFault.TheVariants.{Read as Unread, Write as Unwritten};
ghost use Rattle.rule_machine.specs.Tables.{table_of};
ghost use Rattle.run_session.specs.RunStart.{first_progress};
ghost use Rattle.script_run.specs.Outcome.{IsRunOutcome};
ghost use Rattle.script_run.specs.WholeLines.{DoesWholeLines};

use crate::runner::run_on;
use crate::{Options, RefusedLine, RunFault};
use byte_streams::{CountingReader, FailStopWriter};
use rule_machine::RuleSet;
use rules_hsu_huang::HsuHuang;
use rules_manne::Manne;
use std::alloc::Global;
use std::io::{Read, Write};
use std::sync::Wait;
use std::thread::Threads;

/// Carries out the lines of a script in turn, and writes the transcript.
///
/// The transcript is a header and the text of each line: the entries of the line's command, or, at a
/// checkpoint, the lines of the network's base. Before each read, the text of all whole lines is written and
/// flushed, so the program that writes the script can wait for a reply. After each 256 turns of a line, under
/// `manne` after each turn, the text is written if it has reached 65,536 bytes. Returns `Ok` after the whole
/// script was read.
///
/// | Error | When | Written before it |
/// |---|---|---|
/// | `BadLine` | at the first line that is neither empty nor a command, such as one above 1,048,576 bytes whose end was not read | the text of all lines before |
/// | `LogFull` | at a command whose entry is beyond the limit | all text before |
/// | `Read` | only if a read failed (no retry), or after 4,294,967,295 reads | the text of all lines before |
/// | `Write` | only if a write or a flush failed; no further text is written | a beginning of the transcript |
/// | `Memory` | if memory runs out | a beginning of the transcript, which may end after some turns of a line |
///
/// No entry is kept. Memory is taken for the network, for 65,536 bytes of the script and the begun line, and
/// for the unwritten text: 65,536 bytes, the text of 256 turns (`manne`: of one) or of another line, and during
/// a checkpoint its base.
///
/// After `BadLine` the bytes of the line are in `refused`, if there is memory for them.
///
/// A step is evaluated by one worker for each 16,384 items, at least one and at most the options' number. The
/// number of workers does not change the transcript.
pub fn run<In: Read, Out: Write, T: Threads + Wait + Sync>(
    rt: &T,
    alloc: Global,
    reader: &mut CountingReader<In>,
    writer: &mut FailStopWriter<Out>,
    options: &Options,
    refused: &mut RefusedLine,
) -> Result<(), RunFault>
    ensures outcome { IfSome (In.remaining reader.old.reader) (λ script.
        IsRunOutcome options.now.rules options.now.nodes options.now.present options.now.limit script
        (Out.contents writer.old.writer) (Out.contents writer.new.writer) result) }
    ensures whole { IsErrOf result Unread → DoesWholeLines (table_of options.now.rules) options.now.limit (first_progress options.now.rules options.now.nodes options.now.present)
        (In.remaining reader.old.reader) (In.remaining reader.new.reader) (Appends (Out.contents writer.old.writer) (Out.contents writer.new.writer)) }
    ensures read { OnOk result (IsAtEnd (In.remaining reader.new.reader)) }
    ensures unread { IsErrOf result Unread → IsEnded reader.new.failed reader.new.count }
    ensures unwritten { IsErrOf result Unwritten → writer.new.failed ≡ true }
{
    match options.rules() {
        RuleSet::Hh => run_on::<HsuHuang, In, Out, T>(rt, alloc, reader, writer, options, refused),
        RuleSet::Manne => run_on::<Manne, In, Out, T>(rt, alloc, reader, writer, options, refused),
    }
}
