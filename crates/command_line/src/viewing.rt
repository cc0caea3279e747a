//! Showing views of a transcript.

ghost use Rattle.std.specs.Prelude.{◌≡◌, ◌⊎◌, ℕ, List, true, Err, IfErr, IfOk, IfSome, IsErrOf, OnErr};
ghost use Rattle.byte_streams.specs.StreamEnds.{IsEnded};
ghost use Rattle.transcript_view.specs.Views.{IsPicture, IsEpochTable};
ghost use Rattle.command_line.specs.FaultText.{run_fault_line};
ghost use Rattle.command_line.specs.ReadTexts.{IsReadEnough};
ghost use Rattle.command_line.specs.WriterStates.{heard, WritesLine};
ghost use Rattle.command_line.specs.Status.{IsStatus};
ghost use Rattle.command_line.specs.ViewEnds.{ShowsRefusal, ShowsText, TellsView, Views, missing_line};

use crate::program::tell;
use crate::text::read_text;
use crate::verdict::CheckEnd;
use crate::verdict_line::{put_number, verdict_line};
use auditor::AuditFault;
use byte_streams::{CountingReader, FailStopWriter, InputFault};
use script_run::RunFault;
use std::alloc::{AllocError, Global};
use std::io::{Read, Write};
use transcript_view::{View, view_epochs, view_picture};

// The line, with its LF, that reports a missing entry: the number asked for, and the number that there is.
fn missing_line(
    alloc: Global,
    entry: u32,
    reason: &[u8],
    number: u32,
    end: &[u8],
) -> Result<Vec<u8>, AllocError>
    ensures { IfOk result (λ line. line.items ≡ missing_line entry reason.now number end.now) }
{
    let mut line = Vec::new(alloc);
    line.extend_from_slice(b"! no entry ")?;
    put_number(&mut line, u64::from(entry), reason)?;
    put_number(&mut line, u64::from(number), end)?;
    Ok(line)
}

/// Writes the text, and returns the exit status: `good` if the text was written.
pub fn show_text<Out: Write, Faults: Write>(
    text: &[u8],
    good: u8,
    writer: &mut FailStopWriter<Out>,
    faults: &mut FailStopWriter<Faults>,
) -> u8
    requires { IsStatus good }
    ensures shown { ShowsText text.now good (Out.contents writer.old.writer) (Out.contents writer.new.writer)
        (Faults.contents faults.old.writer) (heard Faults.contents faults.new) result }
    ensures status { IsStatus result }
    ensures device { result ≡ 3 → (good ≡ 3) ⊎ (writer.new.failed ≡ true) }
{
    match writer.finish(text) {
        Ok(()) => good,
        Err(_) => tell(RunFault::Write, faults),
    }
}

fn show_refusal<Out: Write, Faults: Write>(
    alloc: Global,
    damage: AuditFault,
    writer: &mut FailStopWriter<Out>,
    faults: &mut FailStopWriter<Faults>,
) -> u8
    ensures shown { ShowsRefusal damage (Out.contents writer.old.writer) (Out.contents writer.new.writer)
        (Faults.contents faults.old.writer) (heard Faults.contents faults.new) result }
    ensures status { IsStatus result }
    ensures device { result ≡ 3 → writer.new.failed ≡ true }
{
    match verdict_line(alloc, CheckEnd::Refused(damage)) {
        Ok(line) => show_text(&line, 1, writer, faults),
        Err(_) => tell(RunFault::Memory, faults),
    }
}

fn tell_missing<Faults: Write>(
    line: Result<Vec<u8>, AllocError>,
    faults: &mut FailStopWriter<Faults>,
) -> u8
    ensures told { IfOk line (λ text. (result ≡ 2) × WritesLine (Faults.contents faults.old.writer) (heard Faults.contents faults.new)
        text.items) }
    ensures memory { OnErr line ((result ≡ 4) × WritesLine (Faults.contents faults.old.writer) (heard Faults.contents faults.new)
        (run_fault_line RunFault.Memory)) }
{
    match line {
        Ok(text) => {
            let _ = faults.finish(&text);
            2
        }
        Err(_) => tell(RunFault::Memory, faults),
    }
}

fn tell_view<Out: Write, Faults: Write>(
    alloc: Global,
    viewed: Result<View, InputFault>,
    writer: &mut FailStopWriter<Out>,
    faults: &mut FailStopWriter<Faults>,
) -> u8
    ensures told { TellsView viewed (Out.contents writer.old.writer) (Out.contents writer.new.writer)
        (Faults.contents faults.old.writer) (heard Faults.contents faults.new) result }
    ensures status { IsStatus result }
    ensures device { result ≡ 3 → IsErrOf viewed InputFault.Read ⊎ (writer.new.failed ≡ true) }
{
    match viewed {
        Ok(View::Text(text)) => show_text(&text, 0, writer, faults),
        Ok(View::Refused(damage)) => show_refusal(alloc, damage, writer, faults),
        Ok(View::TooFew { number, entries }) => {
            let reason = b": the transcript has ";
            tell_missing(
                missing_line(alloc, number, reason, entries, b" entries\n"),
                faults,
            )
        }
        Ok(View::Forgotten { number, base }) => {
            let reason = b": the transcript begins behind entry ";
            tell_missing(missing_line(alloc, number, reason, base, b"\n"), faults)
        }
        Err(InputFault::Read) => tell(RunFault::Read, faults),
        Err(InputFault::Memory) => tell(RunFault::Memory, faults),
    }
}

// What is read of an input ends inside a line that is too long, or is all of it; the view is that of all of it.
fn view_picture_of(
    alloc: Global,
    read: Result<Vec<u8>, InputFault>,
    entry: Option<u32>,
) -> Result<View, InputFault>
    ensures read { (input : List ℕ) → IfOk read (λ text. IsReadEnough input text.items → IfOk result (IsPicture input entry)) }
    ensures unread { IfErr read (λ fault. result ≡ Err fault) }
    ensures same { IsErrOf result InputFault.Read → IsErrOf read InputFault.Read }
{
    match read {
        Ok(text) => match view_picture(alloc, &text, entry) {
            Ok(view) => Ok(view),
            Err(_) => Err(InputFault::Memory),
        },
        Err(fault) => Err(fault),
    }
}

fn view_epochs_of(alloc: Global, read: Result<Vec<u8>, InputFault>) -> Result<View, InputFault>
    ensures read { (input : List ℕ) → IfOk read (λ text. IsReadEnough input text.items → IfOk result (IsEpochTable input)) }
    ensures unread { IfErr read (λ fault. result ≡ Err fault) }
    ensures same { IsErrOf result InputFault.Read → IsErrOf read InputFault.Read }
{
    match read {
        Ok(text) => match view_epochs(alloc, &text) {
            Ok(view) => Ok(view),
            Err(_) => Err(InputFault::Memory),
        },
        Err(fault) => Err(fault),
    }
}

/// Writes the picture of the state after an entry, or after the last entry. Returns the exit status.
///
/// Reads to the end, or until a line is longer than any line of a transcript: nothing after it is read.
///
/// | Status | When |
/// |---|---|
/// | 0 | the picture was written |
/// | 1 | a line up to the entry is refused; the audit's verdict was written |
/// | 2 | there is no such entry, or the transcript begins after that entry |
/// | 3 | a read or a write failed |
/// | 4 | memory ran out |
pub fn draw<In: Read, Out: Write, Faults: Write>(
    alloc: Global,
    entry: Option<u32>,
    reader: &mut CountingReader<In>,
    writer: &mut FailStopWriter<Out>,
    faults: &mut FailStopWriter<Faults>,
) -> u8
    ensures shown { IfSome (In.remaining reader.old.reader) (λ bytes. Views (IsPicture bytes entry)
        (Out.contents writer.old.writer) (Out.contents writer.new.writer) (Faults.contents faults.old.writer) (heard Faults.contents faults.new) result) }
    ensures status { IsStatus result }
    ensures device { result ≡ 3 → IsEnded reader.new.failed reader.new.count ⊎ (writer.new.failed ≡ true) }
{
    let viewed = view_picture_of(alloc, read_text(alloc, reader), entry);
    tell_view(alloc, viewed, writer, faults)
}

/// Writes the table of the transcript's epochs, and returns the exit status.
///
/// Reads to the end, or until a line is longer than any line of a transcript: nothing after it is read.
///
/// | Status | When |
/// |---|---|
/// | 0 | the table was written |
/// | 1 | the transcript is refused; the audit's verdict was written |
/// | 3 | a read or a write failed |
/// | 4 | memory ran out |
pub fn list_epochs<In: Read, Out: Write, Faults: Write>(
    alloc: Global,
    reader: &mut CountingReader<In>,
    writer: &mut FailStopWriter<Out>,
    faults: &mut FailStopWriter<Faults>,
) -> u8
    ensures shown { IfSome (In.remaining reader.old.reader) (λ bytes. Views (IsEpochTable bytes)
        (Out.contents writer.old.writer) (Out.contents writer.new.writer) (Faults.contents faults.old.writer) (heard Faults.contents faults.new) result) }
    ensures status { IsStatus result }
    ensures device { result ≡ 3 → IsEnded reader.new.failed reader.new.count ⊎ (writer.new.failed ≡ true) }
{
    let viewed = view_epochs_of(alloc, read_text(alloc, reader));
    tell_view(alloc, viewed, writer, faults)
}
