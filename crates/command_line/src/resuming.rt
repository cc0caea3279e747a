//! Going on where the run of a file ended.

ghost use Rattle.std.specs.Prelude.{◌≡◌, ◌⊎◌, ℕ, List, IfOk, IfSome, OnErr};
ghost use Rattle.rule_machine.specs.Tables.{table_of};
ghost use Rattle.auditor.specs.TranscriptEnds.{MayGoOn};
ghost use Rattle.script_run.specs.Restarts.{restart_of, restarted};
ghost use Rattle.command_line.specs.FaultText.{run_fault_line};
ghost use Rattle.command_line.specs.ResumeEnds.{IsAuditOf, ResumesFile, ResumesOpened, TellsAuditFault, TellsRunFrom, damaged_line, restart_from, start_at};
ghost use Rattle.command_line.specs.Status.{IsRunStatus, IsStatus};
ghost use Rattle.command_line.specs.WriterStates.{heard, WrittenBytes, WritesLine};

use crate::file_fault::{FileFault, NotingFile, file_fault, tell_unread};
use crate::program::tell;
use crate::run_note::tell_run;
use crate::verdict::CheckEnd;
use crate::verdict_line::verdict_line;
use auditor::{AuditFault, TranscriptEnd, end_of};
use byte_streams::{CountingReader, FailStopWriter};
use script_run::{RefusedLine, Restart, RunFault, resume};
use std::alloc::{AllocError, Global};
use std::fs::File;
use std::io::{Read, Write};
use std::rt::Files;
use std::sync::Wait;
use std::thread::Threads;

/// Where the run of an open file ends. Sets `why` if a read fails.
pub(crate) fn end_in<Opened: Read + Drop>(
    alloc: Global,
    opened: Opened,
    why: &mut Option<FileFault>,
) -> Result<TranscriptEnd, AuditFault>
    ensures audited { (bytes : List ℕ) × IsAuditOf (Opened.remaining opened) bytes result }
    ensures goes_on { IfOk result MayGoOn }
{
    let mut noting = NotingFile::new(opened);
    let end = end_of(alloc, &mut CountingReader::new(&mut noting));
    *why = noting.fault;
    end
}

fn damaged_line(alloc: Global, file: &str, damage: AuditFault) -> Result<Vec<u8>, AllocError>
    ensures { IfOk result (λ line. line.items ≡ damaged_line file.now damage) }
{
    let verdict = verdict_line(alloc, CheckEnd::Refused(damage))?;
    let mut line = Vec::new(alloc);
    line.extend_from_slice(b"! ")?;
    line.extend_from_slice(file.as_bytes())?;
    line.extend_from_slice(b": ")?;
    line.extend_from_slice(&verdict)?;
    Ok(line)
}

fn tell_damage<Faults: Write>(
    line: Result<Vec<u8>, AllocError>,
    faults: &mut FailStopWriter<Faults>,
) -> u8
    ensures told { IfOk line (λ text. (result ≡ 1) × WritesLine (Faults.contents faults.old.writer) (heard Faults.contents faults.new)
        text.items) }
    ensures memory { OnErr line ((result ≡ 4) × WritesLine (Faults.contents faults.old.writer) (heard Faults.contents faults.new)
        (run_fault_line RunFault.Memory)) }
    ensures status { IsStatus result }
{
    match line {
        Ok(text) => {
            let _ = faults.finish(&text);
            1
        }
        Err(_) => tell(RunFault::Memory, faults),
    }
}

/// Reports why the file is refused, and returns the exit status. `why` is the reason of a failed read.
///
/// Nothing is written to another writer, whatever that has received.
pub(crate) fn refuse_file<Faults: Write>(
    alloc: Global,
    file: &str,
    fault: AuditFault,
    why: Option<FileFault>,
    faults: &mut FailStopWriter<Faults>,
) -> u8
    ensures told { (known : WrittenBytes) → TellsAuditFault file.now fault known known
        (Faults.contents faults.old.writer) (heard Faults.contents faults.new) result }
    ensures status { IsStatus result }
{
    match fault {
        AuditFault::Read => tell_unread(alloc, file, why, faults),
        AuditFault::Memory => tell(RunFault::Memory, faults),
        _ => tell_damage(damaged_line(alloc, file, fault), faults),
    }
}

/// The end of a file's run as the start of a run or a storm, with `workers` workers for each step.
pub(crate) fn restart_at(end: TranscriptEnd, workers: u16) -> Restart
    requires { MayGoOn end }
    ensures start { restarted result ≡ start_at end }
    ensures rules { result.rules ≡ end.rules }
    ensures limit { result.limit ≡ 16777216 }
    ensures view { restart_of result ≡ restart_from end workers }
{
    let TranscriptEnd {
        rules,
        net,
        spent,
        number,
        ..
    } = end;
    Restart::new(rules, net, spent, number).with_workers(u32::from(workers))
}

fn run_from<In: Read, Out: Write, Faults: Write, T: Threads + Wait + Sync>(
    rt: &T,
    alloc: Global,
    restart: Restart,
    reader: &mut CountingReader<In>,
    writer: &mut FailStopWriter<Out>,
    faults: &mut FailStopWriter<Faults>,
) -> u8
    ensures outcome { IfSome (In.remaining reader.old.reader) (λ script.
        TellsRunFrom (table_of restart.rules) restart.limit (restarted restart) script
        (Out.contents writer.old.writer) (Out.contents writer.new.writer)
        (Faults.contents faults.old.writer) (heard Faults.contents faults.new) result) }
    ensures status { IsRunStatus result }
{
    let mut refused = RefusedLine::none(alloc);
    match resume(rt, alloc, reader, writer, restart, &mut refused) {
        Ok(()) => 0,
        Err(fault) => tell_run(alloc, fault, &refused, faults),
    }
}

fn resume_opened<
    Opened: Read + Drop,
    In: Read,
    Out: Write,
    Faults: Write,
    T: Threads + Wait + Sync,
>(
    rt: &T,
    alloc: Global,
    file: &str,
    opened: Opened,
    workers: u16,
    reader: &mut CountingReader<In>,
    writer: &mut FailStopWriter<Out>,
    faults: &mut FailStopWriter<Faults>,
) -> u8
    ensures resumed { IfSome (In.remaining reader.old.reader) (λ script. ResumesOpened (Opened.remaining opened) file.now script
        (Out.contents writer.old.writer) (Out.contents writer.new.writer)
        (Faults.contents faults.old.writer) (heard Faults.contents faults.new) result) }
    ensures status { IsStatus result }
{
    let mut why = None;
    match end_in(alloc, opened, &mut why) {
        Ok(end) => run_from(rt, alloc, restart_at(end, workers), reader, writer, faults),
        Err(fault) => refuse_file(alloc, file, fault, why, faults),
    }
}

/// Runs the script from where the run of a file ended, and returns the exit status.
///
/// The file is a transcript or a base alone, and is audited first.
///
/// | Status | When |
/// |---|---|
/// | 0 | the whole script was run |
/// | 1 | the file is refused; `faults` has its name and the audit's verdict |
/// | 2 | a line is not a command |
/// | 3 | the file could not be opened, or a read or a write failed |
/// | 4 | memory ran out, or the log is full |
pub fn resume_file<In: Read, Out: Write, Faults: Write, T: Threads + Wait + Sync + Files>(
    rt: &T,
    alloc: Global,
    file: &str,
    workers: u16,
    reader: &mut CountingReader<In>,
    writer: &mut FailStopWriter<Out>,
    faults: &mut FailStopWriter<Faults>,
) -> u8
    ensures resumed { IfSome (In.remaining reader.old.reader) (λ script. ResumesFile file.now script
        (Out.contents writer.old.writer) (Out.contents writer.new.writer)
        (Faults.contents faults.old.writer) (heard Faults.contents faults.new) result) }
    ensures status { IsStatus result }
{
    match File::open(rt, file) {
        Ok(opened) => resume_opened(rt, alloc, file, opened, workers, reader, writer, faults),
        Err(error) => tell_unread(alloc, file, Some(file_fault(error.kind())), faults),
    }
}
