//! Sessions: they begin or go on, are fed script lines, and can be numbered from 1 again.

ghost use Rattle.std.specs.Prelude.{◌≡◌, None, IfOk, OnErr, OnOk, length};
ghost use Rattle.run_session.specs.Line.{progress_of};
ghost use Rattle.script_text.specs.Script.{with_checkpoint};
ghost use Rattle.rudekpi_c.specs.Renumbering.{renumbered, length_if, AnswersRenumber};
ghost use Rattle.rudekpi_c.specs.Resumption.{ResumesSession};
ghost use Rattle.rudekpi_c.specs.Session.{stands_at, HasSameRules};
ghost use Rattle.rudekpi_c.specs.SessionQuestions.{AnswersKeep};
ghost use Rattle.rudekpi_c.specs.Slot.{OpensSession, AnswersFeed, Handed, line_status, named, text_length};

use crate::audits;
use crate::session::{Machine, Session, with_run};
use crate::slot::{Slot, look};
use crate::status::{BAD_ARGUMENT, BAD_LINE, DONE, LOG_FULL, MEMORY, NO_SESSION, ok_or, some_or};
use crate::verdict::{Verdict, verdict_of};
use auditor::end_of_bytes;
use line_text::put_base;
use rule_machine::{MAX_NAME, RuleSet, Rules, Want};
use run_session::{LineError, Run};
use std::alloc::{AllocError, Global};
use step_log::RecordFault;

fn rules_named(rules: u32) -> RuleSet
    ensures { result ≡ named rules }
{
    match rules {
        0 => RuleSet::Hh,
        _ => RuleSet::Manne,
    }
}

/// Begins a session of a new network, in place of the slot's old session.
///
/// `rules` is 0 for Hsu and Huang, 1 for Manne and others. Returns 5 for other rules, for more than 65,535
/// names, or for more nodes than names; 3 if memory runs out. After 5 or 3 the slot is empty.
#[unsafe(no_mangle)]
pub extern "C" fn rudekpi_session_new(
    alloc: Global,
    rules: u32,
    nodes: u32,
    present: u32,
    slot: &mut Slot,
) -> u32
    ensures { OpensSession rules nodes present result slot.new.handle.value }
{
    drop(slot.take(alloc));
    if rules > 1 || nodes > MAX_NAME || present > nodes {
        return BAD_ARGUMENT;
    }
    let session = ok_or!(
        Session::new(alloc, rules_named(rules), nodes, present),
        MEMORY
    );
    let session = ok_or!(Box::new(alloc, session), MEMORY);
    slot.put(session);
    DONE
}

/// Begins a session that goes on where the run of a transcript ended, in place of the slot's old session.
///
/// `verdict` is that of `rudekpi_audit` on the bytes. The session's text begins with the base at the end of
/// the run, and entries go on at the next number. Returns 7 if the bytes are damaged; 3 if memory runs out:
/// the verdict is then of kind 6, or accepts the bytes. After 7 or 3 the slot is empty.
#[unsafe(no_mangle)]
pub extern "C" fn rudekpi_session_resume(
    alloc: Global,
    slot: &mut Slot,
    bytes: &[u8],
    verdict: &mut Verdict,
) -> u32
    ensures { ResumesSession bytes.now result verdict.new slot.new.handle.value }
{
    drop(slot.take(alloc));
    let end = match end_of_bytes(alloc, bytes) {
        Ok(end) => end,
        Err(fault) => {
            *verdict = verdict_of(Err(fault));
            return audits::status_of(Err(fault));
        }
    };
    *verdict = verdict_of(Ok(end.summary));
    let session = ok_or!(Session::resume(alloc, end), MEMORY);
    let session = ok_or!(Box::new(alloc, session), MEMORY);
    slot.put(session);
    DONE
}

/// Carries out the session's next line, given without its LF, and writes the line's number.
///
/// | Status | When |
/// |---|---|
/// | 1 | the line is neither empty nor a command; nothing was done |
/// | 2 | the line met a full log |
/// | 3 | memory ran out; at most some first turns of the line were taken, and the session goes on |
/// | 4 | there is no session; the line number is unchanged |
#[unsafe(no_mangle)]
pub extern "C" fn rudekpi_session_feed(
    alloc: Global,
    slot: &mut Slot,
    line: &[u8],
    number: &mut u64,
) -> u32
    ensures { AnswersFeed line.now number.old result number.new slot.old.handle.value slot.new.handle.value }
{
    let mut session = some_or!(slot.take(alloc), NO_SESSION);
    let line_number = session.lines.saturating_add(1);
    let done = session.machine.feed(alloc, line_number, line);
    session.lines = line_number;
    *number = line_number;
    slot.put_back(session);
    status_of(done)
}

/// How many bytes of text there are; 0 if there is no session.
#[unsafe(no_mangle)]
pub extern "C" fn rudekpi_session_length(alloc: Global, slot: &mut Slot) -> usize
    ensures kept { slot.new.handle.value ≡ slot.old.handle.value }
    ensures len { result ≡ text_length slot.old.handle.value }
{
    look!(alloc, slot, 0, session => session.text().len())
}

/// Copies the text to the start of `out` and drops the text, if all of it fits; returns its length.
///
/// No other byte of `out` is written.
#[unsafe(no_mangle)]
pub extern "C" fn rudekpi_session_read(alloc: Global, slot: &mut Slot, out: &mut [u8]) -> usize
    ensures { Handed out.old out.new result slot.old.handle.value slot.new.handle.value }
{
    let mut session = some_or!(slot.take(alloc), 0);
    let text = session.text();
    let len = text.len();
    if len > out.len() {
        slot.put(session);
        return len;
    }
    out[..len].copy_from_slice(text);
    session.machine.settle(false);
    slot.put(session);
    len
}

/// Sets whether the session keeps its text from now on. If not, the text so far is dropped too.
///
/// Returns 4 if there is no session.
#[unsafe(no_mangle)]
pub extern "C" fn rudekpi_transcript(alloc: Global, slot: &mut Slot, keeps: bool) -> u32
    ensures { AnswersKeep keeps result slot.old.handle.value slot.new.handle.value }
{
    let mut session = some_or!(slot.take(alloc), NO_SESSION);
    session.keeps = keeps;
    slot.put_back(session);
    DONE
}

/// Adds the bases that end and begin the transcripts; returns the length of the text of the first.
fn renumber<R: Rules>(run: &mut Run<R>) -> Result<usize, Want>
    ensures ok { OnOk result (progress_of run.new ≡ renumbered (progress_of run.old)) }
    ensures ended { IfOk result (λ ended. ended ≡ length (with_checkpoint (progress_of run.old)).text) }
    ensures err { OnErr result (progress_of run.new ≡ progress_of run.old) }
    ensures limit { run.new.recorder.limit ≡ run.old.recorder.limit }
{
    let before = run.text.len();
    let base = run.recorder.net().base(0)?;
    run.checkpoint()?;
    let ended = run.text.len();
    let size = run.recorder.net().store().capacity();
    if put_base(&mut run.text, run.rules, size, &base).is_err() {
        run.text.truncate(before);
        return Err(AllocError);
    }
    run.recorder.renumber();
    Ok(ended)
}

impl Machine {
    fn renumber(&mut self) -> Result<usize, Want>
        ensures ok { OnOk result (stands_at self.new ≡ renumbered (stands_at self.old)) }
        ensures ended { IfOk result (λ ended. ended ≡ length (with_checkpoint (stands_at self.old)).text) }
        ensures err { OnErr result (stands_at self.new ≡ stands_at self.old) }
        ensures same { HasSameRules self.old self.new }
    {
        with_run!(self, run => renumber(run))
    }
}

fn length_if(keeps: bool, length: usize) -> usize
    ensures { result ≡ length_if keeps length }
{
    if keeps { length } else { 0 }
}

/// Ends the transcript with the base of the state, and begins the next transcript in the same state.
///
/// The next transcript begins with the base of the state, numbered 0, and its first entry has the number 1.
/// The network and the moves spent do not change. `ended` becomes how many bytes of the unread text belong to
/// the transcript that ends; 0 if no transcript is kept. Returns 3 if memory runs out, and 4 if there is no
/// session; then nothing has changed and `ended` is 0. Costs two checkpoints.
#[unsafe(no_mangle)]
pub extern "C" fn rudekpi_session_renumber(alloc: Global, slot: &mut Slot, ended: &mut usize) -> u32
    ensures { AnswersRenumber result ended.new slot.old.handle.value slot.new.handle.value }
{
    *ended = 0;
    let mut session = some_or!(slot.take(alloc), NO_SESSION);
    let done = session.machine.renumber();
    let keeps = session.keeps;
    slot.put_back(session);
    let length = ok_or!(done, MEMORY);
    *ended = length_if(keeps, length);
    DONE
}

/// Ends the session, if there is one.
#[unsafe(no_mangle)]
pub extern "C" fn rudekpi_session_free(alloc: Global, slot: &mut Slot)
    ensures { slot.new.handle.value ≡ None }
{
    slot.take(alloc);
}

fn status_of(done: Result<(), LineError>) -> u32
    ensures { result ≡ line_status done }
{
    match done {
        Ok(()) => DONE,
        Err(LineError::BadLine { line: _ }) => BAD_LINE,
        Err(LineError::Record(RecordFault::LogFull)) => LOG_FULL,
        Err(LineError::Record(RecordFault::Memory)) => MEMORY,
    }
}
