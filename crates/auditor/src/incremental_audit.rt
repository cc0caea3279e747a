//! Auditing a transcript, in memory or while it is read.

ghost use Rattle.std.specs.Prelude.{◌≡◌, ◌<◌, ◌≤◌, ◌+◌, ◌^◌, ◌++◌, ℕ, List, [], Err, IfErr, IfOk, None, OnOk, drop, length};
ghost use Rattle.auditor.specs.TranscriptCursors.{EndsIn, IsCursorAt, IsCompared, IsRead, IsReadOf, IsReachable, IsUnderway};
ghost use Rattle.auditor.specs.TranscriptEnds.{EndsRun, MayGoOn};
ghost use Rattle.auditor.specs.Verdict.{IsJudged};

use crate::lines::MAX_LINE;
use crate::transcript::end_of_bytes;
use crate::transcript_cursor::TranscriptCursor;
use crate::{AuditFault, TranscriptEnd};
use byte_streams::split_line;
use std::alloc::Global;

/// The most bytes of a transcript, so that its lines can be counted.
const MOST_BYTES: u64 = (1 << 63) - 1;

/// An audit of a transcript read in part: a cursor after the judged lines, and the bytes after them.
///
/// The bytes are in `held`. While the opening is not complete, parsing is tried again once `held` has
/// `enough` bytes.
#[derive(Drop)]
pub(crate) struct IncrementalAudit {
    pub(crate) run: Option<TranscriptCursor>,
    pub(crate) held: Vec<u8>,
    enough: usize,
    len: u64,
}

fn drop_front(bytes: &mut Vec<u8>, count: usize)
    requires { count ≤ length bytes.old.items }
    ensures { bytes.new.items ≡ drop count bytes.old.items }
{
    if count == 0 {
        return;
    }
    let len = bytes.len();
    bytes.copy_within(count..len, 0);
    bytes.truncate(len - count);
}

impl TranscriptCursor {
    // Judges the complete parts at the start of `held`, and returns the bytes after them.
    fn pass_parts<'a>(&mut self, alloc: Global, held: &'a [u8]) -> Result<&'a [u8], AuditFault>
        requires at { IsReachable self.old held.now }
        requires compared { IsCompared self.old held.now }
        ensures at { IfOk result (λ rest. (bytes : List ℕ) → IsCursorAt bytes self.old held.now → IsCursorAt bytes self.new rest.now) }
        ensures compared { IfOk result (λ rest. IsCompared self.new rest.now) }
        ensures behind { IfOk result (λ rest. EndsIn held.now rest.now) }
        ensures fault { IfErr result (λ fault. (bytes more : List ℕ) → IsCursorAt bytes self.old held.now → IsJudged (bytes ++ more) (Err fault)) }
    {
        let mut rest = held;
        while let Some(behind) = self.advance(alloc, rest)? {
            rest = behind;
        }
        Ok(rest)
    }

    /// Judges a text to its end; `rest` is what is not judged yet.
    pub(crate) fn judge_whole(self, alloc: Global, rest: &[u8]) -> Result<TranscriptEnd, AuditFault>
        requires at { IsReachable self rest.now }
        requires compared { IsCompared self rest.now }
        ensures ended { (bytes : List ℕ) → IsCursorAt bytes self rest.now → EndsRun bytes result }
        ensures goes_on { IfOk result MayGoOn }
    {
        let mut replay = self;
        let mut left = rest;
        while !left.is_empty() {
            match replay.advance_whole(alloc, left) {
                Ok(behind) => left = behind,
                Err(fault) => return Err(fault),
            }
        }
        Ok(replay.into_end())
    }
}

// Judges the complete parts of `held` and the bytes after it, and keeps the rest.
//
// If `held` was empty, no judged byte is copied.
fn judge_behind(
    alloc: Global,
    run: &mut TranscriptCursor,
    held: &mut Vec<u8>,
    bytes: &[u8],
) -> Result<(), AuditFault>
    requires at { IsReachable run.old (held.old.items ++ bytes.now) }
    requires compared { IsCompared run.old held.old.items }
    ensures at { OnOk result ((read : List ℕ) → IsCursorAt read run.old (held.old.items ++ bytes.now) → IsCursorAt read run.new held.new.items) }
    ensures compared { OnOk result (IsCompared run.new held.new.items) }
    ensures fault { IfErr result (λ fault. (read more : List ℕ) → IsCursorAt read run.old (held.old.items ++ bytes.now) → IsJudged (read ++ more) (Err fault)) }
{
    if held.is_empty() {
        let rest = match run.pass_parts(alloc, bytes) {
            Ok(rest) => rest,
            Err(fault) => return Err(fault),
        };
        held.extend_from_slice(rest)?;
        return Ok(());
    }
    held.extend_from_slice(bytes)?;
    let left = match run.pass_parts(alloc, held) {
        Ok(rest) => rest.len(),
        Err(fault) => return Err(fault),
    };
    let judged = held.len() - left;
    drop_front(held, judged);
    Ok(())
}

// Like `judge_behind`, but copies less: if bytes are held, the piece's first line is judged first, since it
// may complete `held`. Then only the part that the piece begins and does not end is copied. A piece without
// an LF is judged only if `held` is longer than any line.
fn judge_piece(
    alloc: Global,
    run: &mut TranscriptCursor,
    held: &mut Vec<u8>,
    piece: &[u8],
) -> Result<(), AuditFault>
    requires at { IsReachable run.old (held.old.items ++ piece.now) }
    requires compared { IsCompared run.old held.old.items }
    ensures at { OnOk result ((read : List ℕ) → IsCursorAt read run.old (held.old.items ++ piece.now) → IsCursorAt read run.new held.new.items) }
    ensures compared { OnOk result (IsCompared run.new held.new.items) }
    ensures fault { IfErr result (λ fault. (read more : List ℕ) → IsCursorAt read run.old (held.old.items ++ piece.now) → IsJudged (read ++ more) (Err fault)) }
{
    if held.is_empty() {
        return judge_behind(alloc, run, held, piece);
    }
    let Some((_, behind)) = split_line(piece) else {
        if held.len() > MAX_LINE {
            return judge_behind(alloc, run, held, piece);
        }
        held.extend_from_slice(piece)?;
        return Ok(());
    };
    let (first, others) = piece.split_at(piece.len() - behind.len());
    match judge_behind(alloc, run, held, first) {
        Ok(()) => judge_behind(alloc, run, held, others),
        Err(fault) => Err(fault),
    }
}

// Reads the opening, if it is complete, and judges the parts after it.
fn begin(alloc: Global, held: &mut Vec<u8>) -> Result<Option<TranscriptCursor>, AuditFault>
    requires { length held.old.items < 2 ^ 63 }
    ensures on { IfOk result (λ run. IsReadOf held.old.items run held.new.items) }
    ensures fault { IfErr result (λ fault. (more : List ℕ) → IsJudged (held.old.items ++ more) (Err fault)) }
{
    let (mut run, rest) = match TranscriptCursor::open(alloc, held) {
        Ok(Some(begun)) => begun,
        Ok(None) => return Ok(None),
        Err(fault) => return Err(fault),
    };
    let left = match run.pass_parts(alloc, rest) {
        Ok(behind) => behind.len(),
        Err(fault) => return Err(fault),
    };
    let passed = held.len() - left;
    drop_front(held, passed);
    Ok(Some(run))
}

impl IncrementalAudit {
    pub(crate) fn new(alloc: Global) -> IncrementalAudit
        ensures { IsRead [] result }
    {
        IncrementalAudit {
            run: None,
            held: Vec::new(alloc),
            enough: 0,
            len: 0,
        }
    }

    // If the opening is not complete, the next try waits until `held` has twice as many bytes.
    fn begin(&mut self, alloc: Global, piece: &[u8]) -> Result<(), AuditFault>
        requires unbegun { self.old.run ≡ None }
        ensures on { OnOk result (IsReadOf (self.old.held.items ++ piece.now) self.new.run self.new.held.items) }
        ensures len { self.new.len ≡ self.old.len }
        ensures fault { IfErr result (λ fault. (more : List ℕ) → IsJudged (self.old.held.items ++ piece.now ++ more) (Err fault)) }
    {
        self.held.extend_from_slice(piece)?;
        let unended = split_line(piece).is_none() && self.held.len() <= MAX_LINE;
        if unended || self.held.len() < self.enough {
            return Ok(());
        }
        self.run = begin(alloc, &mut self.held)?;
        self.enough = if self.run.is_none() {
            self.held.len() * 2
        } else {
            0
        };
        Ok(())
    }

    /// An error is final, whatever bytes follow.
    pub(crate) fn take(&mut self, alloc: Global, piece: &[u8]) -> Result<(), AuditFault>
        requires { IsUnderway self.old }
        ensures on { OnOk result ((read : List ℕ) → IsRead read self.old → IsRead (read ++ piece.now) self.new) }
        ensures few { self.new.len < 2 ^ 63 }
        ensures fault { IfErr result (λ fault. (read more : List ℕ) → IsRead read self.old → IsJudged (read ++ piece.now ++ more) (Err fault)) }
    {
        let len = piece.len() as u64;
        if len > MOST_BYTES - self.len {
            return Err(AuditFault::Memory);
        }
        self.len += len;
        let Some(run) = &mut self.run else {
            return self.begin(alloc, piece);
        };
        judge_piece(alloc, run, &mut self.held, piece)
    }

    pub(crate) fn finish(self, alloc: Global) -> Result<TranscriptEnd, AuditFault>
        requires { IsUnderway self }
        ensures ended { (read : List ℕ) → IsRead read self → EndsRun read result }
        ensures goes_on { IfOk result MayGoOn }
    {
        let IncrementalAudit { run, held, .. } = self;
        match run {
            Some(run) => run.judge_whole(alloc, &held),
            None => end_of_bytes(alloc, &held),
        }
    }
}
