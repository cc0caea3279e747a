//! The audit of a whole transcript.

ghost use Rattle.std.specs.Prelude.{◌≡◌, ℕ, List, false, IfOk, IfErr, IfSome, IsErrOf, OnOk};
ghost use Rattle.std.specs.Io.KnownBytes.{IsAtEnd};
ghost use Rattle.byte_streams.specs.StreamEnds.{IsEnded};
ghost use Rattle.auditor.specs.declared.fault.AuditFault.TheVariants.{Memory, Read as Unread};
ghost use Rattle.auditor.specs.AcceptedRuns.{IsAccepted};
ghost use Rattle.auditor.specs.TranscriptEnds.{EndsRun, IsEndResult, IsTranscriptEnd, MayGoOn, summary_in};
ghost use Rattle.auditor.specs.Verdict.{IsJudged, IsAuditFault, AcceptsRuns, JudgesDamage, JudgesRuns, NamesDamage};

use crate::transcript_cursor::TranscriptCursor;
use crate::transcript_end::summary_of;
use crate::{AuditFault, PieceAudit, Summary, TranscriptEnd};
use byte_streams::{CountingReader, chunk_of};
use std::alloc::Global;
use std::io::Read;

/// Reads a transcript to its end, and judges each part as it comes, as `audit_bytes` does.
///
/// In memory are the bytes of one read, and the line or base that is not complete yet. At the first damage
/// the audit returns and reads no further. `Read` only if a read failed, or 4,294,967,295 reads were made;
/// `Memory` only if no read failed.
pub fn audit<In: Read>(
    alloc: Global,
    reader: &mut CountingReader<In>,
) -> Result<Summary, AuditFault>
    ensures accepted { IfSome (In.remaining reader.old.reader) (λ bytes. IfOk result (IsAccepted bytes)) }
    ensures damage { IfSome (In.remaining reader.old.reader) (λ bytes. IfErr result (IsAuditFault bytes)) }
    ensures accepts_runs { IfSome (In.remaining reader.old.reader) (λ bytes. AcceptsRuns bytes result) }
    ensures names_damage { IfSome (In.remaining reader.old.reader) (λ bytes. NamesDamage bytes result) }
    ensures end { OnOk result (IsAtEnd (In.remaining reader.new.reader)) }
    ensures unread { IsErrOf result Unread → IsEnded reader.new.failed reader.new.count }
    ensures readable { IsErrOf result Memory → reader.old.failed ≡ false → reader.new.failed ≡ false }
{
    summary_of(end_of(alloc, reader))
}

/// Reads a transcript to its end, judges it as `audit` does, and returns where its run ends.
///
/// Of whatever reader, the result is that of some bytes: those read, if no read failed. Errors and costs are
/// those of `audit`. The network takes some forty bytes a name and four an edge.
pub fn end_of<In: Read>(
    alloc: Global,
    reader: &mut CountingReader<In>,
) -> Result<TranscriptEnd, AuditFault>
    ensures some { (bytes : List ℕ) × IsEndResult bytes result }
    ensures ended { IfSome (In.remaining reader.old.reader) (λ bytes. IfOk result (IsTranscriptEnd bytes)) }
    ensures damage { IfSome (In.remaining reader.old.reader) (λ bytes. IfErr result (IsAuditFault bytes)) }
    ensures accepts_runs { IfSome (In.remaining reader.old.reader) (λ bytes. AcceptsRuns bytes (summary_in result)) }
    ensures names_damage { IfSome (In.remaining reader.old.reader) (λ bytes. NamesDamage bytes (summary_in result)) }
    ensures goes_on { IfOk result MayGoOn }
    ensures end { OnOk result (IsAtEnd (In.remaining reader.new.reader)) }
    ensures unread { IsErrOf result Unread → IsEnded reader.new.failed reader.new.count }
    ensures readable { IsErrOf result Memory → reader.old.failed ≡ false → reader.new.failed ≡ false }
{
    judge_read(alloc, reader)
}

fn judge_read<In: Read>(
    alloc: Global,
    reader: &mut CountingReader<In>,
) -> Result<TranscriptEnd, AuditFault>
    ensures some { (bytes : List ℕ) × IsEndResult bytes result }
    ensures heard { IfSome (In.remaining reader.old.reader) (λ bytes. IsEndResult bytes result) }
    ensures goes_on { IfOk result MayGoOn }
    ensures end { OnOk result (IsAtEnd (In.remaining reader.new.reader)) }
    ensures unread { IsErrOf result Unread → IsEnded reader.new.failed reader.new.count }
    ensures readable { IsErrOf result Memory → reader.old.failed ≡ false → reader.new.failed ≡ false }
{
    let Ok(mut chunk) = chunk_of(alloc) else {
        return Err(AuditFault::Memory);
    };
    let mut audit = PieceAudit::new(alloc);
    loop {
        let Ok(len) = reader.read(&mut chunk) else {
            return Err(AuditFault::Read);
        };
        if len == 0 {
            return audit.into_end(alloc);
        }
        if let Err(fault) = audit.feed(alloc, &chunk[..len]) {
            return Err(fault);
        }
    }
}

/// Judges the bytes of a transcript and counts its entries, epochs and moves.
///
/// The accepted texts are exactly those of runs of the rule machine, whichever allowed targets the machine
/// chose. A text may begin with a base, if a run may go on from that base within its bound. A base after
/// entries must be the base of the state reached.
///
/// - A damage for all other bytes, at the first line that fails. An entry's line is checked for its form, then
///   its number, then its reply. A base's line is checked for being that line of the base.
/// - `Memory` if memory runs out; never `Read`.
///
/// | Part | Cost |
/// |---|---|
/// | an entry | its line, look-ups, and the neighbours of the nodes that move |
/// | `enabled`, `matching`, `status` | changes since the last such query, and the list (`Judge::replay`) |
/// | a base | a look at all names and edges, and the memory of its text |
pub fn audit_bytes(alloc: Global, bytes: &[u8]) -> Result<Summary, AuditFault>
    ensures judged { IsJudged bytes.now result }
    ensures never_read { IsErrOf result Unread → ⊥ }
    ensures accepts_runs { JudgesRuns bytes.now result }
    ensures names_damage { JudgesDamage bytes.now result }
{
    summary_of(end_of_bytes(alloc, bytes))
}

/// Judges the bytes of a transcript as `audit_bytes` does, and returns where its run ends.
///
/// Errors and costs are those of `audit_bytes`. The network takes some forty bytes a name and four an edge.
pub fn end_of_bytes(alloc: Global, bytes: &[u8]) -> Result<TranscriptEnd, AuditFault>
    ensures ended { EndsRun bytes.now result }
    ensures never_read { IsErrOf result Unread → ⊥ }
    ensures accepts_runs { JudgesRuns bytes.now (summary_in result) }
    ensures names_damage { JudgesDamage bytes.now (summary_in result) }
    ensures goes_on { IfOk result MayGoOn }
{
    match TranscriptCursor::open_whole(alloc, bytes) {
        Ok((replay, rest)) => replay.judge_whole(alloc, rest),
        Err(fault) => Err(fault),
    }
}
