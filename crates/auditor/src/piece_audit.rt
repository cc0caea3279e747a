//! The audit of a transcript that is fed piece by piece.

ghost use Rattle.std.specs.Prelude.{◌≡◌, ◌<◌, ◌^◌, ◌++◌, ℕ, List, [], Err, IfErr, IfOk, IsErrOf, None, Some};
ghost use Rattle.auditor.specs.declared.fault.AuditFault.{AuditFault as Fault};
ghost use Rattle.auditor.specs.declared.fault.AuditFault.TheVariants.{Read};
ghost use Rattle.auditor.specs.TranscriptCursors.{IsIncrementalAudit};
ghost use Rattle.auditor.specs.TranscriptEnds.{EndsRun, MayGoOn, summary_in};
ghost use Rattle.auditor.specs.Verdict.{IsJudged, JudgesDamage, JudgesRuns, found_by};

use crate::incremental_audit::IncrementalAudit;
use crate::transcript_end::summary_of;
use crate::{AuditFault, Summary, TranscriptEnd};
use std::alloc::Global;

/// An audit that is fed a transcript in pieces, cut anywhere.
///
/// Only the line or base that is not complete yet is in memory.
#[derive(Drop)]
pub struct PieceAudit {
    trial: IncrementalAudit,
    fault: Option<AuditFault>,
    ghost few: { trial.len < 2 ^ 63 },
    ghost some: { ∥ ((bytes : List ℕ) × IsIncrementalAudit bytes trial fault) ∥₁ },
}

impl PieceAudit {
    ghost use Rattle.auditor.specs.AuditPieces.{HasReadPieces};

    /// An audit that has been fed nothing.
    pub fn new(alloc: Global) -> PieceAudit
        ensures fed { HasReadPieces [] result }
        ensures well { result.fault ≡ None }
    {
        PieceAudit {
            trial: IncrementalAudit::new(alloc),
            fault: None,
        }
    }

    /// Feeds the next bytes, and judges every line and base that is now complete.
    ///
    /// An `Err` is final: every text that begins with the bytes fed so far has this damage, and every later
    /// call returns the same `Err`. Never `Read`. `Memory` if memory runs out, or if more than 2^63 - 1 bytes
    /// were fed. Costs what `audit_bytes` costs for the lines that end in the piece.
    pub fn feed(&mut self, alloc: Global, piece: &[u8]) -> Result<(), AuditFault>
        ensures fed { (bytes : List ℕ) → HasReadPieces bytes self.old → HasReadPieces (bytes ++ piece.now) self.new }
        ensures fault { IfErr result (λ fault. (bytes more : List ℕ) → HasReadPieces bytes self.old → IsJudged (bytes ++ piece.now ++ more) (Err fault)) }
        ensures told { result ≡ found_by self.new.fault }
        ensures never_read { IsErrOf result Read → ⊥ }
        ensures for_good { (fault : Fault) → self.old.fault ≡ Some fault → self.new.fault ≡ Some fault }
    {
        if let Some(fault) = self.fault {
            return Err(fault);
        }
        match self.trial.take(alloc, piece) {
            Ok(()) => Ok(()),
            Err(fault) => {
                self.fault = Some(fault);
                Err(fault)
            }
        }
    }

    /// Judges all that was fed as a whole text, as `audit_bytes` does.
    pub fn finish(self, alloc: Global) -> Result<Summary, AuditFault>
        ensures judged { (bytes : List ℕ) → HasReadPieces bytes self → IsJudged bytes result }
        ensures accepts_runs { (bytes : List ℕ) → HasReadPieces bytes self → JudgesRuns bytes result }
        ensures never_read { IsErrOf result Read → ⊥ }
        ensures names_damage { (bytes : List ℕ) → HasReadPieces bytes self → JudgesDamage bytes result }
    {
        summary_of(self.into_end(alloc))
    }

    /// Judges all that was fed as a whole text, and returns where its run ends.
    ///
    /// Errors are those of `finish`.
    pub fn into_end(self, alloc: Global) -> Result<TranscriptEnd, AuditFault>
        ensures ended { (bytes : List ℕ) → HasReadPieces bytes self → EndsRun bytes result }
        ensures accepts_runs { (bytes : List ℕ) → HasReadPieces bytes self → JudgesRuns bytes (summary_in result) }
        ensures never_read { IsErrOf result Read → ⊥ }
        ensures names_damage { (bytes : List ℕ) → HasReadPieces bytes self → JudgesDamage bytes (summary_in result) }
        ensures goes_on { IfOk result MayGoOn }
    {
        match self.fault {
            Some(fault) => Err(fault),
            None => self.trial.finish(alloc),
        }
    }
}
