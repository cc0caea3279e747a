//! Laws of transcripts and their damages: each function does nothing, and its contract is the law.

ghost use Rattle.std.specs.Prelude.{◌≡◌, ℕ, List};
ghost use Rattle.rule_machine.specs.declared.rule_set.RuleSet.{RuleSet};
ghost use Rattle.rule_machine.specs.Base.{LogPart, NumberedMoment};
ghost use Rattle.auditor.specs.declared.fault.AuditFault.{AuditFault};
ghost use Rattle.auditor.specs.declared.summary.Summary.{Summary};
ghost use Rattle.auditor.specs.Parts.{Opening};
ghost use Rattle.auditor.specs.Transcript.{IsTranscript, SameRun};
ghost use Rattle.auditor.specs.Damage.{IsDamage};
ghost use Rattle.auditor.specs.AcceptedRuns.{IsAccepted};

/// A text is the transcript of at most one run.
///
/// The bytes determine the rule set, the header or opening base, the entries, the bases among them, and the
/// machine's end state.
pub fn one_run()
    ensures { (bytes : List ℕ) (r q : RuleSet) (o p : Opening) (log also : List LogPart) (end last : NumberedMoment)
        → IsTranscript bytes r o log end → IsTranscript bytes q p also last → SameRun r q o p log also end last }
{}

/// An accepted text has one summary.
pub fn one_count()
    ensures { (bytes : List ℕ) (c d : Summary) → IsAccepted bytes c → IsAccepted bytes d → c ≡ d }
{}

/// A text has at most one damage: its first line that fails, and that line's first failed check.
pub fn one_damage()
    ensures { (bytes : List ℕ) (d e : AuditFault) → IsDamage bytes d → IsDamage bytes e → d ≡ e }
{}

/// The transcript of a run has no damage.
pub fn transcript_has_no_damage()
    ensures { (bytes : List ℕ) (counted : Summary) (damage : AuditFault) → IsAccepted bytes counted → IsDamage bytes damage → ⊥ }
{}

/// A text without damage cannot fail to be the transcript of a run.
pub fn undamaged_is_a_transcript()
    ensures { (bytes : List ℕ) → ((damage : AuditFault) → IsDamage bytes damage → ⊥) → ((counted : Summary) → IsAccepted bytes counted → ⊥) → ⊥ }
{}
