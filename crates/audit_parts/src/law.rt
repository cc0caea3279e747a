//! Laws of texts that meet at a base: each function does nothing, and its contract is the law.

ghost use Rattle.std.specs.Prelude.{ℕ, ◌+◌, ◌-◌, List, ◌++◌};
ghost use Rattle.auditor.specs.declared.summary.Summary.{Summary};
ghost use Rattle.auditor.specs.AcceptedRuns.{IsAccepted};
ghost use Rattle.audit_parts.specs.Continuations.{ContinuesRun};
ghost use Rattle.audit_parts.specs.Laws.{AcceptedIsContinued, AcceptedIsShort, AcceptedIsWhole, AllPartsAreAccepted, BasesAreSeams, ContinuedIsDamaged, EndBasesAreAccepted, EndsAreContinued, FirstDamageStays, JoinedIsAccepted, PartsAreAccepted, PartsAreJudged, SecondDamageMoves};

/// Two texts that meet at a base are both accepted exactly if the joined text is.
///
/// The joined text has as many entries and moves as both together, and one epoch less than both: the second
/// text begins in the last epoch of the first.
#[tactic(auto, using(crate::proofs::PartLaws::joined_is_accepted))]
pub fn accepted_in_two()
    ensures joined { JoinedIsAccepted }
    ensures parts { PartsAreAccepted }
{}

/// The damage of a joined text is that of its first damaged part.
///
/// If only the second part is damaged, the damage's line grows by the number of lines before the base in the
/// first part.
#[tactic(auto, using(crate::proofs::PartLaws::first_damage_stays))]
pub fn damaged_in_two()
    ensures first { FirstDamageStays }
    ensures second { SecondDamageMoves }
{}

/// Any number of texts, each meeting the next, are all accepted exactly if the whole is.
///
/// Their verdicts, joined in order, are the verdict of the whole.
#[tactic(auto, using(crate::proofs::PartLaws::parts_are_judged, crate::proofs::PartLaws::all_parts_are_accepted))]
pub fn judged_in_parts()
    ensures judged { PartsAreJudged }
    ensures accepted { AllPartsAreAccepted }
{}

/// Texts can meet at the text of any base.
#[tactic(auto, using(crate::proofs::PartLaws::bases_are_seams))]
pub fn bases_are_seams()
    ensures { BasesAreSeams }
{}

/// If SECOND goes on where the accepted FIRST ends, `cat FIRST SECOND` is accepted exactly if SECOND is.
///
/// SECOND begins with the base of the moment in which the run of FIRST ends, as `run --from` writes it. FIRST
/// does not have this base. Entries and moves add up, and so do epochs, less one. The line of a damage in
/// SECOND grows by the number of lines in FIRST.
#[tactic(auto, using(crate::proofs::ContinuedRuns::continued_is_accepted, crate::proofs::ContinuedRuns::continued_is_damaged))]
pub fn continued_in_two()
    ensures joined { (first second : List ℕ) (c d : Summary) → ContinuesRun first second → IsAccepted first c → IsAccepted second d
        → IsAccepted (first ++ second) (record { entries = c.entries + d.entries; epochs = c.epochs + d.epochs - 1; moves = c.moves + d.moves }) }
    ensures damaged { ContinuedIsDamaged }
    ensures only { AcceptedIsContinued }
{}

/// A text that begins with the base of the end that `auditor::end_of` returns goes on from there.
///
/// The base alone is an accepted text. Each accepted text ends with a line feed, so `cat` joins no two lines.
#[tactic(auto, using(crate::proofs::ContinuedRuns::ends_are_continued, crate::proofs::ContinuedRuns::accepted_is_whole))]
pub fn ends_are_continued()
    ensures ends { EndsAreContinued }
    ensures base { EndBasesAreAccepted }
    ensures whole { AcceptedIsWhole }
{}

/// Each line of an accepted text has at most 2,097,152 bytes, without its line feed.
///
/// So an audit gives up a longer line before its end, and no verdict is another for it.
#[tactic(auto, using(crate::proofs::ShortLines::accepted_is_short))]
pub fn lines_are_short()
    ensures { AcceptedIsShort }
{}
