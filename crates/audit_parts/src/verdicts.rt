//! Joining the verdicts of two texts that meet.

ghost use Rattle.std.specs.Prelude.{◌≡◌, ◌++◌, ℕ, List, IfSome, IsNone, Ok, Err};
ghost use Rattle.auditor.specs.Verdict.{IsJudged};
ghost use Rattle.audit_parts.specs.Continuations.{ContinuesRun};
ghost use Rattle.audit_parts.specs.Seams.{Meets, counted_both, further, joined_verdict};
ghost use Rattle.audit_parts.specs.FieldRanges.{AreLinesBefore, FitsFields};

use auditor::{AuditFault, Summary};

fn count_both(first: Summary, second: Summary) -> Option<Summary>
    ensures both { IfSome result (λ both. both ≡ counted_both first second) }
    ensures fits { IsNone result → FitsFields (Ok (counted_both first second)) → ⊥ }
{
    let epochs = u64::from(first.epochs) + u64::from(second.epochs);
    Some(Summary {
        entries: first.entries.checked_add(second.entries)?,
        epochs: u32::try_from(epochs.saturating_sub(1)).ok()?,
        moves: first.moves.checked_add(second.moves)?,
    })
}

fn move_on(lines: u64, fault: AuditFault) -> Option<AuditFault>
    ensures moved { IfSome result (λ moved. moved ≡ further lines fault) }
    ensures fits { IsNone result → FitsFields (Err (further lines fault)) → ⊥ }
{
    match fault {
        AuditFault::BadHeader | AuditFault::Read | AuditFault::Memory => Some(fault),
        AuditFault::NotALine { line } => Some(AuditFault::NotALine {
            line: lines.checked_add(line)?,
        }),
        AuditFault::OutOfOrder { line } => Some(AuditFault::OutOfOrder {
            line: lines.checked_add(line)?,
        }),
        AuditFault::NotTheMachines { line } => Some(AuditFault::NotTheMachines {
            line: lines.checked_add(line)?,
        }),
        AuditFault::BadBase { line } => Some(AuditFault::BadBase {
            line: lines.checked_add(line)?,
        }),
    }
}

fn join_numbers(
    first: Result<Summary, AuditFault>,
    lines: u64,
    second: Result<Summary, AuditFault>,
) -> Option<Result<Summary, AuditFault>>
    ensures joined { IfSome result (λ whole. whole ≡ joined_verdict first lines second) }
    ensures fits { IsNone result → FitsFields (joined_verdict first lines second) → ⊥ }
{
    match (first, second) {
        (Ok(counted), Ok(more)) => Some(Ok(count_both(counted, more)?)),
        (Ok(_), Err(fault)) => Some(Err(move_on(lines, fault)?)),
        (Err(fault), _) => Some(Err(fault)),
    }
}

/// The verdict of two texts as one: the second begins with a base, which ends the first or its run.
///
/// `lines` is the number of lines of the first text before that base: all of them if the first text does not
/// have it, and the second is that of a run that goes on where the first ended.
///
/// If the first verdict is an `Err`, the result is that `Err`. Else, if the second is an `Err`, the result is
/// that one, with a damage's line increased by `lines`. Else the result is the sums, less one epoch. `None`
/// if a number of the result does not fit its field. Takes no memory.
pub fn join(
    first: Result<Summary, AuditFault>,
    lines: u64,
    second: Result<Summary, AuditFault>,
) -> Option<Result<Summary, AuditFault>>
    ensures judged { (former latter : List ℕ) (m : Meets former latter) → AreLinesBefore lines m.own first second → IsJudged former first → IsJudged latter second
        → IfSome result (IsJudged (m.own ++ latter)) }
    ensures continued { (former latter : List ℕ) → ContinuesRun former latter → AreLinesBefore lines former first second → IsJudged former first → IsJudged latter second
        → IfSome result (IsJudged (former ++ latter)) }
    ensures joined { IfSome result (λ whole. whole ≡ joined_verdict first lines second) }
    ensures fits { IsNone result → FitsFields (joined_verdict first lines second) → ⊥ }
{
    join_numbers(first, lines, second)
}
