//! The audit of a transcript, and joining the verdicts of texts that meet.

ghost use Rattle.std.specs.Prelude.{◌≡◌, ◌≤◌, MatchOption};
ghost use Rattle.rudekpi_c.specs.AuditVerdicts.{JudgedAs, refused, unjudged, audit_verdict};
ghost use Rattle.rudekpi_c.specs.JoinCalls.{AuditJoined, said_by};

use crate::status::{BAD_ARGUMENT, DONE, some_or};
use audit_parts::join;
use auditor::{AuditFault, Summary, audit_bytes};
use std::alloc::Global;

/// The verdict of an audit.
///
/// | `kind` | Meaning |
/// |---|---|
/// | 0 | a transcript, with its counts |
/// | 1 | bad header |
/// | 2 | not a transcript line |
/// | 3 | out of order |
/// | 4 | not the machine's reply |
/// | 5 | bad base |
/// | 6 | memory ran out; the bytes are not judged |
///
/// For kinds 1 to 5, `line` is the first damaged line, from 1.
#[repr(C)]
#[derive(Clone, Copy)]
pub struct Verdict {
    pub kind: u32,
    pub entries: u32,
    pub epochs: u32,
    pub moves: u64,
    pub line: u64,
}

fn told_refused(kind: u32, line: u64) -> Verdict
    ensures { result ≡ refused kind line }
{
    Verdict {
        kind,
        entries: 0,
        epochs: 0,
        moves: 0,
        line,
    }
}

/// The verdict that memory ran out, which says nothing of the bytes.
pub(crate) fn unsaid() -> Verdict
    ensures { result ≡ unjudged }
{
    told_refused(6, 0)
}

pub(crate) fn verdict_of(found: Result<Summary, AuditFault>) -> Verdict
    ensures { result ≡ audit_verdict found }
{
    match found {
        Ok(counted) => Verdict {
            kind: 0,
            entries: counted.entries,
            epochs: counted.epochs,
            moves: counted.moves,
            line: 0,
        },
        Err(AuditFault::BadHeader) => told_refused(1, 1),
        Err(AuditFault::NotALine { line }) => told_refused(2, line),
        Err(AuditFault::OutOfOrder { line }) => told_refused(3, line),
        Err(AuditFault::NotTheMachines { line }) => told_refused(4, line),
        Err(AuditFault::BadBase { line }) => told_refused(5, line),
        Err(AuditFault::Read | AuditFault::Memory) => unsaid(),
    }
}

/// Judges bytes as the program's `audit` does: by the definitions of runs, without the engine.
#[unsafe(no_mangle)]
pub extern "C" fn rudekpi_audit(alloc: Global, bytes: &[u8], verdict: &mut Verdict)
    ensures { JudgedAs bytes.now verdict.new }
{
    *verdict = verdict_of(audit_bytes(alloc, bytes));
}

fn found_in(verdict: Verdict) -> Option<Result<Summary, AuditFault>>
    ensures { MatchOption result (7 ≤ verdict.kind) (λ found. (verdict.kind ≤ 6) × (found ≡ said_by verdict)) }
{
    let Verdict {
        kind,
        entries,
        epochs,
        moves,
        line,
    } = verdict;
    if kind == 0 {
        return Some(Ok(Summary {
            entries,
            epochs,
            moves,
        }));
    }
    match kind {
        1 => Some(Err(AuditFault::BadHeader)),
        2 => Some(Err(AuditFault::NotALine { line })),
        3 => Some(Err(AuditFault::OutOfOrder { line })),
        4 => Some(Err(AuditFault::NotTheMachines { line })),
        5 => Some(Err(AuditFault::BadBase { line })),
        6 => Some(Err(AuditFault::Memory)),
        _ => None,
    }
}

/// Joins the verdict of a text with that of the next.
///
/// The first text ends with the base that begins the second, or lacks it: then the second text goes on where
/// the run of the first ended. `lines` is how many lines the first text has before that base, or in all.
/// `lines` is used only if the first text is accepted and the second is damaged. Returns 5 for an invalid
/// kind, or for a sum that does not fit its field; the verdict is then unchanged.
#[unsafe(no_mangle)]
pub extern "C" fn rudekpi_audit_join(verdict: &mut Verdict, lines: u64, next: &Verdict) -> u32
    ensures { AuditJoined lines result verdict.old next.now verdict.new }
{
    let first = some_or!(found_in(*verdict), BAD_ARGUMENT);
    let second = some_or!(found_in(*next), BAD_ARGUMENT);
    let both = some_or!(join(first, lines, second), BAD_ARGUMENT);
    *verdict = verdict_of(both);
    DONE
}
