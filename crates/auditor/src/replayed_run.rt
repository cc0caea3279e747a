//! The state after the first entries of a transcript.

ghost use Rattle.std.specs.Prelude.{◌≡◌, ◌<◌, ℕ, IfErr, IfOk, MatchOption, Some};
ghost use Rattle.auditor.specs.declared.replayed_run.ReplayFault.TheVariants.{TooFew};
ghost use Rattle.auditor.specs.EntryWindows.{IsLongEnough, IsReplayFault, IsStateAfter, IsAskedWithin, falls_short};

use crate::AuditFault;
use crate::transcript_cursor::TranscriptCursor;
use reply_checker::Judge;
use rule_machine::RuleSet;
use std::alloc::Global;

/// The state that a run has reached.
#[derive(Drop)]
pub struct ReplayedRun {
    /// The rules of the run.
    pub rules: RuleSet,
    /// The judge in that state.
    pub judge: Judge,
}

/// Why a state was not reached.
#[derive(Clone, Copy, PartialEq, Eq)]
pub enum ReplayFault {
    /// A line up to the entry is damaged, or memory ran out.
    Judged(AuditFault),
    /// The bytes are the transcript of a run that ends before entry `number`.
    TooFew { number: u32, entries: u32 },
    /// The bytes begin with a base after entry `number`.
    Forgotten { number: u32, base: u32 },
}

// Whether entry `last` comes after entry `entries`; always if `last` is `None`.
fn falls_short(entries: u32, last: Option<u32>) -> bool
    ensures { result ≡ falls_short last entries }
{
    match last {
        Some(number) => entries < number,
        None => true,
    }
}

// The number `last`, if it is below `entries`.
fn forgotten(entries: u32, last: Option<u32>) -> Option<u32>
    ensures { MatchOption result (IsAskedWithin last entries) (λ number. (last ≡ Some number) × (number < entries)) }
{
    match last {
        Some(number) if number < entries => Some(number),
        _ => None,
    }
}

fn finish(replay: TranscriptCursor, last: Option<u32>) -> Result<ReplayedRun, ReplayFault>
    ensures reached { IfOk result (λ reached. (reached.rules ≡ replay.rules) × (reached.judge ≡ replay.audit.state) × IsLongEnough last replay.audit.number) }
    ensures few { IfErr result (λ fault. (number : ℕ) × (fault ≡ TooFew number replay.audit.number) × (last ≡ Some number) × (replay.audit.number < number)) }
{
    let entries = replay.audit.number();
    match last {
        Some(number) if entries < number => Err(ReplayFault::TooFew { number, entries }),
        _ => Ok(ReplayedRun {
            rules: replay.rules,
            judge: replay.audit.into_judge(),
        }),
    }
}

/// The rules of a transcript, and the state after entry `last`, or after all entries for `None`.
///
/// For the opening state, `last` is 0, or the number of the base that opens the transcript. No line after
/// entry `last` is looked at. The lines up to that entry are judged as `audit_bytes` judges them.
///
/// - `Judged` with the first damage of these lines, or with `Memory` if memory runs out.
/// - `TooFew` if all lines are good and no entry has the number `last` or a greater one.
/// - `Forgotten` if the bytes begin with a base whose number is greater than `last`.
///
/// Costs what `audit_bytes` costs for these lines.
pub fn state_after(
    alloc: Global,
    bytes: &[u8],
    last: Option<u32>,
) -> Result<ReplayedRun, ReplayFault>
    ensures reached { IfOk result (λ reached. IsStateAfter bytes.now last reached.rules reached.judge) }
    ensures fault { IfErr result (IsReplayFault bytes.now last) }
{
    let (mut replay, mut rest) = match TranscriptCursor::open_whole(alloc, bytes) {
        Ok(begun) => begun,
        Err(fault) => return Err(ReplayFault::Judged(fault)),
    };
    let base = replay.audit.number();
    if let Some(number) = forgotten(base, last) {
        return Err(ReplayFault::Forgotten { number, base });
    }
    while !rest.is_empty() && falls_short(replay.audit.number(), last) {
        match replay.advance_whole(alloc, rest) {
            Ok(behind) => rest = behind,
            Err(fault) => return Err(ReplayFault::Judged(fault)),
        }
    }
    finish(replay, last)
}
