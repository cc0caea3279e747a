//! The list of a transcript's epochs.

ghost use Rattle.std.specs.Prelude.{◌≡◌, ◌≤◌, ◌+◌, ◌++◌, ◌∷◌, [], All, Err, IfErr, IfOk, OnOk};
ghost use Rattle.rule_machine.specs.Base.{LogPart};
ghost use Rattle.rule_machine.specs.Run.{open_at};
ghost use Rattle.auditor.specs.Epochs.{AreCostedEpochs, ArePaid, HasFewRounds, IsWithinItsBound, epochs_in, rows_at};
ghost use Rattle.auditor.specs.Position.{counted_part};
ghost use Rattle.auditor.specs.Verdict.{IsJudged};

use crate::check::Audit;
use crate::transcript_cursor::TranscriptCursor;
use crate::{AuditFault, CostedEpoch, Epoch, Summary};
use rule_machine::{EpochStart, RuleSet, Want};
use std::alloc::Global;

/// All epochs of a run, in order.
#[derive(Drop)]
pub struct Epochs {
    /// The rules of the run.
    pub rules: RuleSet,
    /// The epochs with their costs, at least one.
    pub list: Vec<CostedEpoch>,
}

impl Audit {
    /// An epoch that contains the state reached.
    fn present_epoch(&self, start: EpochStart, moves: u64) -> Epoch
        ensures { result ≡ open_at start (record { state = self.now.state; spent = moves }) }
    {
        let net = self.judge.net();
        Epoch::new(start, moves, net.edges(), net.nodes())
    }
}

fn push(list: &mut Vec<CostedEpoch>, row: CostedEpoch) -> Result<(), Want>
    ensures { OnOk result (list.new.items ≡ list.old.items ++ row ∷ []) }
{
    list.push(row)?;
    Ok(())
}

// The epoch after one more part. `before` has the counts before the part, `rounds` the rounds after it. If
// the part is an accepted disturbance, `row` is complete: it is pushed to `past`, and an epoch with this cost
// begins.
fn turn(
    past: &mut Vec<CostedEpoch>,
    row: CostedEpoch,
    before: Summary,
    cost: Option<u32>,
    rounds: u32,
    audit: &Audit,
) -> Result<CostedEpoch, Want>
    requires counted { row.epoch.moves ≤ before.moves + 4294967295 }
    requires more { before.moves ≤ audit.now.counted.moves }
    ensures turn { IfOk result (λ next. (part : LogPart) → audit.now.counted ≡ counted_part before part
        → (past.new.items ≡ past.old.items ++ (rows_at part audit.now.number audit.now.state cost rounds row).0)
        × (next ≡ (rows_at part audit.now.number audit.now.state cost rounds row).1)) }
    ensures counted { IfOk result (λ next. next.epoch.moves ≤ audit.now.counted.moves + 4294967295) }
{
    let counted = audit.counted();
    if counted.epochs > before.epochs {
        push(past, row)?;
        return Ok(CostedEpoch {
            epoch: audit.present_epoch(EpochStart::At(audit.number()), 0),
            cost,
            rounds,
        });
    }
    let epoch = row.epoch.with_moves(counted.moves - before.moves);
    Ok(CostedEpoch {
        epoch,
        rounds,
        ..row
    })
}

/// The epochs of the run whose transcript the bytes are, each with the cost of its disturbance and its rounds.
///
/// If the bytes begin with a base, the first epoch's moves count from the moves that the base records as
/// spent, and its rounds from the base. Each epoch's moves and rounds are within their bounds. All moves
/// together are at most the costs, plus the charge and the moves spent at the start.
///
/// The errors are those of `audit_bytes`: the first damage of other bytes, or `Memory`. Costs what
/// `audit_bytes` costs, and parses the lines of steps and accepted disturbances twice. After such an entry it
/// looks again at the nodes that the entry changed; after a move or a fault also at the neighbours that depend
/// on them by their `Witness`, after an `Unlink` or a `Leave` at all neighbours. A node that points nowhere costs
/// a look at the neighbour found last that points at it or that it may court, and, if that one no longer does,
/// looks on to the next. Takes 32 bytes an epoch.
pub fn epochs_of(alloc: Global, bytes: &[u8]) -> Result<Epochs, AuditFault>
    ensures epochs { IfOk result (λ epochs. AreCostedEpochs bytes.now epochs.rules epochs.list.items) }
    ensures bounded { IfOk result (λ epochs. All (IsWithinItsBound epochs.rules) (epochs_in epochs.list.items)) }
    ensures few { IfOk result (λ epochs. All (HasFewRounds epochs.rules) epochs.list.items) }
    ensures paid { IfOk result (λ epochs. (are : AreCostedEpochs bytes.now epochs.rules epochs.list.items)
        → ArePaid epochs.rules are.run.transcript.start.moment epochs.list.items) }
    ensures fault { IfErr result (λ fault. IsJudged bytes.now (Err fault)) }
{
    let (mut replay, mut rest) = match TranscriptCursor::open_whole(alloc, bytes) {
        Ok(begun) => begun,
        Err(fault) => return Err(fault),
    };
    let mut rounds = replay.audit.begin_rounds(alloc, replay.rules)?;
    let mut list = Vec::new(alloc);
    let epoch = replay
        .audit
        .present_epoch(replay.begun, replay.audit.spent());
    let mut row = CostedEpoch {
        epoch,
        cost: None,
        rounds: 0,
    };
    while !rest.is_empty() {
        let before = replay.audit.counted();
        let (behind, cost) = match replay.advance_counted(alloc, rest, &mut rounds) {
            Ok(found) => found,
            Err(fault) => return Err(fault),
        };
        rest = behind;
        row = turn(&mut list, row, before, cost, rounds.rounds(), &replay.audit)?;
    }
    push(&mut list, row)?;
    Ok(Epochs {
        rules: replay.rules,
        list,
    })
}
