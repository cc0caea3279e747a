//! The hands of a choice.

ghost use Rattle.std.specs.Prelude.{◌≡◌, ◌<◌, ◌≤◌, length, map, min, IfOk, IfErr};
ghost use Rattle.std.specs.List.{range_with_len};
ghost use Rattle.steal_pool.specs.Ends.{AreAllEnds};
ghost use Rattle.steal_pool.specs.Faults.{ExplainsPoolFault};
ghost use Rattle.steal_pool.specs.Hands.{hand_hold, hand_number};

use crate::deque::ends;
use crate::{Hand, PoolFault};
use rule_engine::{Choice, Want};
use std::alloc::Global;

/// The most workers at once.
pub const MAX_WORKERS: u32 = 64;

/// Puts each place of the choice once on a new deque, and returns a hand for each worker.
/// Hands are numbered from 0. More than 64 workers count as 64. An empty choice also gives a hand to each
/// worker.
/// `ZeroWorkers` if `workers` is 0, checked first; `Memory` if memory runs out.
/// Takes about fifty bytes for each place, but no more than 2,048 places take.
pub fn hands(alloc: Global, choice: &Choice, workers: u32) -> Result<Vec<Hand>, PoolFault>
    ensures number { IfOk result (λ hands. (0 < workers) × (length hands.items ≡ min workers 64)) }
    ensures all { IfOk result (λ hands. AreAllEnds (length choice.now) (map hand_hold hands.items)) }
    ensures numbered { IfOk result (λ hands. map hand_number hands.items ≡ range_with_len 0 (length hands.items)) }
    ensures fault { IfErr result (ExplainsPoolFault workers) }
{
    if workers == 0 {
        return Err(PoolFault::ZeroWorkers);
    }
    Ok(deal(alloc, choice, workers)?)
}

pub(crate) fn deal(alloc: Global, choice: &Choice, workers: u32) -> Result<Vec<Hand>, Want>
    requires { 0 < workers }
    ensures number { IfOk result (λ hands. length hands.items ≡ min workers 64) }
    ensures all { IfOk result (λ hands. AreAllEnds (length choice.now) (map hand_hold hands.items)) }
    ensures numbered { IfOk result (λ hands. map hand_number hands.items ≡ range_with_len 0 (length hands.items)) }
{
    let count = workers.min(MAX_WORKERS);
    let mut ends = ends(alloc, choice.items().len() as u32, count)?;
    let mut hands = Vec::with_capacity(alloc, ends.len())?;
    while let Some(end) = ends.pop() {
        let worker = hands.len() as u32;
        hands.push(Hand { alloc, worker, end })?;
    }
    Ok(hands)
}
