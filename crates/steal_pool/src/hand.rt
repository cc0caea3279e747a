//! What one worker gets before the work, and what comes out of the work.

ghost use Rattle.std.specs.Prelude.{◌≡◌, []};
ghost use Rattle.steal_pool.specs.Ends.{end_hold, end_taken};
ghost use Rattle.steal_pool.specs.Once.{StandOnce, places_of};

use crate::deque::DequeEnd;
use rule_engine::Verdict;
use std::alloc::Global;

/// One worker's end of the deque of a choice's places; the worker has taken no place yet.
#[derive(Drop)]
pub struct Hand {
    pub(crate) alloc: Global,
    pub(crate) worker: u32,
    pub(crate) end: DequeEnd,
    ghost fresh: { end_taken end ≡ [] },
}

/// The verdicts of the places that one worker took, each judged once, and the worker's end.
#[derive(Drop)]
pub struct Share {
    pub(crate) end: DequeEnd,
    pub(crate) verdicts: Vec<Verdict>,
    ghost taken: { places_of verdicts.items ≡ end_taken end },
    ghost once: { StandOnce (end_hold end).count (places_of verdicts.items) },
}
