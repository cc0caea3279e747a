//! The ends of one deque, one for each worker.

ghost use Rattle.std.specs.Prelude.{◌≡◌, ◌<◌, ◌≤◌, ◌++◌, [], length, map, All, IfOk, MatchOption, IfSome};
ghost use Rattle.steal_pool.specs.Ledgers.{ArePlaces, block_places};
ghost use Rattle.steal_pool.specs.Ends.{end_hold, end_taken, AreAllEnds};

use crate::deque::{Block, Owner, Thief};
use std::alloc::{AllocError, Global};
use std::sync::Wait;

/// One worker's end of a deque.
#[derive(Drop)]
pub(crate) enum DequeEnd {
    /// The one end that can also join what the other ends took.
    Owner(Owner),
    /// An end that only takes.
    Thief(Thief),
}

impl DequeEnd {
    /// Takes the block in front; `None` if the deque had no block at one moment of the call.
    pub fn take<W: Wait>(&mut self, rt: &W) -> Option<Block>
        ensures hold { end_hold self.new ≡ end_hold self.old }
        ensures taken { MatchOption result (end_taken self.new ≡ end_taken self.old) (λ block. end_taken self.new ≡ end_taken self.old ++ block_places block) }
        ensures within { IfSome result (λ block. (block.end ≤ (end_hold self.old).count) × (length (end_taken self.new) ≤ (end_hold self.old).count)) }
        ensures once { IfSome result (λ _. ArePlaces (end_hold self.old).count (end_taken self.new)) }
    {
        match self {
            DequeEnd::Owner(owner) => owner.take(),
            DequeEnd::Thief(thief) => thief.take(rt),
        }
    }
}

/// Puts the places 0 to `count - 1` on a new deque, in blocks, and returns `workers` ends of the deque.
/// The first 64 blocks have one place each. A later block has a 64th of the places left, but at least 1 and
/// at most 64.
/// `AllocError` if memory runs out.
pub(crate) fn ends(alloc: Global, count: u32, workers: u32) -> Result<Vec<DequeEnd>, AllocError>
    requires some { 0 < workers }
    requires few { workers ≤ 64 }
    ensures number { IfOk result (λ ends. length ends.items ≡ workers) }
    ensures all { IfOk result (λ ends. AreAllEnds count (map end_hold ends.items)) }
    ensures fresh { IfOk result (λ ends. All (λ end. end_taken end ≡ []) ends.items) }
{
    let mut ends = Vec::with_capacity(alloc, workers as usize)?;
    let mut owner = Owner::filled(alloc, count)?;
    for made in 1..workers {
        let thief = owner.thief()?;
        ends.push(DequeEnd::Thief(thief))?;
    }
    ends.push(DequeEnd::Owner(owner))?;
    Ok(ends)
}
