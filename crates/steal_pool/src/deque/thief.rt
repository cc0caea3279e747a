//! An end that only takes.

ghost use Rattle.std.specs.Prelude.{◌≡◌, ◌<◌, [], ◌∷◌, IfSome, MatchOption};
ghost use Rattle.crossbeam_deque.specs.Handles.{view, IsPassOf, stealer_deque, stealer_flavor};
ghost use Rattle.steal_pool.specs.Ledgers.{IsBlockWithin, Takes};

use crate::deque::Block;
use crate::deque::ledger::{EachOnce, Ledger, Took};
use crossbeam_deque::{Pass, Steal, Stealer};
use std::alloc::Global;
use std::sync::Wait;

/// An end of a deque that only takes blocks. The pass says, for contracts, what this end has taken.
#[derive(Drop)]
pub(crate) struct Thief {
    pub(crate) stealer: Stealer<Block, Global, Ledger, EachOnce>,
    pub(crate) pass: Pass<Block, Ledger>,
    ghost own_deque: { IsPassOf (stealer_deque stealer) pass },
    ghost in_order: { stealer_flavor stealer ≡ 0 },
    ghost has_part: { 0 < (view pass).parts },
}

impl Thief {
    ghost use Rattle.steal_pool.specs.Ends.{thief_deque, thief_ledger};

    /// Takes the block in front; `None` if the deque had no block at one moment of the call.
    /// Tries again if another thread takes a block first.
    pub fn take<W: Wait>(&mut self, rt: &W) -> Option<Block>
        ensures same { thief_deque self.new ≡ thief_deque self.old }
        ensures taken { MatchOption result
            (thief_ledger self.new ≡ thief_ledger self.old)
            (λ block. Takes (thief_ledger self.old) (block ∷ []) (thief_ledger self.new)) }
        ensures within { IfSome result (IsBlockWithin (thief_ledger self.old) (thief_ledger self.new)) }
    {
        for _ in rt.forever() {
            match self.stealer.steal_as::<Took>(&mut self.pass) {
                Steal::Success(block) => return Some(block),
                Steal::Empty => return None,
                Steal::Retry => {}
            }
        }
        unreachable!()
    }
}
