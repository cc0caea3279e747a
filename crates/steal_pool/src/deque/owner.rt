//! The end that puts the blocks, splits the whole and joins it again.

ghost use Rattle.std.specs.Prelude.{◌≡◌, ◌<◌, [], ◌∷◌, IfOk, IfSome, MatchOption};
ghost use Rattle.crossbeam_deque.specs.Handles.{worker_flavor, worker_view};
ghost use Rattle.steal_pool.specs.Ledgers.{ledger, rest_of, part_of, joined_ledger, IsBlockWithin, KnowsAll, Takes};

use crate::deque::block::width;
use crate::deque::ledger::{Cut, EachOnce, Ledger, Put, Took};
use crate::deque::{Block, Thief};
use crossbeam_deque::Worker;
use std::alloc::{AllocError, Global};

// How many blocks a new deque has room for: enough for more than 65,535 places. The deque can grow.
const MOST_AT_FIRST: u32 = 2_048;

/// The one end of a deque that puts blocks, makes the other ends, and joins what these ends took.
#[derive(Drop)]
pub(crate) struct Owner {
    pub(crate) worker: Worker<Block, Global, Ledger, EachOnce>,
    ghost in_order: { worker_flavor worker ≡ 0 },
    ghost has_part: { 0 < (worker_view worker).parts },
}

impl Owner {
    ghost use Rattle.steal_pool.specs.Ends.{owner_deque, owner_ledger, thief_deque, thief_ledger};

    /// A new deque of the places 0 to `count - 1`, the least in front, as the owner's end.
    /// `AllocError` if memory runs out.
    pub fn filled(alloc: Global, count: u32) -> Result<Owner, AllocError>
        ensures { IfOk result (λ owner. owner_ledger owner ≡ ledger 64 count []) }
    {
        let room = count.min(MOST_AT_FIRST) as usize;
        let mut worker = Worker::<Block, Global, Ledger, EachOnce>::fifo_as(alloc, room)?;
        let (mut first, mut number) = (0, 0);
        while first < count {
            let end = first + width(number, count - first);
            if worker.push_as::<Put>(Block { first, end }).is_err() {
                return Err(AllocError);
            }
            (first, number) = (end, number + 1);
        }
        Ok(Owner { worker })
    }

    /// Makes another end of the deque, with one part of the whole. `AllocError` if memory runs out.
    pub fn thief(&mut self) -> Result<Thief, AllocError>
        requires { 1 < (owner_ledger self.old).parts }
        ensures part { IfOk result (λ thief. (thief_deque thief ≡ owner_deque self.old) × (thief_ledger thief ≡ part_of (owner_ledger self.old))) }
        ensures rest { IfOk result (λ _. (owner_deque self.new ≡ owner_deque self.old) × (owner_ledger self.new ≡ rest_of (owner_ledger self.old))) }
    {
        let stealer = self.worker.stealer()?;
        let pass = self.worker.another::<Cut>();
        Ok(Thief { stealer, pass })
    }

    /// Takes the block in front; `None` if the deque had no block at one moment of the call.
    pub fn take(&mut self) -> Option<Block>
        ensures same { owner_deque self.new ≡ owner_deque self.old }
        ensures taken { MatchOption result
            ((owner_ledger self.new ≡ owner_ledger self.old) × KnowsAll (owner_ledger self.old))
            (λ block. Takes (owner_ledger self.old) (block ∷ []) (owner_ledger self.new)) }
        ensures within { IfSome result (IsBlockWithin (owner_ledger self.old) (owner_ledger self.new)) }
    {
        self.worker.pop_as::<Took>()
    }

    /// Takes over what another end of the deque took, and that end's part of the whole.
    pub fn absorb(&mut self, thief: Thief)
        requires { thief_deque thief ≡ owner_deque self.old }
        ensures same { owner_deque self.new ≡ owner_deque self.old }
        ensures both { owner_ledger self.new ≡ joined_ledger (owner_ledger self.old) (thief_ledger thief) }
    {
        let Thief { stealer: _, pass } = thief;
        self.worker.absorb::<Cut>(pass);
    }
}
