//! The moves of a step.

ghost use Rattle.std.specs.Prelude.{◌≡◌, ◌++◌, ◌∷◌, [], IfOk, IsTrue, None, OnErr, OnOk};
ghost use Rattle.rule_engine.specs.ChoiceMoves.{IsToldOf};

use rule_machine::{Listing, Moved, Refusal, Reply, Want};
use std::alloc::{AllocError, Global};

/// The moves gathered so far from a choice of `items` items, and whether memory sufficed for all moves.
#[derive(Drop)]
pub(crate) struct CollectedMoves {
    pub(crate) moves: Vec<Moved>,
    pub(crate) items: usize,
    pub(crate) whole: bool,
}

impl CollectedMoves {
    pub(crate) fn new(alloc: Global, items: usize) -> CollectedMoves
        ensures { result.moves.items ≡ [] }
    {
        CollectedMoves {
            moves: Vec::new(alloc),
            items,
            whole: true,
        }
    }

    #[inline(always)]
    pub(crate) fn add(&mut self, moved: Moved)
        ensures whole { IsTrue self.new.whole → IsTrue self.old.whole }
        ensures moves { IsTrue self.new.whole → self.new.moves.items ≡ self.old.moves.items ++ moved ∷ [] }
    {
        self.whole = self.whole && add_one(&mut self.moves, self.items, moved);
    }
}

/// False if memory runs out. The first item takes the room for all `most` items.
fn add_one<T: Copy>(list: &mut Vec<T>, most: usize, item: T) -> bool
    ensures { IsTrue result → list.new.items ≡ list.old.items ++ item ∷ [] }
{
    if list.is_empty() && list.reserve_exact(most).is_err() {
        return false;
    }
    list.push(item).is_ok()
}

/// Takes no memory. `AllocError` if memory ran out while moves were added.
pub(crate) fn step_reply(refused: Option<Refusal>, gathered: CollectedMoves) -> Result<Reply, Want>
    ensures told { IfOk result (λ reply. IsToldOf refused gathered.moves.items reply) }
    ensures whole { OnOk result (refused ≡ None → IsTrue gathered.whole) }
    ensures want { OnErr result (refused ≡ None) }
{
    if let Some(refusal) = refused {
        return Ok(Reply::Refused(refusal));
    }
    let CollectedMoves {
        mut moves,
        whole,
        ..
    } = gathered;
    if !whole {
        return Err(AllocError);
    }
    moves.sort_unstable_by_key(|moved| moved.node.place());
    Ok(Reply::Moves(Listing::from_vec(moves)))
}
