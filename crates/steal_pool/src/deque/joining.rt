//! Joins what all ends of a deque took.

ghost use Rattle.std.specs.Prelude.{◌≡◌, ◌<◌, length, map, slice_index_or};
ghost use Rattle.std.specs.List.{sum_by};
ghost use Rattle.steal_pool.specs.declared.deque.end.DequeEnd.{DequeEnd};
ghost use Rattle.steal_pool.specs.Ends.{end_hold, end_owners, owner_ledger, AreAllEnds, AreJoined};

use crate::deque::{DequeEnd, Owner};

/// Joins all ends of one deque, and returns the owner's end.
pub(crate) fn gather(mut ends: Vec<DequeEnd>, count: u32) -> Owner
    requires { AreAllEnds count (map end_hold ends.items) }
    ensures { AreJoined count ends.items (owner_ledger result) }
{
    let DequeEnd::Owner(mut owner) = ends.swap_remove(owner_at(&ends)) else {
        unreachable!();
    };
    while let Some(end) = ends.pop() {
        match end {
            DequeEnd::Thief(thief) => owner.absorb(thief),
            DequeEnd::Owner(_) => unreachable!(),
        }
    }
    owner
}

fn owner_at(ends: &[DequeEnd]) -> usize
    requires { sum_by end_owners ends.now ≡ 1 }
    ensures within { result < length ends.now }
    ensures owner { (d : DequeEnd) → end_owners (slice_index_or ends.now result d) ≡ 1 }
{
    for at in 0..ends.len() {
        if let DequeEnd::Owner(_) = &ends[at] {
            return at;
        }
    }
    unreachable!()
}
