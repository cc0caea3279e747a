//! A deque of the places of a list, in blocks; workers take each place once, at the deque's ends.
//!
//! `ends` puts the places 0 to n - 1 on one work-stealing deque and gives each worker a `DequeEnd`. A worker
//! takes blocks from its end until no block is left. `gather` joins all ends again. No code checks that each
//! place was taken once: the deque's rule says so, by a ledger of no bytes at each end. For any weight of
//! places, the places taken and the places left together have the weight of the places put.
//!
//! The first 64 blocks, one for each possible end, have one place each, so that a worker made to wait delays
//! no other worker. Later blocks have at most 64 places. Taking a block takes no memory.

mod block;
mod end;
mod joining;
mod ledger;
mod owner;
mod thief;

pub(crate) use block::Block;
pub(crate) use end::{DequeEnd, ends};
pub(crate) use joining::gather;
pub(crate) use ledger::Ledger;
pub(crate) use owner::Owner;
pub(crate) use thief::Thief;
