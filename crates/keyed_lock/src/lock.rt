//! The lock and its invariant.

ghost use Rattle.std.specs.Prelude.{◌≡◌, IfOk, IfErr};
ghost use Rattle.keyed_lock.specs.LockSteps.{Waits, HasValue};

use crate::steps::{Arrive, Claim, Leave, OneValue};
use atomic_table::{Refused, Seat, Table};
use std::alloc::{AllocFailed, Global};
use std::sync::Wait;

const FREE: u64 = 0;

const TAKEN: u64 = 1;

/// The lock is taken, and a thread may sleep until the lock is free.
const AWAITED: u64 = 2;

/// What a locked value satisfies, given its lock's key. Only contracts use this trait.
pub trait Invariant<T, K> {
    ghost holds: { K → T → Type 0 };
}

/// A lock for one value, with a key that never changes and that only contracts compare.
///
/// The lock can't be dropped, only ended by `into_inner`.
pub struct KeyedLock<T, K, I: Invariant<T, K>> {
    table: Table<Option<T>, K, K, OneValue<I>, Global>,
    ghost one_word: { table.shared.table_id.words ≡ 1 },
    ghost one_slot: { table.shared.table_id.slots ≡ 1 },
}

/// The right to give a lock's value back. A hold takes no bytes.
/// A hold can't be dropped, only ended by `give`.
pub struct Hold<T, K> {
    seat: Seat<Option<T>, K>,
}

impl<T, K, I: Invariant<T, K>> KeyedLock<T, K, I> {
    ghost use Rattle.keyed_lock.specs.Locks.{key_of, IsHoldOf};

    /// A free lock for this value and key. If memory runs out, the error returns the value.
    pub fn new(alloc: Global, value: T, key: &K) -> Result<KeyedLock<T, K, I>, AllocFailed<T>>
        requires { I.holds key.now value }
        ensures key { IfOk result (λ lock. key_of lock ≡ key.now) }
        ensures refused { IfErr result (λ failed. failed.value ≡ value) }
    {
        let mut slots = Vec::new(alloc);
        if let Err(AllocFailed { value: slot }) = slots.push(Some(value)) {
            slots.destroy_empty();
            let Some(value) = slot else { unreachable!() };
            return Err(AllocFailed { value });
        }
        match Table::new(alloc, &[FREE], slots, key) {
            Ok((table, _)) => Ok(KeyedLock { table }),
            Err(Refused { mut slots }) => {
                let last = slots.pop();
                let Some(Some(value)) = last else {
                    unreachable!()
                };
                slots.destroy_empty();
                Err(AllocFailed { value })
            }
        }
    }

    /// Waits until the lock is free and takes its value.
    /// A waiting thread sleeps. If the calling thread already has the value, the call waits for ever.
    pub fn take<R: Wait>(&self, rt: &R) -> (T, Hold<T, K>)
        ensures value { I.holds (key_of self.now) result.0 }
        ensures hold { IsHoldOf self.now result.1 }
    {
        let mut seat = self.table.shared.load_new_seat::<Arrive>(0).1;
        self.claim(rt, &mut seat);
        let slot = self.table.shared.exchange(&mut seat, 0, None);
        let Some(value) = slot else { unreachable!() };
        (value, Hold { seat })
    }

    fn claim<R: Wait>(&self, rt: &R, seat: &mut Seat<Option<T>, K>)
        requires { Waits self.now.table.shared.table_id (key_of self.now) seat.old }
        ensures table { seat.new.table_id ≡ seat.old.table_id }
        ensures value { HasValue I.holds (key_of self.now) seat.new.me }
    {
        let shared = &self.table.shared;
        if shared.compare_exchange::<Claim<I>>(seat, 0, FREE, TAKEN) == FREE {
            return;
        }
        for _ in rt.forever() {
            if shared.swap::<Claim<I>>(seat, 0, AWAITED) == FREE {
                return;
            }
            shared.park(rt, 0, AWAITED as u32);
        }
        unreachable!()
    }

    /// Gives a value back and frees the lock. Wakes one waiting thread, if any.
    pub fn give(&self, hold: Hold<T, K>, value: T)
        requires hold { IsHoldOf self.now hold }
        requires value { I.holds (key_of self.now) value }
    {
        let Hold { mut seat } = hold;
        let slot = self.table.shared.exchange(&mut seat, 0, Some(value));
        let None = slot else { unreachable!() };
        if self.table.shared.swap::<Leave>(&mut seat, 0, FREE) == AWAITED {
            self.table.shared.wake_one(0);
        }
    }

    /// Ends a lock that is no longer shared, and returns the lock's value.
    /// If the value was taken and not given back, the call waits for ever.
    pub fn into_inner<R: Wait>(self, rt: &R) -> T
        ensures { I.holds (key_of self) result }
    {
        let KeyedLock { table } = self;
        let mut closed = table.close();
        let word = closed.word(0);
        let slot = closed.take(0);
        closed.free();
        if word == FREE {
            let Some(value) = slot else { unreachable!() };
            return value;
        }
        for _ in rt.forever() {}
        unreachable!()
    }
}
