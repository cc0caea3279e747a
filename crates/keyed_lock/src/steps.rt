//! The table's rule, and the lock's steps.

ghost use Rattle.keyed_lock.specs.LockSteps.{IsLockState, arrived, claimed, left};

use crate::Invariant;
use atomic_table::{Play, TableRule};
use std::marker::PhantomData;

/// The rule: while the word is 0, the slot has the value.
pub struct OneValue<I> {
    invariant: PhantomData<I>,
}

impl<T, K, I: Invariant<T, K>> TableRule<Option<T>, K, K> for OneValue<I> {
    ghost holds = { λ key s. IsLockState I.holds key s };

    ghost first = { λ key. key };
}

pub struct Arrive;

impl<T, K> Play<Option<T>, K> for Arrive {
    ghost then = { arrived };
}

pub struct Claim<I> {
    invariant: PhantomData<I>,
}

impl<T, K, I: Invariant<T, K>> Play<Option<T>, K> for Claim<I> {
    ghost then = { claimed I.holds };
}

pub struct Leave;

impl<T, K> Play<Option<T>, K> for Leave {
    ghost then = { left };
}
