//! A lock for one value, with an invariant that depends on the lock's key.
//!
//! `take` gives exclusive access to the value, and the fact that `I::holds` is true of the key and the value.
//! `give` requires the same fact of the value given back. So a thread can rely on what earlier threads
//! proved, without a check: `locked_net` guards its log this way.
//!
//! The lock occupies one word and one slot of the kit's `atomic_table`. No claim is made that a waiting
//! thread ever gets the lock.
//!
//! ```rust
//! let (mut value, hold) = lock.take(rt);
//! change(&mut value);                               // has to leave a value that holds at the key
//! lock.give(hold, value);
//! ```
#![tactic(auto)]

mod lock;
mod steps;

pub use lock::{Hold, Invariant, KeyedLock};
