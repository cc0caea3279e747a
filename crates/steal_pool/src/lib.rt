//! A pool of workers that judge the items of a choice and take them from each other.
//!
//! `evaluate` returns the verdict of each item of a choice, in order. The result is the same for 1 to 64
//! workers in any schedule; the network must not change meanwhile. `Recorder::log_step` and
//! `Journal::record_step` take the verdicts and evaluate no guard again to find the reply. Before each place
//! a worker passes a `Gate`; `NoGate` makes no worker wait. Callers with their own threads use the parts of
//! `evaluate`: `hands`, `Hand::work` and `merge`. The places of a choice are on a deque (`deque`).
//!
//! `evaluate` takes memory for the list of verdicts, 28 bytes each, and for a deque. Threads come from `rt`;
//! without threads, one thread does all. `paying_workers` returns how many workers are worth starting for a
//! number of items.
//!
//! ```rust
//! let verdicts = evaluate(rt, alloc, &net, &choice, 4, &NoGate)?;
//! let reply = net.apply_step(&choice, &verdicts)?;
//! ```
#![tactic(auto)]

mod dealing;
mod deque;
mod evaluation;
mod fault;
mod gate;
mod hand;
mod merging;
mod paying;
mod worker;

pub use dealing::{MAX_WORKERS, hands};
pub use evaluation::evaluate;
pub use fault::PoolFault;
pub use gate::{Gate, NoGate};
pub use hand::{Hand, Share};
pub use merging::merge;
pub use paying::paying_workers;
