//! Counts the complete rounds of a run while it goes on.
//!
//! A `RoundCounter` keeps the nodes pending in the present round. After a step it drops the movers, and of the
//! names that left the set of enabled nodes those that are not enabled now. Whoever keeps that set notes these
//! names in a `Removals` list. If names may be missing there, the counter drops all nodes that are not enabled,
//! 64 at a time. It counts exactly the rounds of `round_laws`. A disturbance and the end of a round cost it no
//! look: the nodes pending from then on are the enabled ones, and are copied only before the next step.
//!
//! ```rust
//! let mut counter = RoundCounter::new(alloc)?;
//! let mut removals = Removals::new(alloc)?;
//! counter.begin_step(&enabled);                     // before the step
//! enabled.remove(v);                                // for each node that the step disables
//! removals.note(v);
//! counter.follow(&reply, &enabled, &mut removals);  // after it
//! ```
#![tactic(auto)]

mod counter;
mod pending;

pub use counter::RoundCounter;
