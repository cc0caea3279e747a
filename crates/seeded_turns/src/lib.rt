//! Sources of the events of a line's turns: a daemon that drives the network, or an injector of faults.
//!
//! An `EventSource` finds the next event from the network's present state and the words of one generator.
//! `daemon_of_seed` serves the line `drive S K` with steps that `daemon::Seeded` chooses. `injector_of_seed`
//! serves the line `scramble S K` with faults that `fault_injector` draws. Both seed `rand_pcg`'s PCG with S;
//! the events depend only on S and the states in between. `None` ends a line's turns: no node is enabled
//! (`drive`), or the network has no node (`scramble`).
//!
//! Unless the daemon is central, each turn takes memory for the list of enabled nodes and for the items. If
//! memory runs out, no word has been taken.
//!
//! ```rust
//! let mut source = daemon_of_seed(alloc, 7);
//! while let Some(event) = source.next_event(&net)? {
//!     net.apply(&event)?;
//! }
//! ```
#![tactic(auto)]

mod event_source;
mod seeded;

pub use event_source::EventSource;
pub use seeded::{daemon_of_seed, injector_of_seed};
