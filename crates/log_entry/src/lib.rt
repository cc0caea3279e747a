//! Entries of a log, and equality of events and of replies.
//!
//! An `Entry` is an event with a reply of the event's kind. `Entry::new` checks the kind, and its comment
//! lists the kinds. Runs, judges and journals check whether the machine may give the reply.
//!
//! Journal and auditor build on this crate, so transcripts are read without the engine.
//! Making an entry takes no memory.
//!
//! ```rust
//! let entry = Entry::new(Event::Link(a, b), Reply::Accepted);      // `None` if the reply is of another kind
//! ```
#![tactic(auto)]

mod entry;
mod equality;
mod kinds;

pub use entry::{Entry, MAX_ENTRIES};
pub use equality::{same_event, same_reply};
