//! Daemons choose the nodes that move.
//!
//! A `Daemon`, central or not, chooses the nodes of the next step among the enabled nodes. Its contract says
//! that every choice is lawful. `Seeded` draws choices from a random generator, `Recorded` takes them from
//! lists; their contracts define each choice exactly. Any crate may add another daemon.
//!
//! The bounds on moves hold for every daemon. Fairness is not claimed.
//!
//! ```rust
//! let mut daemon = Seeded::new(alloc, Pcg32::seed_from_u64(7));
//! if let Some(choice) = daemon.choose(net.enabled(), R::CENTRAL)? {
//!     net.apply(&Event::Step(choice))?;
//! }
//! ```
#![tactic(auto)]

mod choose;
mod law;
mod recorded;
mod seeded;

pub use choose::Daemon;
pub use law::seeded_rests_among_nobody;
pub use recorded::Recorded;
pub use seeded::Seeded;
