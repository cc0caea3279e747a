//! Faults of registers, drawn from the words of a generator.
//!
//! An `Injector` draws a write of a pointer or a flag that the network accepts. The fault depends only on
//! the generator's words and the network's state. A draw takes two words, or three if the rules use flags.
//! If the network has no node, there is no fault and no word is taken. The injector changes nothing in the
//! network: the caller carries out the event.
//!
//! A draw looks at one neighbour at most and takes no memory. Nothing is claimed about the distribution of
//! faults.
//!
//! ```rust
//! let mut injector = Injector::new(Pcg32::seed_from_u64(7));
//! if let Some(fault) = injector.draw(&net) {
//!     net.apply(&fault)?;                           // `Point` or `Flag`
//! }
//! ```
#![tactic(auto)]

mod injector;
mod picks;

pub use injector::Injector;
