//! What each node contributes to the totals of its network, and the totals.
//!
//! `Contributions` has a contribution for each name, and observes a network (`net_state`). Each change marks
//! at most three names as stale: what their nodes contribute to the charge and the pairs may have changed. A
//! question (`totals`, `lower_ends`) looks at the stale names alone and updates the sums.
//!
//! Only `new` and `lower_ends` take memory.
//!
//! ```rust
//! set_pointer(&mut net, &mut contributions, v, Some(w));
//! let pairs = contributions.totals(&net, &suitors).pairs;
//! ```
#![tactic(auto)]

mod contribution;
mod contributions;
mod totals;

pub use contributions::Contributions;
pub use totals::Totals;
