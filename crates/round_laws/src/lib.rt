//! Laws of rounds: how many asynchronous rounds a run without a disturbance completes.
//!
//! Laws only: each public function is empty and its contract is the law. The laws hold for any run of the
//! rule machine, from any state, whatever the daemon chooses. Between two disturbances n nodes complete at
//! most n rounds by Hsu and Huang's rules (`hsu_huang_rounds_are_few`), and at most 2n by Manne's, or 2n - 1
//! if n is odd (`manne_rounds_are_few`). After that many the network is silent. Some runs have that many. Three
//! more laws say what is counted: `rounds_are_pieces`; `rounds_are_stamped`, a cheap way to count; and
//! `rounds_are_counted`, entry by entry and across disturbances.
//!
//! ```rust
//! manne_rounds_are_few();                       // from here on the prover knows the law
//! ```
#![tactic(auto)]

mod law;

pub use law::{
    hsu_huang_rounds_are_few, hsu_huang_rounds_are_reached, manne_rounds_are_few,
    manne_rounds_are_reached, rounds_are_counted, rounds_are_pieces, rounds_are_stamped,
};
