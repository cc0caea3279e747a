//! Laws of the rule machine: invariants of its states, steps and runs, answers with the least targets,
//! maximal matchings, and the charge (the potential of convergence).
//!
//! Laws only: each public function is empty and its contract is the law. `proofs/` has the lemmas that other
//! crates cite.
//!
//! The main laws:
//!
//! - No two mutual pairs of a state share an end.
//! - In a stable network the mutual pairs are a maximal matching.
//! - A network is stable if its mutual pairs are a maximal matching, the target of each pointer points
//!   back, and each flag in use is right.
//! - No matching has more than twice as many edges as a maximal matching.
//! - A base determines its moment.
//!
//! Moves lower the charge, the network's size bounds it, and disturbances raise it. These laws hold for any
//! run of the rule machine, from any state, whatever the daemon chooses. With m edges and n nodes:
//!
//! - Between two disturbances nodes make at most 2m + n moves by Hsu and Huang's rules and 2m + 3n by
//!   Manne's (`moves_are_bounded`).
//! - Moves spent plus the charge left are at most the charge at the start (`moves_are_paid`).
//! - From a stable state the costs of edits and faults bound all moves (`stable_moves_are_paid`). Each cost
//!   is a sum of degrees of the nodes that the event touches. By Manne's rules the bound is 2 more for each
//!   pair gained and 1 more for each node gone.
//!
//! docs/BOUNDS.md has the bounds on one page.
//!
//! ```rust
//! stable_is_maximal();                              // from here on the prover knows the law
//! ```
#![tactic(auto)]

mod convergence;
mod cost;
mod matching;
mod silence;

pub use convergence::{
    enough_moves_give_half, enough_moves_settle, enough_steps_settle, epochs_are_bounded,
    moves_are_bounded, moves_are_paid, runs_may_begin, runs_may_go_on, spending_is_bounded,
};
pub use cost::{
    disturbances_cost, disturbed_moves_are_paid, one_disturbance_pays, stable_charge,
    stable_moves_are_paid,
};
pub use matching::{
    base_tells, maximal_is_half, maximal_is_stable, mutual_pairs_apart, stable_is_half,
    stable_is_maximal,
};
pub use silence::{
    fewer_moves_settle, least_charge_is_stable, long_runs_end_silent, silence_lasts,
};
