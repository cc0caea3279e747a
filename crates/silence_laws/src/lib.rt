//! Laws of what one disturbance changes between a silent network and the next silent one, whatever
//! the daemon chooses.
//!
//! Laws only: each public function is empty and its contract is the law, which `specs/Laws` states in words.
//!
//! - `specs/Changes` defines how many pairs a silent network may gain or lose by each edit and fault: at
//!   most one, whatever the network's size (`few_are_gained`, `few_are_lost`).
//! - By Manne's rules the moves after one disturbance are at most its cost, plus 2 if a new pair may form,
//!   plus 1 for `leave` (`manne_moves_are_paid`).
//! - Each edit and fault has a silent cost, which counts unmarried neighbours alone (`specs/Costs`,
//!   `silent_cost_pays`, `manne_silent_cost_pays`).
//! - By Hsu and Huang's rules changing the pointer of a paired node costs 2 or 3 less than the table of
//!   costs gives (`turned_costs_less`).
//! - Rewriting a pointer costs nothing (`rewriting_changes_nothing`). The table's rows for unanswered or
//!   courted nodes never apply to a silent network (`nobody_waits`).
//!
//! ```rust
//! few_are_gained();                                 // from here on the prover knows the law
//! ```
#![tactic(auto)]

mod law;

pub use law::{
    few_are_gained, few_are_lost, manne_moves_are_paid, manne_silent_cost_pays, nobody_waits,
    rewriting_changes_nothing, silent_cost_pays, turned_costs_less,
};
