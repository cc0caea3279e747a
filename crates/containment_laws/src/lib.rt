//! Laws of fault containment: which nodes can move, and which a disturbance can reach, whatever the daemon
//! chooses.
//!
//! Laws only: each public function is empty and its contract is the law, which `specs/Laws` states in words.
//!
//! - A node is *at rest* if its flag is right (if flags are used), and it is married, or its pointer is
//!   null and each of its neighbours is married (`specs/Rest`). No rule is enabled at a node at rest, and
//!   no step of other nodes enables one. No step breaks a pair.
//! - Each edit and fault has a *reach* (`specs/Reach`): the nodes at which it may enable a rule. They are
//!   within two links of the nodes that the event names (`reach_is_near`). How many they are is bounded by
//!   degrees (`reach_is_small`).
//! - From a stable network only nodes in the reach ever move, all others keep their registers, and at most
//!   one pair is lost (`one_is_contained`, `one_pair_is_lost`). The same holds for any number of disturbances
//!   (`all_are_contained`).
//!
//! ```rust
//! one_is_contained();                               // from here on the prover knows the law
//! ```
#![tactic(auto)]

mod law;

pub use law::{
    all_are_contained, disturbances_break_one, disturbances_reach, lawful_rules_contain,
    movers_are_accounted_for, movers_were_reached, movers_were_restless, one_is_contained,
    one_pair_is_lost, pairs_are_accounted_for, pairs_are_left, reach_is_exact, reach_is_near,
    reach_is_small, rest_is_idle, runs_keep_pairs, runs_leave_rest, stable_is_rest,
    steps_keep_pairs, steps_leave_rest,
};
