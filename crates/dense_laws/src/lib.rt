//! Laws of dense networks: a bound on moves by Hsu and Huang's rules that is independent of the edges.
//!
//! Laws only: each public function is empty and its contract is the law. The laws hold for any run of the
//! rule machine, from any state, whatever the daemon chooses. Between two disturbances n nodes make at most
//! n²/2 + n - 2 moves, rounded down (`moves_are_few`). For each n of 2 or more a run reaches the bound
//! (`bound_is_reached`). The bound 2m + n of `machine_laws` is smaller if there are few edges.
//!
//! ```rust
//! moves_are_few();                              // from here on the prover knows the law
//! ```
#![tactic(auto)]

mod law;

pub use law::{
    bound_is_reached, dense_bound_holds, dense_charge_falls, dense_moves_are_paid,
    enough_turns_end_silent, moves_are_few,
};
