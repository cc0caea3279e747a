//! The rule of one node, from what the node itself holds: its own name, pointer and flag, and those of each
//! neighbour.
//!
//! `local_rule` needs no network. In every state of the machine that shows this at the node, its answer is the
//! machine's: the enabled rule, the least target, and the registers that the machine's step writes. It refuses
//! exactly what no state shows.
//!
//! ```rust
//! let answer = local_rule::<Manne>(own, &around)?;  // None: no rule is enabled
//! ```
#![tactic(auto)]

mod as_record;
mod fault;
mod laws;
mod local_move;
mod local_rules;
mod repair;
mod rule;
mod seen;

pub use as_record::AsRecord;
pub use fault::{ViewFault, fault_of};
pub use laws::{local_moves_are_steps, steps_are_local_moves, unlinking_repairs};
pub use local_move::LocalMove;
pub use local_rules::LocalRules;
pub use repair::repaired;
pub use rule::{local_rule, local_rule_of, may_move, may_move_of};
