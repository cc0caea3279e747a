//! A judge of replies: finds, by looks at an event's nodes, whether the machine may give a reply.
//!
//! A `Judge` keeps the state of a run. It carries out the event of a right reply; a wrong reply changes
//! nothing. The judge's guards, targets and counts are written from the tables alone and share no code with
//! the engine's rule sets, so that the judge does not repeat a mistake of the engine. Only the state
//! (`net_state`) is shared.
//!
//! A judge may begin at a base (`at_base`). It returns the base of its state (`base`) and its network (`net`).
//! In a network, `rule_at` and `is_enabled` find the enabled rules, and `cost_of` the cost of a disturbance.
//! `is_enabled` keeps for its node a `Witness`: until the registers of the node or its witness, or its
//! neighbours, change, the answer stays the same.
//!
//! ```rust
//! let mut judge = Judge::new(alloc, 2)?;
//! let right = judge.replay(RuleSet::Hh, 0, &Event::Link(a, b), &Reply::Accepted)?;
//! ```
#![tactic(auto)]

mod bases;
mod callers;
mod choices;
mod contribution;
mod contributions;
mod counted_net;
mod hsu_huang;
mod judge;
mod judging;
mod manne;
mod questions;
mod reads;
mod refusals;
mod rules;
mod steps;
mod totals;
mod witness;

use choices::ChosenItems;
use counted_net::CountedNet;
pub use judge::Judge;
pub use rules::{cost_of, is_enabled, rule_at};
pub use witness::Witness;
