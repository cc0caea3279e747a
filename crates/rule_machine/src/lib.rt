//! The plain types of a matching network, what a rule set is, and in `specs/` the definitions of its rule
//! machine.
//!
//! An `Event` is a request to a network, a `Reply` the answer, a `Refusal` the reason why an event was
//! refused. The definitions (`Network`, `State`, `RuleTable`, `Step`, `Answer`, `Run`) say what a network may
//! answer; docs/DEFINITIONS.md explains them.
//!
//! In contracts a `Listing` is the list of its items, so two events may be equal although they use memory
//! differently. The numbers and texts of refusals never change, because transcripts contain them.
//!
//! `Rules` is an algorithm: guard, target, cost, constants and laws. Engine, journal, lock and readers are
//! proved once, for any rule set. A guard reads only `Local` (the registers of a node and its neighbours). A
//! cost reads only `Touched` (the nodes that a disturbance touches). So neither can look at more.
//!
//! The laws of every rule set (`specs/RulesLaws.antt`):
//! - The table defines which moves are allowed.
//! - A guard depends only on a few values at its node (`AgreesLocally`).
//! - A network is silent if and only if the network is stable.
//! - Every move lowers the charge (the potential). The numbers of edges and nodes bound the charge.
//! - A disturbance adds at most its cost to the charge.
//!
//! ```rust
//! let (Some(a), Some(b)) = (Node::new(1), Node::new(2)) else { return None };
//! let event = Event::Link(a, b);
//! let step = Event::Step(Choice::one(Item { node: a, wish: None }));
//! ```
#![tactic(auto)]

mod act;
mod base;
mod charge_input;
mod choice;
mod counts;
mod edge;
mod event;
mod listing;
mod local;
mod memory;
mod node;
mod refusal;
mod reply;
mod rule_set;
mod rules;
mod touched;
mod verdict;

pub use act::{Act, Moved};
pub use base::{Base, EpochStart, NodeRecord};
pub use charge_input::ChargeInput;
pub use choice::{Choice, Item, MAX_ITEMS};
pub use counts::Counts;
pub use edge::{Edge, MAX_EDGES};
pub use event::Event;
pub use listing::Listing;
pub use local::Local;
pub use memory::Want;
pub use node::{MAX_NAME, Node};
pub use refusal::Refusal;
pub use reply::Reply;
pub use rule_set::RuleSet;
pub use rules::{BadTarget, Rules, asks_for};
pub use touched::{Touched, points_at};
pub use verdict::{Outcome, Verdict};
