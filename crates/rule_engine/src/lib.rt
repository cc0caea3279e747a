//! The rule engine: a network whose replies and states are those of the rule machine, for any rule set.
//!
//! A `Net<R>` carries out one event at a time. The reply is `reply_of` of the definitions, with the least
//! free targets; the state afterwards is `moment_after`. The network counts the moves since the last
//! disturbance; these moves plus the charge never exceed the bound. The network keeps the list of enabled
//! nodes, and evaluates guards again only at nodes whose view changed. If an event is refused or memory runs
//! out, nothing changes.
//!
//! `apply` is `prepare`, which takes all the memory, then `commit`, which cannot fail. A step costs a look at
//! each chosen node and the writes of its moves, whatever the size of the network. The crate names no rule
//! set, keeps no log and parses no text. `Net::from_base` begins where a run ended, at a base.
//! `Net::count_rounds` lets a network count the complete rounds; without that call it does not.
//!
//! ```rust
//! let mut net = Net::<Manne>::new(alloc, 2)?;
//! net.apply(&Event::Link(a, b))?;
//! let reply = net.apply(&Event::Step(Choice::one(Item { node: a, wish: None })))?;
//! let (left, quiet) = (net.charge(), net.is_quiet());
//! ```
#![tactic(auto)]

mod base_fault;
mod charge;
mod collected_moves;
mod derived;
mod edits;
mod events;
mod from_base;
mod from_state;
mod guard;
mod left;
mod listing;
mod look;
mod net;
mod reach;
mod refresh;
mod replies;
mod rounds;
mod silence;
mod touched_nodes;

pub use base_fault::BaseFault;
pub(crate) use derived::Derived;
pub use enabled_set::EnabledSet;
pub use graph_store::{Edge, GraphFault, Node};
pub use move_bounds::{NodeBound, SilentCost};
pub use net::Net;
pub use rule_machine::{
    Act, BadTarget, Base, Choice, Counts, Event, Item, Listing, Local, Moved, NodeRecord, Outcome,
    Refusal, Reply, RuleSet, Rules, Verdict, Want,
};
