//! Which nodes can move: finds nodes at rest, and the nodes that a disturbance would reach.
//!
//! At a node at rest no rule is enabled, and no step of other nodes enables one (`is_at_rest`). The reach
//! of an event is the set of nodes whose rest the event may end (`is_in_reach`, `list_reach`). By the laws
//! of `containment_laws` a node at rest that is in the reach of no disturbance never moves.
//!
//! `is_at_rest` and `is_in_reach` look only at the node, its neighbours and the nodes that the event names.
//! They take no memory.
//!
//! ```rust
//! let still = is_at_rest(&net, true, v);            // whatever the daemon chooses, v does not move
//! let hit = is_in_reach(&net, &Event::Unlink(a, b), v);
//! ```
#![tactic(auto)]

mod list;
mod reach;
mod rest;

pub use list::list_reach;
pub use reach::is_in_reach;
pub use rest::is_at_rest;
