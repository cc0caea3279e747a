//! The edges of a network as sorted neighbour lists.
//!
//! An `EdgeStore` has the edges of a network and the names that are present. Each node has an ascending list
//! of its neighbours, so each edge is listed at both ends. The store counts its edges. The store refuses
//! exactly what the definitions refuse, for the same first reason. An error leaves the network unchanged.
//!
//! Only a new store, `link`, `reserve_link` and `list` take memory. `link` can be done in two calls:
//! `reserve_link`, which may fail, then `link_reserved`, which can't fail.
//!
//! ```rust
//! let mut store = EdgeStore::new(alloc, 3)?;
//! store.link(a, b)?;                 // `AlreadyLinked`, `SelfLoop`, ..: `GraphFault`
//! assert!(store.neighbours(a) == [b]);
//! ```
#![tactic(auto)]

mod blocks;
mod edge_store;
mod fault;
mod row_pool;
mod rows;

pub use edge_store::{EdgeStore, first_names};
pub use fault::GraphFault;
pub use rule_machine::{Edge, MAX_EDGES, Node};
