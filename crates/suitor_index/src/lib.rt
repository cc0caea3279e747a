//! Counts of suitors and open neighbours, so that a look-up with no result scans nothing.
//!
//! Besides a network (`net_state`) `Suitors` stores three numbers for each node: how many suitors the node has
//! (neighbours that point at the node), the sum of the suitors' names modulo 65,536, and how many open
//! neighbours the node's guard asks for. A copy of the node's pointer is with them, so that one look reads
//! all four. `Suitors` is an `Observer`: each change of the network updates the numbers. `IndexedNet` borrows
//! both for look-ups. Contracts see the network alone.
//!
//! To find whether a node has a suitor or an open neighbour takes one look; to find which, a scan up to the
//! first. A register write that opens or closes its node costs a write at each neighbour whose guard asks
//! for the node. Only `Suitors::new` and `Suitors::of` take memory.
//!
//! ```rust
//! let mut net = NetState::with_present(alloc, 2, 2)?;
//! let mut suitors = Suitors::<R>::new(alloc, 2)?;
//! net.reserve_link(a, b)?;
//! link_reserved(&mut net, &mut suitors, a, b);
//! set_pointer(&mut net, &mut suitors, a, Some(b));
//! let courting = IndexedNet::new(&net, &suitors).first_suitor(b);   // a
//! ```
#![tactic(auto)]

mod changes;
mod indexed_net;
mod node_view;
mod scan;
mod state_counts;
mod suitors;
mod table;
mod tally;

pub use indexed_net::IndexedNet;
pub use node_view::NodeView;
pub use suitors::Suitors;
