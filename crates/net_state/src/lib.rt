//! A network with its registers: a state of the rule machine, and the edits that change it.
//!
//! A `NetState` is a valid state before and after each call: every pointer is null or at a neighbour, and an
//! absent name has no edge, a null pointer and a false flag. `NetState` does not check the preconditions of
//! its calls: its callers refuse events.
//!
//! An `Observer` of a state stores values that depend on it, and updates them after each change. The free
//! functions alone edit a state that is observed. Each passes the `Change` that it made to the observer: a
//! pointer, a flag, an edge or a node; `unlink`, `leave` and `make_moves` consist of several edits.
//!
//! `OpenEdges` has a stance of each node on its edges (`set_stance`), and counts the edges that are open by the
//! stances of both ends. Like an observer it follows each change (`follow`).
//!
//! A base's lines become a state by `NetState::from_lines`, if a state has them.
//!
//! Only `with_present`, `from_lines`, `reserve_link`, `link`, `list_edges`, `list_places` and `OpenEdges::new`
//! take memory.
//!
//! ```rust
//! net.reserve_link(a, b)?;                          // may refuse, and changes nothing
//! link_reserved(&mut net, &mut observer, a, b);
//! set_pointer(&mut net, &mut observer, a, Some(b));
//! unlink(&mut net, &mut observer, a, b);            // and the pointer is null again
//! ```
#![tactic(auto)]

mod change;
mod disturb;
mod edge_stance;
mod lines;
mod net;
mod observer;
mod open_edges;
mod places;

pub use change::Change;
pub use disturb::{
    join, leave, link_reserved, make_moves, remove_edge, remove_node, set_flag, set_pointer, unlink,
};
pub use edge_stance::EdgeStance;
pub use lines::{edges_ascend, has_flag, names_rise};
pub use net::NetState;
pub use observer::Observer;
pub use open_edges::OpenEdges;
