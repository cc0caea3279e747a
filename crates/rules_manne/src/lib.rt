//! The algorithm of Manne, Mjelde, Pilard and Tixeuil of 2009, under a distributed daemon: any set
//! of enabled nodes moves at once.
//!
//! - Each node has a flag that shows its neighbours whether the node is married. A node with a wrong flag
//!   first corrects the flag.
//! - A node with a null pointer marries a suitor. If there is none, the node seduces the greatest neighbour
//!   that is above the node, has a null pointer and is not flagged.
//! - A node resets its pointer (abandons its target) if its target does not point back and is flagged or
//!   not above the node.
//!
//! Each node adds 3 to the bound: with m edges and n nodes a run settles within 2m + 3n moves.
//!
//! `Manne` implements the algorithm as `Rules`. The guards, targets and costs are those of the table
//! `manne` of `rule_machine`, and all laws of a rule set are proved here. `Manne` is used as a type
//! parameter:
//!
//! ```rust
//! let mut net = Net::<Manne>::new(alloc, 2)?;
//! let reply = net.apply(&Event::Link(a, b))?;
//! ```
#![tactic(auto)]

mod by_nodes;
mod cost;
mod manne;
mod silent;

pub use manne::Manne;
