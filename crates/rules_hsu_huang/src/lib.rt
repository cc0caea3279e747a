//! Hsu and Huang's algorithm of 1992, under a central daemon: one node moves at a time.
//!
//! - A node with a null pointer marries a neighbour that points at it. If there is none, it seduces a
//!   neighbour whose pointer is null.
//! - A node resets its pointer (abandons its target) if its target points at another node.
//!
//! The algorithm uses no flags. Each node adds 1 to the bound: with m edges and n nodes a run settles
//! within 2m + n moves.
//!
//! `HsuHuang` implements the algorithm as `Rules`. The guards, targets and costs are those of the table
//! `hsu_huang` of `rule_machine`, and all laws of a rule set are proved here. `HsuHuang` is used as a type
//! parameter:
//!
//! ```rust
//! let mut net = Net::<HsuHuang>::new(alloc, 2)?;
//! let reply = net.apply(&Event::Link(a, b))?;
//! ```
#![tactic(auto)]

mod by_nodes;
mod cost;
mod hsu_huang;
mod silent;

pub use hsu_huang::HsuHuang;
