//! Counts the complete rounds of a run that a judge follows.
//!
//! A `JudgedRounds` keeps the enabled nodes of a judge's state. Before an entry it marks the nodes whose
//! rules the entry may enable or disable: the nodes that it changes, and their neighbours. After the entry it
//! looks at the marked nodes alone. A judge without a count pays nothing.
//!
//! A look at a node also finds its witness: the one other node on whose registers its rules depend. If an entry
//! only writes a node's registers, a neighbour is marked only if that node is its witness, or it has none.
//!
//! ```rust
//! let mut rounds = JudgedRounds::new(alloc, rules, &judge)?;
//! rounds.prepare(&judge, event, reply);             // before the entry
//! judge.replay(rules, spent, event, reply)?;
//! rounds.follow(&judge, reply);                     // after it
//! ```
#![tactic(auto)]

mod around;
mod count;
mod looks;

pub use count::JudgedRounds;
