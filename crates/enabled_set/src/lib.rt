//! Sets of node names with a count and a k-th member, and marks that are taken one by one.
//!
//! An `EnabledSet` is the set of a network's enabled nodes, or of its present nodes. Daemons and injectors
//! get the k-th member without a scan of all names. `Marks` are the nodes of a choice, or names to be looked
//! at again. A `NameBits` is a copy of an `EnabledSet` that only loses members, 64 names at a time if need be.
//! `Removals` lists names that left a set.
//!
//! Only `new` and `to_list` take memory.
//!
//! ```rust
//! let mut set = EnabledSet::new(alloc, 1_000)?;
//! set.insert(v);
//! assert!(set.count() == 1 && set.nth(0) == Some(v));
//! ```
#![tactic(auto)]

mod marks;
mod name_bits;
mod removals;
mod scan;
mod set;
mod spot;
mod words;

pub use marks::Marks;
pub use name_bits::NameBits;
pub use removals::Removals;
pub use set::EnabledSet;
