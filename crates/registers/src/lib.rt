//! Each node's pointer and married flag.
//!
//! `net_state`, one crate up, ensures that each pointer is at a neighbour and that absent names have null
//! pointers.
//!
//! Each call costs one look or one write; `married` costs two looks.
//! Only `new` takes memory: a pointer and a flag for each name.
//!
//! ```rust
//! let mut registers = Registers::new(alloc, 3)?;
//! registers.set_pointer(a, Some(b));
//! assert!(registers.points_at(a, b) && !registers.married(a));
//! ```
#![tactic(auto)]

mod pointer;
mod table;

pub use pointer::Pointer;
pub use table::Registers;
