//! Views of a transcript: a picture of a state as a Graphviz graph, or the table of its epochs.
//!
//! Each view is exactly the text that its definition gives for the run whose transcript the bytes are.
//! Damaged bytes are refused as the auditor refuses them, but a picture ignores the lines after its entry.
//! The judge's guards find the enabled nodes, so no view needs the engine. The whole picture is in memory.
//!
//! ```rust
//! match view_picture(alloc, &bytes, Some(3))? {
//!     View::Text(graph) => ..,                                      // after the third entry
//!     View::Refused(damage) => ..,
//!     View::TooFew { number, entries } => ..,
//!     View::Forgotten { number, base } => ..,
//! }
//! ```
#![tactic(auto)]

mod edges;
mod graph;
mod law;
mod nodes;
mod table;
mod view;
mod words;

pub use graph::picture;
pub use law::one_view;
pub use view::{View, view_epochs, view_picture};
