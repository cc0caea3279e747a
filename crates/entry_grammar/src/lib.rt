//! The lines of a transcript. Each entry and each header has one spelling.
//!
//! A line is read as an entry, a header or a line of a base if and only if the line spells one. A line spells
//! at most one of each (the law `one_spelling`). `read_base` reads all lines of a base, or names the first
//! line that is wrong or missing. So a leading zero, two spaces or a pair in the wrong order is refused, and
//! two transcripts of one run are the same bytes.
//!
//! The auditor, not this crate, checks that entry numbers are consecutive and that the machine may give each
//! reply. Reading takes memory only for lists of several items.
//!
//! ```rust
//! let (number, entry) = read_entry(alloc, b"3 show 2 = 1")?;        // `NotALine`, or `Memory`
//! assert!(entry_text(alloc, number, &entry)? == b"3 show 2 = 1");
//! ```
#![tactic(auto)]

mod base_line;
mod base_reader;
mod counts;
mod cut;
mod entry;
mod fault;
mod header;
mod law;
mod reply;
mod token;
mod tokens;

pub use base_line::{BaseLine, BaseNumbers, read_base_line};
pub use base_reader::read_base;
pub use entry::{entry_text, read_entry};
pub use fault::{BaseFault, EntryFault};
pub use header::{Header, header_text, read_header};
pub use law::{entry_lines_are_short, one_base, one_spelling};
