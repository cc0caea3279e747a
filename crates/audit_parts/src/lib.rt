//! Audits in parts: the verdict of a transcript from those of its parts.
//!
//! A transcript can be cut at any base: each part ends with the base that begins the next. The parts are
//! accepted exactly if the whole is. Entries and moves add up; so do epochs, less one at each seam. `join`
//! makes one verdict of two; applied in order, it makes one verdict of any number. `join` sees no text: the
//! caller ensures that the texts meet (`specs/Seams`), or that the run of the second goes on where that of the
//! first ends (`specs/Continuations`): then the first text does not have the base.
//!
//! ```rust
//! let first = audit_bytes(alloc, &text[..end]);      // up to the end of a base
//! let second = audit_bytes(alloc, &text[start..]);   // from the beginning of that base on
//! join(first, lines_before(start), second)           // audit_bytes(alloc, &text)
//! ```
#![tactic(auto)]

mod law;
mod verdicts;

pub use law::{
    accepted_in_two, bases_are_seams, continued_in_two, damaged_in_two, ends_are_continued,
    judged_in_parts, lines_are_short,
};
pub use verdicts::join;
