//! Why a line of a script is no command, in words for the person who wrote it.
//!
//! `reason_line` returns one line of printable ASCII, with the words that the Python client and the JavaScript
//! module have for the same line. Its contract says the form of the line. That the reason fits is tested.
//!
//! ```rust
//! if let Some(line) = reason_line(alloc, b"lnk 1 2")? {     // "! `lnk` is no command: `link` may be meant\n"
//!     faults.finish(&line)?;
//! }
//! ```
#![tactic(auto)]

mod argument;
mod arguments;
mod command_word;
mod line;
mod meant;
mod note;
mod reason;
mod text;

pub use note::reason_line;
