//! Scripts: the commands of their lines, and what the commands do to the rule machine.
//!
//! A `Command` is one event, drawn turns (`drive`, `scramble`) or a `checkpoint`. A line reads as a command
//! exactly if the line is that command's text. `specs/Script` defines what lines do, as a relation between
//! the run before the lines and the run after them: state, moves spent, entries and text.
//!
//! `read_line_into` reads one line, for a caller that carries out the line at once. `read_scripts` reads one
//! script from each of at most 64 readers.
//!
//! Laws are empty functions whose contract is the law. So a long enough `drive` ends silent: while a rule is
//! enabled, each turn of a seeded daemon moves at least one node.
//!
//! ```rust
//! let mut command = Command::Checkpoint;
//! let is_one = read_line_into(alloc, b"drive 7 100", &mut command)?;
//! ```
#![tactic(auto)]

mod command;
mod fault;
mod law;
mod lines;
mod read;
mod reading;
mod script;
mod text;

pub use command::{Command, MAX_TURNS, Turns};
pub use fault::TextsFault;
pub use law::{long_draws_end_silent, long_drives_end_silent, long_line, one_end};
pub use lines::{MAX_LINE, next_line};
pub use read::{read_line, read_line_into};
pub use reading::{MAX_SCRIPTS, read_scripts, read_until_long};
pub use script::{Script, ScriptLine};
pub use text::read_text;
