//! The single-threaded run of a script: each line adds its entries to a text.
//!
//! The text of a `Run` begins with the header. `carry_out` carries out a line's command and adds the
//! command's entries to the text; a `checkpoint` adds the lines of a base. After each error the run can go on.
//!
//! A `Run` reads and writes no stream and keeps no entry, so both `script_run` and the library for C build on
//! it. Besides its text, a line takes memory only for lists of several items.
//!
//! ```rust
//! let mut run = Run::<HsuHuang>::new(alloc, RuleSet::Hh, 2, 2, MAX_ENTRIES)?;
//! run.carry_out(alloc, 1, b"link 1 2")?;            // `LineError`
//! print(&run.text);
//! ```
#![tactic(auto)]

mod line_error;
mod reading;
mod run;

pub use line_error::LineError;
pub use reading::read_command;
pub use run::Run;
