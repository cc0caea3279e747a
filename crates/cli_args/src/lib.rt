//! The words of the command line, and the tasks that they ask for.
//!
//! `read_words` returns the task, or clap's error with its text. By contract, the task is what clap's
//! definition of the command gives for the words: each number is in its range, and an argument that is left
//! out has its default. The help texts in `help` are plain bytes; they are tested, not proved.
//!
//! Since clap's contracts are wide and costly to prove, this is a crate of its own.
//!
//! ```rust
//! match read_words(alloc, &words)?.task {           // the first word is the program's name
//!     Task::Run { rules, nodes, present, workers } => ..,
//!     Task::Audit => ..,
//!     _ => ..,
//! }
//! ```
#![tactic(auto)]

mod command;
mod help;
mod request;
mod storm_words;
mod task;

pub use request::{Request, read_words, usual_words};
pub use storm_words::{ResumeStormWords, StormWords};
pub use task::{Task, present_at_start};
