//! The program from the words of its command line to its exit status.
//!
//! `start` reads the words, does their task on the given streams, and returns the exit status. The clause
//! `does` of `start` joins the contracts of the words and of their task; so the words and the script
//! determine the transcript bytes of a `run`. Writing the line of a fault takes no memory.
//!
//! `console` passes the process's words and streams to `start`. `start` opens the file that the words name in
//! place of standard input, the script files of a storm, the file of `--from`, and nothing else.
//!
//! ```rust
//! let (mut input, mut output) = (CountingReader::new(stdin), FailStopWriter::new(stdout));
//! let status = start(rt, alloc, &words, &mut input, &mut output, &mut FailStopWriter::new(stderr));
//! ```
#![tactic(auto)]

mod accepted;
mod fault_line;
mod file_fault;
mod law;
mod options;
mod playing;
mod playing_on;
mod program;
mod resuming;
mod run_note;
mod text;
mod verdict;
mod verdict_line;
mod viewing;

pub use accepted::{outcomes_are_accepted, storms_are_accepted};
pub use file_fault::FileFault;
pub use law::one_verdict;
pub use program::{start, status, tell, tell_no_words};
pub use verdict::{CheckEnd, check};
pub use viewing::{draw, list_epochs};
