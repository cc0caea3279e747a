//! The run of a script: bytes in, transcript out.
//!
//! `run` reads a script piece by piece and carries out each line as `run_session` does. Before each read,
//! `run` writes and flushes the text of all whole lines read so far. It also writes while a line's turns are
//! taken, so no line's whole text is held. If `run` returns `Ok`, the writer has
//! exactly the header, the machine's entries for the lines (each with the least free targets), and the bases
//! of the checkpoints. The clause `outcome` says what the writer has after each error.
//!
//! ```rust
//! let Some(options) = Options::new(RuleSet::Hh, 2) else { return Err(..) };
//! let (mut reader, mut writer) = (CountingReader::new(stdin), FailStopWriter::new(stdout));
//! let mut refused = RefusedLine::none(alloc);
//! run(rt, alloc, &mut reader, &mut writer, &options.with_workers(4), &mut refused)?;      // `RunFault`
//! ```
#![tactic(auto)]

mod fault;
mod long_line;
mod options;
mod piece;
mod read_progress;
mod refused_line;
mod restart;
mod resumption;
mod runner;
mod script;
mod stepping;
mod writing;

pub use fault::RunFault;
pub use options::Options;
pub use refused_line::RefusedLine;
pub use restart::Restart;
pub use resumption::resume;
pub use rule_machine::RuleSet;
pub use script::run;
pub use step_log::MAX_ENTRIES;
