//! Readers and writers of bytes that never retry a failed call.
//!
//! A `FailStopWriter` writes exactly the given bytes or, if a write fails, a prefix of these bytes. So the
//! contract says for each error what the file contains. An interrupted write counts as failed; std's
//! `write_all` would retry it.
//!
//! `CountingReader` and `FailStopWriter` record each failed read or write, so contracts can say that an error
//! follows a failure. `read_whole` reads in chunks of 65,536 bytes. A run and an audit read line by line,
//! from a `CountingReader`.
//!
//! ```rust
//! let bytes = read_whole(alloc, &mut CountingReader::new(stdin))?;      // `InputFault`: `Read` or `Memory`
//! FailStopWriter::new(stdout).finish(&bytes)?;                         // written and flushed, or `OutputFault`
//! ```
#![tactic(auto)]

mod counting_reader;
mod fail_stop_writer;
mod input_fault;
mod lines;
mod output_fault;
mod whole;

pub use counting_reader::{CountingReader, chunk_of};
pub use fail_stop_writer::FailStopWriter;
pub use input_fault::InputFault;
pub use lines::split_line;
pub use output_fault::OutputFault;
pub use whole::read_whole;
