//! The program: runs a script, judges or shows a transcript, or plays the scripts of several files at once.
//!
//! `main` passes the process's words and streams to `command_line::start`, and exits with the status that
//! `start` returns. The contracts of `start` say all about what is written; `main` is proved to be safe and
//! to return.
//!
//! The crate is small for a reason: before the check of a program proves anything, it links the code of all
//! the program's libraries.
//!
//! ```text
//! ./console run --rules hh --nodes 2 < examples/pair.script
//! ```
#![tactic(auto)]

use byte_streams::{CountingReader, FailStopWriter};
use command_line::{start, tell_no_words};
use std::process::ExitCode;
use std::{env, io};

fn main(rt: HostRuntime) -> ExitCode {
    let mut reader = CountingReader::new(rt.reader());
    let mut writer = FailStopWriter::new(io::writer(&rt));
    let mut faults = FailStopWriter::new(rt.stderr());
    let given = match env::args(&rt) {
        Ok(words) => words
            .collect::<Vec<String>>(rt.alloc())
            .map_err(io::Error::from),
        Err(error) => Err(error),
    };
    let words = match given {
        Ok(words) => words,
        Err(error) => return ExitCode::from(tell_no_words(error.kind(), &mut faults)),
    };
    let (alloc, given) = (rt.alloc(), words.as_slice());
    ExitCode::from(start(&rt, alloc, given, &mut reader, &mut writer, &mut faults))
}
