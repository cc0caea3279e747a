//! The example that docs/LIBRARIES.md shows, as a proved test.
//!
//! `two_threads` stands there word for word; `tests/readme` compares the two. It shows how a Rattle program
//! combines `locked_net` with a rule set: two clerks in two threads edit one network under its lock, and are
//! settled at the end. A test gets a `HostRuntime` in place of a program's runtime.
//!
//! No crate depends on this one. Calls and their replies are rows of `tests/call_rows`, which needs no proof:
//! so are threads that meet, and the engine against the judge on every small network. Words and bytes are
//! cases of `tests/*.cases`. `tests/storms` and `tests/soak` test whole storms, and that two threads run at
//! once, which no contract says.
//!
//! ```text
//! rt ci library_tests          # proves the test, and runs it
//! ```
#![tactic(auto)]

#[cfg(test)]
mod two_threads;
