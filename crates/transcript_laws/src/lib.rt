//! Laws of what runs and sessions write: it is a transcript that the auditor accepts.
//!
//! Laws only: each public function is empty and its contract is the law. `specs/Written` says how a progress
//! and its text are the transcript of a run. The text of a run is one, line by line (`runs_stay_transcripts`),
//! and that of a session call by call (`sessions_stay_transcripts`). So the auditor accepts what a run has
//! written from the start (`runs_are_accepted`) or from the end of a transcript (`continued_runs_are_accepted`),
//! and the text of a log that a journal keeps (`kept_logs_are_accepted`).
//!
//! ```rust
//! runs_are_accepted();                          // from here on the prover knows the law
//! ```
#![tactic(auto)]

mod law;

pub use law::{
    continued_runs_are_accepted, kept_logs_are_accepted, runs_are_accepted, runs_stay_transcripts,
    sessions_stay_transcripts,
};
