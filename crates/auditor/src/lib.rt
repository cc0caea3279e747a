//! The auditor: accepts bytes that are the transcript of a run, and names the first damage of all others.
//!
//! The auditor reads a text part by part; in memory is only the part that is not complete yet. It judges an
//! entry with `entry_grammar` and `reply_checker`, and a base by comparing it with the base of the state
//! reached. The auditor accepts exactly the texts of runs and counts their entries, epochs and moves. For
//! every other text it names the first line that fails, and the first check that this line fails. The auditor
//! builds on the definitions and uses no guard of the engine, so it also judges transcripts of other programs.
//!
//! `PieceAudit` is fed a text in pieces, cut anywhere; `audit` reads a text from a reader. `state_after`
//! returns the state after an entry, `end_of` the end of the run. `epochs_of` returns, for each disturbance,
//! its cost, the moves after it, the bound on these moves, and the complete rounds.
//!
//! ```rust
//! match audit(alloc, &mut CountingReader::new(stdin)) {
//!     Ok(summary) => ..,                                            // entries, epochs, moves
//!     Err(AuditFault::NotTheMachines { line }) => ..,
//!     Err(_) => ..,
//! }
//! ```
#![tactic(auto)]

mod check;
mod counted_part;
mod epoch;
mod epoch_list;
mod fault;
mod incremental_audit;
mod laws;
mod lines;
mod piece_audit;
mod replayed_run;
mod summary;
mod transcript;
mod transcript_cursor;
mod transcript_end;

pub use epoch::{CostedEpoch, Epoch};
pub use epoch_list::{Epochs, epochs_of};
pub use fault::AuditFault;
pub use laws::{
    one_count, one_damage, one_run, transcript_has_no_damage, undamaged_is_a_transcript,
};
pub use lines::MAX_LINE;
pub use piece_audit::PieceAudit;
pub use replayed_run::{ReplayFault, ReplayedRun, state_after};
pub use summary::Summary;
pub use transcript::{audit, audit_bytes, end_of, end_of_bytes};
pub use transcript_end::TranscriptEnd;
