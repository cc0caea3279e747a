//! Storms: scripts played at once on one locked network, each by its own clerk, while workers roam.
//!
//! `storm` reads and checks every script, and plays the scripts on a `LockedNet`, whose lock alone decides
//! the order of the scripts' lines. Then `storm` settles all clerks and writes the one log. The text is that
//! of a run of the machine: each script's entries are the events of its lines in order, and all other entries
//! are steps of one node by the workers. Two storms of the same scripts may write different logs; `audit`
//! accepts each. `resume_storm` plays them on a network that goes on after a run.
//!
//! In memory are the scripts, the receipts, and the log since its last base. Threads are started by forks in
//! two.
//!
//! ```rust
//! let mut writer = FailStopWriter::new(stdout);
//! storm(rt, alloc, &options.with_roam(2, 1_000), files, &mut writer, &NoGate)?;    // `StormFault`
//! ```
#![tactic(auto)]

mod beside;
mod ending;
mod fault;
mod fault_line;
mod log;
mod opening;
mod play;
mod run;
mod split_work;
mod storm_context;
mod storming;
mod turns;

pub use ending::{status, storm_end};
pub use fault::StormFault;
pub use log::put_log;
pub use run::play_scripts;
pub use storm_context::WorkerConfig;
pub use storming::{resume_storm, storm};
