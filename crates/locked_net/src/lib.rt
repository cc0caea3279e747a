//! One network for many callers with receipts, and the settling of these receipts against the log.
//!
//! A `LockedNet` is a network behind a lock. Each caller has a `Clerk`, whose `call` waits for the lock,
//! records one event and keeps the receipt. A worker `roam`s with a clerk of its own. `hold` keeps the lock
//! for several calls on a `HeldNet`, and contracts see the log of a `HeldNet`. In the end `settle` takes the
//! network and all clerks. If `settle` returns `Ok` (clause `headline`), the log is a run of the rule
//! machine; each receipt is the log's entry with the receipt's number; each entry belongs to one clerk. A
//! `BoardReader` reads a node's pointer without lock, memory or waiting, and its answers come from a run
//! that includes all the reader has seen.
//!
//! A call costs as much as recording and a publication. The contracts do not promise that a caller gets the
//! lock, or any order. A network cannot be dropped: `settle` or `into_journal` ends it.
//!
//! ```rust
//! let net = LockedNet::<HsuHuang>::new(alloc, &rt, 3)?;
//! let mut clerk = net.clerk()?;
//! let reply = clerk.call(&rt, &net, Event::Link(a, b))?;
//! let journal = settle(&rt, net, clerks)?;
//! ```
#![tactic(auto)]

mod board_reader;
mod clerk;
mod ending;
mod fault;
mod held;
mod looks;
mod net;
mod net_key;
mod published_journal;
mod roaming;
mod sharing;

pub use board_reader::{BoardReader, SeenPartner, SeenPointer};
pub use clerk::Clerk;
pub use ending::{settle, settle_own};
pub use fault::{CallFault, NoView, ReadFault, ReaderFault, RoamFault, StepFault};
pub use held::HeldNet;
pub use looks::{SeenCost, SeenReach, SeenRest};
pub use net::LockedNet;
pub use roaming::roam;
pub use step_log::{SettleFault, Unsettled, own_numbers_never_clash, settling_is_exact};
