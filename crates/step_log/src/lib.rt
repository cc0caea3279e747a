//! Networks that number their entries: the recorder keeps no entry, and the journal keeps a log.
//!
//! A `Recorder` hands out each entry's number, reply and text. A `Journal` keeps the log from the start or
//! from the last checkpoint, whose base replaces the dropped entries; numbers continue. Both go on with a given
//! network (`of_net`), as with one that begins at a base.
//!
//! The type of a journal states three facts (`Upholds`): the kept log is a run of the rule machine to the
//! network's state; each reply is the machine's; each epoch's moves are within the bound. After a fault
//! nothing has changed.
//!
//! `settle_journal` compares the receipts of all callers with the log (clause `headline`).
//!
//! Both count rounds if asked (`count_rounds`): `net().rounds()` has the count, and each of `Journal::epochs` its
//! rounds.
//!
//! `record` is `prepare`, which takes all the memory, then `commit`, which cannot fail. An entry takes at
//! most 80 bytes, plus its lists.
//!
//! ```rust
//! let mut journal = Journal::<HsuHuang>::new(alloc, 3)?;
//! let receipt = journal.record(Event::Link(a, b))?;             // its number, the event and the reply
//! assert!(journal.entry(receipt.seq).is_ok());
//! ```
#![tactic(auto)]

mod checkpoint;
mod epoch;
mod fault;
mod journal;
mod law;
mod left;
mod prepared;
mod receipt;
mod recorder;
mod settle_fault;
mod settling;

pub use epoch::Epoch;
pub use fault::{NoEntry, RecordFault};
pub use journal::Journal;
pub use law::{beginnings_lead_somewhere, budgets_by_name, epoch_rounds_by_number, epochs_by_name};
pub use log_entry::{Entry, MAX_ENTRIES};
pub use prepared::Prepared;
pub use receipt::{Answer, Receipt, Receipts};
pub use recorder::Recorder;
pub use settle_fault::{SettleFault, Unsettled};
pub use settling::{own_numbers_never_clash, settle_journal, settling_is_exact};
