//! Published copies of a matching's pointer registers, for wait-free readers.
//!
//! A `Board` has one copy of the present nodes and of their pointers until its first reader comes, then two.
//! Readers look at one copy while the only writer changes the other; then the writer swaps them. An entry is
//! first posted, which takes all the memory, then published, whole and at once, which cannot fail. A `Reader`
//! sees the state after a prefix of the entries, never half an entry. The prefix keeps the board's law
//! (`Law`; for a network: the prefix is a run), and includes all that the reader saw before or learnt from a
//! `Note`. A board begins at an opening state (`Board::new`) or at a base (`Board::from_base`); its entries have
//! the numbers after the base's. The board's history and its base exist in contracts only and have no bytes.
//!
//! A look costs a few steps, whatever the network's size. So does a publication before the first reader.
//! Afterwards it visits the places of all readers and waits for those that look at the old copy. A board
//! cannot be dropped: `end` ends it.
//!
//! ```rust
//! board.post(&entry)?;
//! let note = board.publish(rt, &entry);
//! reader.learn(&note);
//! let seen = reader.look(v.place());                // shows that entry at least
//! ```
#![tactic(auto)]

mod board;
mod effect;
mod history;
pub mod laws;
mod marks;
mod note;
mod reader;
mod register_copy;
mod rule;
mod sharing;

pub use board::{Board, NoPlace};
pub use laws::Runs;
pub use note::Note;
pub use reader::{Reader, Snapshot};
pub use rule::Law;
