//! The text of scripts and transcripts: reads commands and writes entries.
//!
//! Each event, reply, entry and base has one spelling, defined in `specs/`. `read_command_into` accepts
//! exactly the texts of events, and a line is the text of at most one event (the law `one_reading`). Writers
//! append whole lines, or leave the buffer unchanged if memory runs out.
//!
//! Reading takes memory only for the items of a step. The crate `entry_grammar` reads transcripts.
//!
//! ```rust
//! let mut event = Event::Status;
//! if read_command_into(alloc, b"link 1 2", &mut event)? {
//!     put_entry(&mut text, 1, &event, &Reply::Accepted)?;   // "1 link 1 2 = ok\n"
//! }
//! ```
#![tactic(auto)]

mod base;
mod command;
mod entry;
mod events;
mod front;
mod items;
mod law;
mod numbers;
mod numeral;
mod replies;
mod room;
mod word;

pub use base::put_base;
pub use command::{read_bool, read_command, read_command_into, read_target};
pub use entry::{put_entry, put_entry_of_line, put_header};
pub use front::{after, read_last, read_name};
pub use law::one_reading;
pub use numeral::{number_in_front, read_number};
