//! The library for C: sessions, audits and their calls.
//!
//! Its functions have C's names and types; `include/rudekpi.h` lists the statuses and the cost of each
//! function. A session is a network that carries out script lines and keeps the transcript's text until C
//! reads it. An audit judges a transcript in memory, or a transcript fed in pieces. A slot is empty, or owns
//! a block of memory with one session or one audit. If memory runs out, the session lives on.
//!
//! C must keep these rules, which nothing checks: a slot is all bytes 0 at first; it is not copied while it
//! is full; only one thread at a time uses it; no pointer is null. No state is kept outside slots, and no
//! thread is started.
//!
//! ```c
//! struct rudekpi_slot slot = RUDEKPI_NONE;
//! uint64_t number;
//! rudekpi_session_new(0, 2, 2, &slot);
//! rudekpi_session_feed(&slot, (const uint8_t *)"link 1 2", 8, &number);
//! ```
#![tactic(auto)]

mod accepted;
mod audit_slot;
mod audits;
mod call_result;
mod calls;
mod disturbances;
mod local;
mod node_view;
mod parts;
mod request;
mod rounds;
mod session;
mod sessions;
mod slot;
mod status;
mod verdict;
mod version;

pub use accepted::{session_texts_are_accepted, session_texts_begin_anew};
