//! An event with a reply of its kind.

ghost use Rattle.std.specs.Prelude.{◌≡◌, IsTrue, SomeIff};
ghost use Rattle.log_entry.specs.Kinds.{fits};

use crate::kinds::fits;
use rule_machine::{Event, Reply};
use std::marker::Model;

/// The most entries of a log, and so the greatest entry number.
pub const MAX_ENTRIES: u32 = 16_777_216;

/// An event with a reply of the event's kind. Contracts see the pair.
#[derive(Debug, Drop, PartialEq, Eq)]
pub struct Entry {
    event: Event,
    reply: Reply,
}

impl Model for Entry {
    ghost use Rattle.std.specs.Prelude.{IsTrue};
    ghost use Rattle.rule_machine.specs.declared.event.Event.{Event};
    ghost use Rattle.rule_machine.specs.declared.reply.Reply.{Reply};
    ghost use Rattle.log_entry.specs.Kinds.{fits};

    ghost Value = { Event × Reply };

    ghost view = { λ e. (e.event, e.reply) };

    ghost invariant = { λ e. IsTrue (fits e.event e.reply) };

    ghost inverse = { λ p. record { event = p.0; reply = p.1 } };
}

impl Entry {
    /// The entry of an event and a reply; `None` if the reply is not of the event's kind.
    /// - A disturbance is accepted or refused.
    /// - A step is refused, or has 1 to 65,535 moves, each with a target if and only if its rule takes one.
    /// - `Show` is refused, or answered with a pointer.
    /// - `Enabled`, `Matching` and `Status` are answered, with at most 65,535 items, and never refused.
    #[inline(always)]
    pub fn new(event: Event, reply: Reply) -> Option<Entry>
        ensures { SomeIff result (IsTrue (fits event reply)) (event, reply) }
    {
        if !fits(&event, &reply) {
            return None;
        }
        Some(Entry { event, reply })
    }

    /// The event.
    pub fn event(&self) -> &Event
        ensures value { result.now ≡ self.now.0 }
        ensures fits { IsTrue (fits self.now.0 self.now.1) }
    {
        &self.event
    }

    /// The reply.
    pub fn reply(&self) -> &Reply
        ensures value { result.now ≡ self.now.1 }
        ensures fits { IsTrue (fits self.now.0 self.now.1) }
    {
        &self.reply
    }
}
