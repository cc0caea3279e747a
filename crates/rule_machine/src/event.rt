//! Events.

ghost use Rattle.std.specs.Prelude.{◌≡◌};

use crate::{Choice, Node};
use std::alloc::AllocError;

/// One event: a change of the network, a step, or a question.
#[derive(Debug, Drop, PartialEq, Eq)]
pub enum Event {
    /// Adds the edge between two nodes.
    Link(Node, Node),
    /// Removes the edge between two nodes. If an end points at the other end, that pointer becomes null.
    Unlink(Node, Node),
    /// Writes a node's pointer: null, or a neighbour.
    Point(Node, Option<Node>),
    /// Writes a node's married flag.
    Flag(Node, bool),
    /// Makes a name present: adds a node without edges.
    Join(Node),
    /// Removes a node and its edges.
    /// The node's pointer and each pointer at the node become null. The node's flag becomes false.
    Leave(Node),
    /// Moves the chosen nodes, all at once.
    Step(Choice),
    /// Asks for a node's pointer.
    Show(Node),
    /// Asks for the enabled nodes, each with its rule.
    Enabled,
    /// Asks for the mutual pairs.
    Matching,
    /// Asks for the `Counts`.
    Status,
}

impl Clone for Event {
    ghost is_clone = { λ a b. b ≡ a };

    fn clone(&self) -> Result<Event, AllocError> {
        Ok(match self {
            Event::Link(a, b) => Event::Link(*a, *b),
            Event::Unlink(a, b) => Event::Unlink(*a, *b),
            Event::Point(v, target) => Event::Point(*v, *target),
            Event::Flag(v, value) => Event::Flag(*v, *value),
            Event::Join(v) => Event::Join(*v),
            Event::Leave(v) => Event::Leave(*v),
            Event::Step(choice) => Event::Step(choice.clone()?),
            Event::Show(v) => Event::Show(*v),
            Event::Enabled => Event::Enabled,
            Event::Matching => Event::Matching,
            Event::Status => Event::Status,
        })
    }
}
