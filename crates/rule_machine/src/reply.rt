//! Replies.

ghost use Rattle.std.specs.Prelude.{◌≡◌};

use crate::{Act, Counts, Edge, Listing, Moved, Node, Refusal};
use std::alloc::AllocError;

/// The reply to an event. Lists of moves or nodes ascend by node, lists of pairs by lower end.
#[derive(Debug, Drop, PartialEq, Eq)]
pub enum Reply {
    /// The change was made.
    Accepted,
    /// The event was refused and changed nothing.
    Refused(Refusal),
    /// The moves that were made.
    Moves(Listing<Moved>),
    /// The node's pointer.
    Shown(Option<Node>),
    /// The enabled nodes, each with its rule.
    EnabledAre(Listing<(Node, Act)>),
    /// The mutual pairs.
    Pairs(Listing<Edge>),
    /// The numbers that `status` reports.
    Counts(Counts),
}

impl Clone for Reply {
    ghost is_clone = { λ a b. b ≡ a };

    fn clone(&self) -> Result<Reply, AllocError> {
        Ok(match self {
            Reply::Accepted => Reply::Accepted,
            Reply::Refused(refusal) => Reply::Refused(*refusal),
            Reply::Moves(moves) => Reply::Moves(moves.clone()?),
            Reply::Shown(target) => Reply::Shown(*target),
            Reply::EnabledAre(nodes) => Reply::EnabledAre(nodes.clone()?),
            Reply::Pairs(pairs) => Reply::Pairs(pairs.clone()?),
            Reply::Counts(counts) => Reply::Counts(*counts),
        })
    }
}
