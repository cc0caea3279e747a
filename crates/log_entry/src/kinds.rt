//! Which replies are of an event's kind.

ghost use Rattle.std.specs.Prelude.{◌≡◌};
ghost use Rattle.std.specs.List.{list_all};
ghost use Rattle.log_entry.specs.Kinds.{takes_target, is_move, are_moves, fits};

use rule_machine::{Act, Event, MAX_ITEMS, Moved, Reply};

/// Whether a move by this rule has a target.
fn takes_target(act: Act) -> bool
    ensures { result ≡ takes_target act }
{
    match act {
        Act::Marry | Act::Seduce => true,
        Act::Update | Act::Abandon => false,
    }
}

fn is_move(moved: &Moved) -> bool
    ensures { result ≡ is_move moved.now }
{
    takes_target(moved.act) == moved.target.is_some()
}

fn all_moves(moves: &[Moved]) -> bool
    ensures { result ≡ list_all is_move moves.now }
{
    moves.iter().all(|moved| is_move(moved))
}

fn are_moves(moves: &[Moved]) -> bool
    ensures { result ≡ are_moves moves.now }
{
    !moves.is_empty() && moves.len() <= MAX_ITEMS && all_moves(moves)
}

/// Whether the reply is of the event's kind.
pub(crate) fn fits(event: &Event, reply: &Reply) -> bool
    ensures { result ≡ fits event.now reply.now }
{
    match (event, reply) {
        (
            Event::Link(..)
            | Event::Unlink(..)
            | Event::Point(..)
            | Event::Flag(..)
            | Event::Join(_)
            | Event::Leave(_),
            Reply::Accepted,
        ) => { true }
        (Event::Enabled, Reply::EnabledAre(nodes)) => nodes.as_slice().len() <= MAX_ITEMS,
        (Event::Matching, Reply::Pairs(pairs)) => pairs.as_slice().len() <= MAX_ITEMS,
        (Event::Status, Reply::Counts(_)) => true,
        (Event::Enabled | Event::Matching | Event::Status, _) => false,
        (_, Reply::Refused(_)) => true,
        (Event::Step(_), Reply::Moves(moves)) => are_moves(moves.as_slice()),
        (Event::Show(_), Reply::Shown(_)) => true,
        _ => false,
    }
}
