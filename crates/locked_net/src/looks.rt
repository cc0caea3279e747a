//! Looks under the lock: what an event would cost, nodes at rest, and nodes that an event would reach.

ghost use Rattle.std.specs.Prelude.{IfOk};
ghost use Rattle.locked_net.specs.Nets.{book_of, setting_of};
ghost use Rattle.locked_net.specs.Looks.{IsCostSeen, IsRestSeen, IsReachSeen};

use crate::LockedNet;
use rule_engine::{Event, Node, Rules, Want};
use snapshots::Note;
use std::sync::Wait;

/// What an event would cost at one moment, with a note of the log then.
#[derive(Drop)]
pub struct SeenCost {
    /// The most that the event would add to the charge, in moves.
    pub cost: u32,
    /// What was published then: the whole log.
    pub note: Note,
}

/// Whether a node is at rest at one moment, with a note of the log then.
#[derive(Drop)]
pub struct SeenRest {
    /// Whether the node is at rest: for any daemon, it makes no move until a disturbance reaches it.
    pub rests: bool,
    /// What was published then: the whole log.
    pub note: Note,
}

/// The nodes that an event would reach at one moment, with a note of the log then.
#[derive(Drop)]
pub struct SeenReach {
    /// The nodes, ascending. A node at rest that is not among these nodes stays at rest.
    pub nodes: Vec<Node>,
    /// What was published then: the whole log.
    pub note: Note,
}

impl<R: Rules> LockedNet<R> {
    /// What an event would cost after the present log, in moves; see `Net::cost_of`.
    /// The note is of exactly this log. Records nothing and takes no memory. Waits for the network's lock.
    pub fn cost_of<W: Wait>(&self, rt: &W, event: &Event) -> SeenCost
        ensures { IsCostSeen (setting_of R.table self.now) (book_of self.now) R.cost event.now result.cost result.note }
    {
        let held = self.hold(rt);
        let answer = SeenCost {
            cost: held.net().cost_of(event),
            note: held.note(),
        };
        held.free();
        answer
    }

    /// Whether a node is at rest after the present log; see `Net::is_at_rest`.
    /// The note is of exactly this log. Records nothing. Waits for the network's lock.
    pub fn is_at_rest<W: Wait>(&self, rt: &W, v: Node) -> SeenRest
        ensures { IsRestSeen (setting_of R.table self.now) (book_of self.now) v result.rests result.note }
    {
        let held = self.hold(rt);
        let answer = SeenRest {
            rests: held.net().is_at_rest(v),
            note: held.note(),
        };
        held.free();
        answer
    }

    /// The nodes that an event would reach after the present log; see `Net::reach_of`.
    /// The note is of exactly this log. Records nothing. Waits for the network's lock.
    /// `AllocError` if memory runs out.
    pub fn reach_of<W: Wait>(&self, rt: &W, event: &Event) -> Result<SeenReach, Want>
        ensures { IfOk result (λ reach. IsReachSeen (setting_of R.table self.now) (book_of self.now) event.now reach.nodes.items reach.note) }
    {
        let held = self.hold(rt);
        let found = held.net().reach_of(event);
        let note = held.note();
        held.free();
        let nodes = found?;
        Ok(SeenReach { nodes, note })
    }
}
