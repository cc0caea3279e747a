//! The counts of an audit.

ghost use Rattle.std.specs.Prelude.{◌≡◌, ◌<◌, ◌≤◌};
ghost use Rattle.rule_machine.specs.Answer as answer;
ghost use Rattle.auditor.specs.Transcript.{reply_moves};
ghost use Rattle.auditor.specs.Position.{counted_more, IsPossibleSummary};

use rule_machine::Reply;

/// The numbers of entries, epochs and moves of an accepted transcript.
///
/// One epoch begins at the start, and one at each accepted disturbance.
#[derive(Clone, Copy, Debug, PartialEq, Eq)]
pub struct Summary {
    /// The entries, at most 16,777,216.
    pub entries: u32,
    /// The epochs, at least 1.
    pub epochs: u32,
    /// The moves of all steps.
    pub moves: u64,
}

impl Summary {
    pub(crate) fn with_reply(self, reply: &Reply) -> Summary
        requires counted { IsPossibleSummary self }
        requires room { self.entries < 16777216 }
        requires few { reply_moves reply.now ≤ 65535 }
        ensures value { result ≡ counted_more self reply.now }
        ensures counted { IsPossibleSummary result }
    {
        let entries = self.entries + 1;
        match reply {
            Reply::Accepted => Summary {
                entries,
                epochs: self.epochs + 1,
                ..self
            },
            Reply::Moves(moves) => Summary {
                entries,
                moves: self.moves + moves.as_slice().len() as u64,
                ..self
            },
            _ => Summary { entries, ..self },
        }
    }
}

/// The moves since the last accepted disturbance, after a reply.
pub(crate) fn spent_after(spent: u64, reply: &Reply) -> u64
    requires room { spent ≤ 1103789817855 }
    requires few { reply_moves reply.now ≤ 65535 }
    ensures { result ≡ answer.spent_after spent reply.now }
{
    match reply {
        Reply::Accepted => 0,
        Reply::Moves(moves) => spent + moves.as_slice().len() as u64,
        _ => spent,
    }
}
