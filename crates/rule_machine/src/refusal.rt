//! Refusals, with their numbers and texts.

/// Why an event was refused. The network stays as it was.
#[derive(Clone, Copy, Debug, PartialEq, Eq)]
pub enum Refusal {
    /// A node that the event acts on or asks about is not present.
    UnknownNode,
    /// Both ends of the edge are the same node.
    SelfLoop,
    /// The network has this edge already.
    AlreadyLinked,
    /// The network does not have this edge.
    NotLinked,
    /// The network has 1,048,576 edges already, the most allowed.
    TooManyEdges,
    /// The pointer's target is present, but is not a neighbour.
    NotNeighbour,
    /// The rule set has no flags.
    NoFlag,
    /// The step has no item.
    EmptyChoice,
    /// The daemon is central, and the step has more than one item.
    NotCentral,
    /// An earlier item of the choice has the same node.
    ChosenTwice,
    /// No rule is enabled at the node.
    NotEnabled,
    /// The node's rule does not allow the wished target.
    BadTarget,
    /// The name to join belongs to a node already.
    AlreadyPresent,
}

impl Refusal {
    ghost use Rattle.std.specs.Prelude.{◌≡◌, MatchOption};
    ghost use Rattle.rule_machine.specs.declared.refusal.Refusal.{Refusal};
    ghost use Rattle.rule_machine.specs.Refuse.{refusal_number, refusal_text};

    /// The refusal's number in transcripts, 1 to 13.
    pub fn number(self) -> u32
        ensures { result ≡ refusal_number self }
    {
        match self {
            Refusal::UnknownNode => 1,
            Refusal::SelfLoop => 2,
            Refusal::AlreadyLinked => 3,
            Refusal::NotLinked => 4,
            Refusal::TooManyEdges => 5,
            Refusal::NotNeighbour => 6,
            Refusal::NoFlag => 7,
            Refusal::EmptyChoice => 8,
            Refusal::NotCentral => 9,
            Refusal::ChosenTwice => 10,
            Refusal::NotEnabled => 11,
            Refusal::BadTarget => 12,
            Refusal::AlreadyPresent => 13,
        }
    }

    /// The refusal with this number; `None` if the number is 0 or above 13.
    pub fn from_number(number: u32) -> Option<Refusal>
        ensures { MatchOption result
            ((refusal : Refusal) → refusal_number refusal ≡ number → ⊥)
            (λ refusal. refusal_number refusal ≡ number) }
    {
        Some(match number {
            1 => Refusal::UnknownNode,
            2 => Refusal::SelfLoop,
            3 => Refusal::AlreadyLinked,
            4 => Refusal::NotLinked,
            5 => Refusal::TooManyEdges,
            6 => Refusal::NotNeighbour,
            7 => Refusal::NoFlag,
            8 => Refusal::EmptyChoice,
            9 => Refusal::NotCentral,
            10 => Refusal::ChosenTwice,
            11 => Refusal::NotEnabled,
            12 => Refusal::BadTarget,
            13 => Refusal::AlreadyPresent,
            _ => return None,
        })
    }

    /// The refusal's text in transcripts: lower case, with hyphens.
    pub fn text(self) -> &'static str
        ensures { result.now ≡ refusal_text self }
    {
        match self {
            Refusal::UnknownNode => "unknown-node",
            Refusal::SelfLoop => "self-loop",
            Refusal::AlreadyLinked => "already-linked",
            Refusal::NotLinked => "not-linked",
            Refusal::TooManyEdges => "too-many-edges",
            Refusal::NotNeighbour => "not-neighbour",
            Refusal::NoFlag => "no-flag",
            Refusal::EmptyChoice => "empty-choice",
            Refusal::NotCentral => "not-central",
            Refusal::ChosenTwice => "chosen-twice",
            Refusal::NotEnabled => "not-enabled",
            Refusal::BadTarget => "bad-target",
            Refusal::AlreadyPresent => "already-present",
        }
    }
}
