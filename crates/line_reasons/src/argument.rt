//! What a command takes.

use rule_machine::MAX_NAME;
use script_text::MAX_TURNS;

/// What a command takes at one place.
#[derive(Clone, Copy, PartialEq, Eq)]
pub(crate) enum Argument {
    Node,
    NodeOrDash,
    Bit,
    Seed,
    Turns,
    Item,
}

impl Argument {
    /// Its name in a message.
    pub(crate) fn name(self) -> &'static [u8] {
        match self {
            Argument::Node => b"a node",
            Argument::NodeOrDash => b"a node or -",
            Argument::Bit => b"0 or 1",
            Argument::Seed => b"a seed",
            Argument::Turns => b"a number of turns",
            Argument::Item => b"a node, or A>B",
        }
    }

    /// The least number that it may be.
    pub(crate) fn least(self) -> u64 {
        match self {
            Argument::Seed | Argument::Turns | Argument::Bit => 0,
            Argument::Node | Argument::NodeOrDash | Argument::Item => 1,
        }
    }

    /// The greatest number that it may be.
    pub(crate) fn most(self) -> u64 {
        match self {
            Argument::Bit => 1,
            Argument::Seed => u64::MAX,
            Argument::Turns => u64::from(MAX_TURNS),
            Argument::Node | Argument::NodeOrDash | Argument::Item => u64::from(MAX_NAME),
        }
    }
}
