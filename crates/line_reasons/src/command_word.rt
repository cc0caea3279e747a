//! The commands.

use crate::argument::Argument;

/// The word that begins a command, and what the command takes: of a `step`, any number of items like the one.
pub(crate) type Command = (&'static [u8], &'static [Argument]);

/// All of them, in the order of their letters.
pub(crate) const COMMANDS: [Command; 14] = [
    (b"checkpoint", &[]),
    (b"drive", &[Argument::Seed, Argument::Turns]),
    (b"enabled", &[]),
    (b"flag", &[Argument::Node, Argument::Bit]),
    (b"join", &[Argument::Node]),
    (b"leave", &[Argument::Node]),
    (b"link", &[Argument::Node, Argument::Node]),
    (b"matching", &[]),
    (b"point", &[Argument::Node, Argument::NodeOrDash]),
    (b"scramble", &[Argument::Seed, Argument::Turns]),
    (b"show", &[Argument::Node]),
    (b"status", &[]),
    (b"step", &[Argument::Item]),
    (b"unlink", &[Argument::Node, Argument::Node]),
];

/// The command that begins with this word.
pub(crate) fn command_named(word: &[u8]) -> Option<Command> {
    for command in COMMANDS {
        if command.0 == word {
            return Some(command);
        }
    }
    None
}

/// The word of the command that begins with this word, but for capital letters.
pub(crate) fn command_spelt(word: &[u8]) -> Option<&'static [u8]> {
    for (name, _) in COMMANDS {
        if name.eq_ignore_ascii_case(word) {
            return Some(name);
        }
    }
    None
}
