//! Why a line may be no command.

use crate::argument::Argument;
use crate::command_word::Command;

/// Why a line is no command.
#[derive(Clone, Copy)]
pub(crate) enum Reason<'a> {
    /// What this text says.
    Plain(&'static [u8]),
    /// What this text says of the word before it.
    OfWord(&'a [u8], &'static [u8]),
    /// There are more than this many: the text before the number, the number, and the text behind it.
    Limit(&'static [u8], usize, &'static [u8]),
    /// This is its first byte that is not printable ASCII.
    OddByte(u8),
    /// Its first word is this command's, with capital letters.
    Capitals(&'static [u8]),
    /// Its first word is no command's; a command that may be meant.
    UnknownWord(&'a [u8], Option<&'static [u8]>),
    /// The command has this number of words after it, and takes another.
    WordCount(Command, usize),
    /// The number has leading zeros.
    LeadingZeros(&'a [u8]),
    /// The word is no number.
    NoNumber(&'a [u8], Argument),
    /// The number is out of range.
    FarNumber(&'a [u8], Argument),
}
