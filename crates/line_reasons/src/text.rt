//! A reason in words.

ghost use Rattle.std.specs.Prelude.{◌<◌};

use crate::argument::Argument;
use crate::command_word::Command;
use crate::reason::Reason;
use itoa::Buffer;
use std::alloc::AllocError;

// A message quotes at most this many bytes of a word.
const QUOTED: usize = 40;

fn put_number(text: &mut Vec<u8>, number: u64) -> Result<(), AllocError> {
    let mut digits = Buffer::new();
    text.extend_from_slice(digits.format(number).as_bytes())
}

fn put_cut(text: &mut Vec<u8>, word: &[u8]) -> Result<(), AllocError> {
    text.extend_from_slice(&word[..word.len().min(QUOTED)])
}

fn put_quoted(text: &mut Vec<u8>, word: &[u8]) -> Result<(), AllocError> {
    text.push(b'`')?;
    put_cut(text, word)?;
    text.push(b'`')?;
    Ok(())
}

fn hex_digit(number: u8) -> u8
    requires { number < 16 }
{
    if number < 10 {
        b'0' + number
    } else {
        b'a' + (number - 10)
    }
}

fn put_odd_byte(text: &mut Vec<u8>, byte: u8) -> Result<(), AllocError> {
    text.extend_from_slice(b"there is the byte 0x")?;
    text.push(hex_digit(byte / 16))?;
    text.push(hex_digit(byte % 16))?;
    text.extend_from_slice(b": a script is printable ASCII")
}

fn put_capitals(text: &mut Vec<u8>, command: &[u8]) -> Result<(), AllocError> {
    text.extend_from_slice(b"commands are written in small letters: ")?;
    put_quoted(text, command)
}

fn put_unknown(text: &mut Vec<u8>, word: &[u8], meant: Option<&[u8]>) -> Result<(), AllocError> {
    put_quoted(text, word)?;
    text.extend_from_slice(b" is no command: ")?;
    match meant {
        Some(command) => {
            put_quoted(text, command)?;
            text.extend_from_slice(b" may be meant")
        }
        None => text.extend_from_slice(
            b"they are link, unlink, point, flag, join, leave, step, show, enabled, matching, status, \
            checkpoint, drive, scramble",
        ),
    }
}

fn put_limit(
    text: &mut Vec<u8>,
    before: &[u8],
    most: usize,
    behind: &[u8],
) -> Result<(), AllocError> {
    text.extend_from_slice(before)?;
    put_number(text, most as u64)?;
    text.extend_from_slice(behind)
}

fn put_arguments(text: &mut Vec<u8>, arguments: &[Argument]) -> Result<(), AllocError> {
    if arguments.is_empty() {
        return text.extend_from_slice(b"nothing");
    }
    let mut joint: &[u8] = b"";
    for argument in arguments {
        text.extend_from_slice(joint)?;
        text.extend_from_slice(argument.name())?;
        joint = b" and ";
    }
    Ok(())
}

fn put_word_count(
    text: &mut Vec<u8>,
    (name, arguments): Command,
    count: usize,
) -> Result<(), AllocError> {
    put_quoted(text, name)?;
    text.extend_from_slice(b" takes ")?;
    put_arguments(text, arguments)?;
    text.extend_from_slice(b", and not ")?;
    put_number(text, count as u64)?;
    text.extend_from_slice(if count == 1 {
        b" word".as_slice()
    } else {
        b" words".as_slice()
    })
}

// The number without its leading zeros.
fn without_zeros(word: &[u8]) -> &[u8] {
    for (at, byte) in word.iter().enumerate() {
        if *byte != b'0' {
            return &word[at..];
        }
    }
    b"0"
}

fn put_leading_zeros(text: &mut Vec<u8>, word: &[u8]) -> Result<(), AllocError> {
    put_quoted(text, word)?;
    text.extend_from_slice(b" has leading zeros: ")?;
    put_quoted(text, without_zeros(word))
}

fn put_range(text: &mut Vec<u8>, argument: Argument, before: &[u8]) -> Result<(), AllocError> {
    text.extend_from_slice(b" is not ")?;
    text.extend_from_slice(argument.name())?;
    text.extend_from_slice(before)?;
    put_number(text, argument.least())?;
    text.extend_from_slice(b" to ")?;
    put_number(text, argument.most())
}

fn put_no_number(text: &mut Vec<u8>, word: &[u8], argument: Argument) -> Result<(), AllocError> {
    put_quoted(text, word)?;
    put_range(text, argument, b": a number from ")
}

fn put_far_number(text: &mut Vec<u8>, word: &[u8], argument: Argument) -> Result<(), AllocError> {
    put_cut(text, word)?;
    put_range(text, argument, b", which is ")
}

fn put_of_word(text: &mut Vec<u8>, word: &[u8], what: &[u8]) -> Result<(), AllocError> {
    put_quoted(text, word)?;
    text.extend_from_slice(what)
}

/// Appends the reason's words.
pub(crate) fn put_reason(text: &mut Vec<u8>, reason: Reason<'_>) -> Result<(), AllocError> {
    match reason {
        Reason::Plain(plain) => text.extend_from_slice(plain),
        Reason::OfWord(word, what) => put_of_word(text, word, what),
        Reason::Limit(before, most, behind) => put_limit(text, before, most, behind),
        Reason::OddByte(byte) => put_odd_byte(text, byte),
        Reason::Capitals(command) => put_capitals(text, command),
        Reason::UnknownWord(word, meant) => put_unknown(text, word, meant),
        Reason::WordCount(command, count) => put_word_count(text, command, count),
        Reason::LeadingZeros(word) => put_leading_zeros(text, word),
        Reason::NoNumber(word, argument) => put_no_number(text, word, argument),
        Reason::FarNumber(word, argument) => put_far_number(text, word, argument),
    }
}
