//! Why a line is no command.

use crate::arguments::{is_numeral, why_not_taken};
use crate::command_word::{command_named, command_spelt};
use crate::meant::meant_by;
use crate::reason::Reason;
use memchr::memchr;
use script_text::MAX_LINE;

fn is_odd(byte: u8) -> bool {
    byte < b' ' || byte > b'~'
}

fn why_odd(line: &[u8]) -> Option<Reason<'_>> {
    for &byte in line {
        if byte == b'\t' {
            return Some(Reason::Plain(b"there is a tab: words are separated by one space"));
        }
        if is_odd(byte) {
            return Some(Reason::OddByte(byte));
        }
    }
    None
}

fn why_not_plain(line: &[u8]) -> Option<Reason<'_>> {
    if line.len() > MAX_LINE {
        return Some(Reason::Limit(b"a line has at most ", MAX_LINE, b" bytes"));
    }
    if line.starts_with(b"\xef\xbb\xbf") {
        return Some(Reason::Plain(
            b"the line begins with a byte order mark (BOM): save the file as UTF-8 without one, or as ASCII",
        ));
    }
    if line.starts_with(b"\xff\xfe") || line.starts_with(b"\xfe\xff") {
        return Some(Reason::Plain(b"the file is UTF-16: save it as UTF-8 or ASCII"));
    }
    if line.ends_with(b"\r") {
        return Some(Reason::Plain(
            b"the line ends with a carriage return (CRLF): save the file with LF alone",
        ));
    }
    why_odd(line)
}

fn has_double_space(line: &[u8]) -> bool {
    let mut was_space = false;
    for &byte in line {
        if was_space && byte == b' ' {
            return true;
        }
        was_space = byte == b' ';
    }
    false
}

fn why_not_spaced(line: &[u8]) -> Option<Reason<'_>> {
    if line.starts_with(b"#") || line.starts_with(b"//") {
        return Some(Reason::Plain(b"a script has no comments"));
    }
    if line.starts_with(b" ") || line.ends_with(b" ") {
        return Some(Reason::Plain(b"a space stands at the beginning or the end of the line"));
    }
    if has_double_space(line) {
        return Some(Reason::Plain(b"two spaces follow one another: words are separated by one"));
    }
    None
}

fn why_unknown(word: &[u8]) -> Reason<'_> {
    if let Some(command) = command_spelt(word) {
        return Reason::Capitals(command);
    }
    if is_numeral(word) {
        return Reason::Plain(
            b"the line begins with a number, as those of a transcript: \
            a script has the text between the number and ` = `",
        );
    }
    Reason::UnknownWord(word, meant_by(word))
}

// The first word, and the words after it.
fn first_word(line: &[u8]) -> (&[u8], &[u8]) {
    match memchr(b' ', line) {
        Some(at) => (&line[..at], &line[at + 1..]),
        None => (line, &[]),
    }
}

fn why_no_words(line: &[u8]) -> Option<Reason<'_>> {
    if line.is_empty() {
        return None;
    }
    let (word, texts) = first_word(line);
    let Some(command) = command_named(word) else {
        return Some(why_unknown(word));
    };
    let count = line.iter().filter(|byte| **byte == b' ').count();
    why_not_taken(command, texts, count)
}

/// Why a line, without its LF, is no command; `None` if no reason is found.
pub(crate) fn reason_of(line: &[u8]) -> Option<Reason<'_>> {
    let why = why_not_plain(line);
    if why.is_some() {
        return why;
    }
    let why = why_not_spaced(line);
    if why.is_some() {
        return why;
    }
    why_no_words(line)
}
