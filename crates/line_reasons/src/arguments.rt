//! Why a command does not take the words after it.

use crate::argument::Argument;
use crate::command_word::Command;
use crate::reason::Reason;
use line_text::read_number;
use rule_machine::MAX_ITEMS;

/// Whether the text is a number without leading zeros, however great.
pub(crate) fn is_numeral(text: &[u8]) -> bool {
    has_digits_alone(text) && (text.len() == 1 || !text.starts_with(b"0"))
}

fn has_digits_alone(text: &[u8]) -> bool {
    !text.is_empty() && text.iter().all(|byte| byte.is_ascii_digit())
}

fn why_no_number(text: &[u8], argument: Argument) -> Option<Reason<'_>> {
    if !is_numeral(text) {
        return Some(Reason::NoNumber(text, argument));
    }
    match read_number(text, argument.most()) {
        Some(number) if number >= argument.least() => None,
        _ => Some(Reason::FarNumber(text, argument)),
    }
}

fn why_no_word(text: &[u8], argument: Argument) -> Option<Reason<'_>> {
    if has_digits_alone(text) && !is_numeral(text) {
        return Some(Reason::LeadingZeros(text));
    }
    if argument != Argument::Bit {
        return why_no_number(text, argument);
    }
    if text == b"0".as_slice() || text == b"1".as_slice() {
        return None;
    }
    Some(Reason::OfWord(text, b" is not 0 or 1"))
}

fn why_no_item(text: &[u8]) -> Option<Reason<'_>> {
    let wishes = text.iter().filter(|byte| **byte == b'>').count();
    if wishes > 1 {
        return Some(Reason::OfWord(text, b" is not A>B, a node that moves and its target"));
    }
    for part in text.split(|byte| *byte == b'>') {
        let why = why_no_word(part, Argument::Node);
        if why.is_some() {
            return why;
        }
    }
    None
}

fn why_no_argument(text: &[u8], argument: Argument) -> Option<Reason<'_>> {
    match argument {
        Argument::Item => why_no_item(text),
        Argument::NodeOrDash if text == b"-".as_slice() => None,
        Argument::NodeOrDash => why_no_word(text, Argument::Node),
        _ => why_no_word(text, argument),
    }
}

fn why_no_items(texts: &[u8], count: usize) -> Option<Reason<'_>> {
    if count > MAX_ITEMS {
        return Some(Reason::Limit(b"a step has at most ", MAX_ITEMS, b" items"));
    }
    if count == 0 {
        return None;
    }
    for text in texts.split(|byte| *byte == b' ') {
        let why = why_no_item(text);
        if why.is_some() {
            return why;
        }
    }
    None
}

fn why_not_these<'a>(texts: &'a [u8], arguments: &[Argument]) -> Option<Reason<'a>> {
    for (text, argument) in texts.split(|byte| *byte == b' ').zip(arguments) {
        let why = why_no_argument(text, *argument);
        if why.is_some() {
            return why;
        }
    }
    None
}

/// Why the command does not take these texts, `count` words with a space between each two.
pub(crate) fn why_not_taken(command: Command, texts: &[u8], count: usize) -> Option<Reason<'_>> {
    let (name, arguments) = command;
    if name == b"step".as_slice() {
        return why_no_items(texts, count);
    }
    if count == arguments.len() {
        return why_not_these(texts, arguments);
    }
    if texts.contains(&b',') {
        return Some(Reason::Plain(b"there is a comma: words are separated by one space"));
    }
    Some(Reason::WordCount(command, count))
}
