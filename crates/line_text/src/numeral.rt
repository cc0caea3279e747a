//! Numbers in decimal.

ghost use Rattle.std.specs.Prelude.{◌≤◌, ◌<◌, ◌^◌, ℕ, List, MatchOption};
ghost use Rattle.line_text.specs.Words.{number_text};
ghost use Rattle.line_text.specs.Parsing.{ParsesAs, NumberThen};

use crate::front::digits_in_front;
use itoa::Buffer;
use std::str;

/// The most digits that are read in one pass.
const FEW_DIGITS: usize = 8;

/// Reads the number at the front of the text in one pass; returns the number and the rest.
/// `None` if there is no digit, if there are more than eight, or if the number has a leading zero.
#[inline]
pub fn number_in_front(bytes: &[u8]) -> Option<(u32, &[u8])>
    ensures { MatchOption result
        ((number : ℕ) (rest : List ℕ) → NumberThen bytes.now number rest → ⊥)
        (λ found. NumberThen bytes.now found.0 found.1.now) }
{
    let (len, number) = digits_in_front(bytes);
    if len == 0 || len > FEW_DIGITS {
        return None;
    }
    if bytes[0] == b'0' && len > 1 {
        return None;
    }
    Some((number, &bytes[len..]))
}

fn read_short(bytes: &[u8]) -> Option<u32>
    ensures { ParsesAs (λ n. n < 100000000) number_text bytes.now result }
{
    let Some((number, rest)) = number_in_front(bytes) else {
        return None;
    };
    if !rest.is_empty() {
        return None;
    }
    Some(number)
}

fn read_long(bytes: &[u8]) -> Option<u64>
    ensures { ParsesAs (λ n. n < 2 ^ 64) number_text bytes.now result }
{
    let Ok(digits) = str::from_utf8(bytes) else {
        return None;
    };
    let Ok(number) = u64::from_str_radix(digits, 10) else {
        return None;
    };
    if Buffer::new().format(number).as_bytes() != bytes {
        return None;
    }
    Some(number)
}

fn read_any(bytes: &[u8]) -> Option<u64>
    ensures { ParsesAs (λ n. n < 2 ^ 64) number_text bytes.now result }
{
    if bytes.len() > FEW_DIGITS {
        return read_long(bytes);
    }
    let Some(number) = read_short(bytes) else {
        return None;
    };
    Some(u64::from(number))
}

/// Reads a number up to `most`; `None` for a greater number, and for any other text.
/// A sign or a leading zero is refused. Takes no memory.
pub fn read_number(bytes: &[u8], most: u64) -> Option<u64>
    ensures { ParsesAs (λ n. n ≤ most) number_text bytes.now result }
{
    let Some(number) = read_any(bytes) else {
        return None;
    };
    if number > most {
        return None;
    }
    Some(number)
}
