//! Reads what a text begins with: a given text, digits, a name.

ghost use Rattle.std.specs.Prelude.{◌≡◌, ℕ, ◌≤◌, List, ◌++◌, length, take, drop, MatchOption};
ghost use Rattle.std.specs.Str.Parse.{AllDigits, digits_value};
ghost use Rattle.line_text.specs.Words.{number_text, IsName};
ghost use Rattle.line_text.specs.Parsing.{ParsesAs, NoDigit, NameThen, WordThen};

use rule_machine::{MAX_NAME, Node};

const NAME_DIGITS: usize = 5;

/// How many bytes are enough to read a name and to see that the name ends.
const ENOUGH: usize = 6;

const ZERO: u32 = 48;

/// The text after its beginning `front`; `None` if the text does not begin with `front`.
#[inline]
pub fn after<'a>(bytes: &'a [u8], front: &[u8]) -> Option<&'a [u8]>
    ensures { MatchOption result
        ((rest : List ℕ) → bytes.now ≡ front.now ++ rest → ⊥)
        (λ rest. bytes.now ≡ front.now ++ rest.now) }
{
    bytes.strip_prefix(front)
}

/// How many digits the text begins with, and the value of these digits if there are at most eight.
#[inline(always)]
pub(crate) fn digits_in_front(bytes: &[u8]) -> (usize, u32)
    ensures within { result.0 ≤ length bytes.now }
    ensures digits { AllDigits 10 (take result.0 bytes.now) }
    ensures ends { NoDigit (drop result.0 bytes.now) }
    ensures value { result.0 ≤ 8 → result.1 ≡ digits_value 10 (take result.0 bytes.now) }
{
    let mut number = 0u32;
    for (i, byte) in bytes.iter().enumerate() {
        let digit = u32::from(*byte).wrapping_sub(ZERO);
        if digit > 9 {
            return (i, number);
        }
        number = number.wrapping_mul(10).wrapping_add(digit);
    }
    (bytes.len(), number)
}

/// Like `digits_in_front`, but counts at most six digits. If it counts six, more may follow.
/// If the text has six bytes, the loop needs no test for the end of the text.
#[inline(always)]
fn name_digits(bytes: &[u8]) -> (usize, u32)
    ensures within { result.0 ≤ length bytes.now }
    ensures digits { AllDigits 10 (take result.0 bytes.now) }
    ensures ends { result.0 ≤ 5 → NoDigit (drop result.0 bytes.now) }
    ensures value { result.0 ≤ 5 → result.1 ≡ digits_value 10 (take result.0 bytes.now) }
{
    if bytes.len() < ENOUGH {
        return digits_in_front(bytes);
    }
    digits_in_front(&bytes[..ENOUGH])
}

/// Reads the name at the front of the text in one pass; returns the name and the rest.
/// `None` if the text does not begin with a name from 1 to 65,535, or the name has a leading zero.
#[inline(always)]
pub fn read_name(bytes: &[u8]) -> Option<(Node, &[u8])>
    ensures { MatchOption result
        ((name : ℕ) (rest : List ℕ) → NameThen bytes.now name rest → ⊥)
        (λ found. NameThen bytes.now found.0 found.1.now) }
{
    let (len, number) = name_digits(bytes);
    if len == 0 || len > NAME_DIGITS || bytes[0] == b'0' {
        return None;
    }
    // Tested here, so that one test of the number remains.
    if number > MAX_NAME {
        return None;
    }
    let Some(node) = Node::new(number) else {
        return None;
    };
    Some((node, &bytes[len..]))
}

/// Reads a text that is one name; `None` for any other text.
pub fn read_last(bytes: &[u8]) -> Option<Node>
    ensures { ParsesAs IsName number_text bytes.now result }
{
    let Some((node, rest)) = read_name(bytes) else {
        return None;
    };
    if !rest.is_empty() {
        return None;
    }
    Some(node)
}

pub(crate) fn read_word(bytes: &[u8]) -> Option<(Node, &[u8])>
    ensures { MatchOption result
        ((name : ℕ) (rest : List ℕ) → WordThen bytes.now name rest → ⊥)
        (λ found. WordThen bytes.now found.0 found.1.now) }
{
    let Some((node, rest)) = read_name(bytes) else {
        return None;
    };
    let Some(rest) = after(rest, b" ") else {
        return None;
    };
    Some((node, rest))
}
