//! The numbers that `status` reports.

ghost use Rattle.std.specs.Prelude.{ℕ, ◌≤◌, List, MatchOption};
ghost use Rattle.line_text.specs.Words.{number_text};
ghost use Rattle.line_text.specs.ReplyText.{IsCountValue, IsCounts, counts_text, field_text};
ghost use Rattle.line_text.specs.Parsing.{ParsesAs};
ghost use Rattle.entry_grammar.specs.Parsing.{IsFree, FieldThen};

use crate::cut::cut;
use line_text::{after, read_number};
use rule_machine::Counts;

pub(crate) fn read_up_to(bytes: &[u8], most: u32) -> Option<u32>
    ensures { ParsesAs (λ n. n ≤ most) number_text bytes.now result }
{
    let number = read_number(bytes, u64::from(most))?;
    Some(number as u32)
}

pub(crate) fn read_field(bytes: &[u8], name: &[u8]) -> Option<u32>
    ensures { ParsesAs IsCountValue (λ number. field_text (name.now, number)) bytes.now result }
{
    let digits = after(bytes, name)?;
    read_up_to(digits, u32::MAX)
}

pub(crate) fn read_next<'a>(bytes: &'a [u8], name: &[u8]) -> Option<(u32, &'a [u8])>
    requires { IsFree 32 name.now }
    ensures { MatchOption result
        ((number : ℕ) (rest : List ℕ) → FieldThen bytes.now name.now number rest → ⊥)
        (λ found. FieldThen bytes.now name.now found.0 found.1.now) }
{
    let (field, rest) = cut(bytes, b' ')?;
    let number = read_field(field, name)?;
    Some((number, rest))
}

pub fn read_counts(bytes: &[u8]) -> Option<Counts>
    ensures { ParsesAs IsCounts counts_text bytes.now result }
{
    let (nodes, rest) = read_next(bytes, b"nodes=")?;
    let (edges, rest) = read_next(rest, b"edges=")?;
    let (pairs, rest) = read_next(rest, b"pairs=")?;
    let (enabled, rest) = read_next(rest, b"enabled=")?;
    let (charge, rest) = read_next(rest, b"charge=")?;
    let spent = read_field(rest, b"spent=")?;
    Some(Counts {
        nodes,
        edges,
        pairs,
        enabled,
        charge,
        spent,
    })
}
