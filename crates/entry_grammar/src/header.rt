//! The first line of a transcript.

ghost use Rattle.std.specs.Prelude.{◌≡◌, ◌≤◌, ⊤, IfOk, IfErr, MatchOption};
ghost use Rattle.rule_machine.specs.declared.rule_set.RuleSet.{RuleSet};
ghost use Rattle.rule_machine.specs.Tables.{rules_word};
ghost use Rattle.line_text.specs.Words.{number_text};
ghost use Rattle.line_text.specs.EntryText.{header_text, sizes_text};
ghost use Rattle.line_text.specs.Parsing.{ParsesAs};
ghost use Rattle.entry_grammar.specs.declared.header.Header.{Header as HeaderRead};
ghost use Rattle.entry_grammar.specs.Spelling.{AreSizes, SpellsHeader};
ghost use Rattle.entry_grammar.specs.declared.fault.EntryFault.TheVariants.{NotALine};

use crate::counts::read_up_to;
use crate::cut::cut;
use crate::fault::EntryFault;
use line_text::{after, put_header};
use rule_machine::{MAX_NAME, RuleSet, Want};
use std::alloc::Global;

/// The first line of a transcript.
#[derive(Clone, Copy, Debug, PartialEq, Eq)]
pub struct Header {
    /// The rules.
    pub rules: RuleSet,
    /// How many names there are.
    pub names: u32,
    /// How many of the names are present at the start.
    pub present: u32,
}

pub(crate) fn read_rules(bytes: &[u8]) -> Option<RuleSet>
    ensures { ParsesAs (λ (rules : RuleSet). ⊤) rules_word bytes.now result }
{
    if bytes == RuleSet::Hh.word().as_bytes() {
        return Some(RuleSet::Hh);
    }
    if bytes == RuleSet::Manne.word().as_bytes() {
        return Some(RuleSet::Manne);
    }
    None
}

pub(crate) fn read_size(bytes: &[u8]) -> Option<u32>
    ensures { ParsesAs (λ n. n ≤ 65535) number_text bytes.now result }
{
    read_up_to(bytes, MAX_NAME)
}

// Reads what follows the rules: the number of names, and how many are present at the start.
// Without a second number all names are present. `None` if the second number is not below the first.
fn read_sizes(rules: RuleSet, bytes: &[u8]) -> Option<Header>
    ensures { ParsesAs (λ header. (header.rules ≡ rules) × AreSizes header.names header.present)
        (λ header. sizes_text header.names header.present) bytes.now result }
{
    let Some((names, present)) = cut(bytes, b' ') else {
        let all = read_size(bytes)?;
        return Some(Header {
            rules,
            names: all,
            present: all,
        });
    };
    let names = read_size(names)?;
    let present = read_up_to(present, MAX_NAME)?;
    if present >= names {
        return None;
    }
    Some(Header {
        rules,
        names,
        present,
    })
}

fn find_header(line: &[u8]) -> Option<Header>
    ensures { MatchOption result ((header : HeaderRead) → SpellsHeader line.now header → ⊥) (SpellsHeader line.now) }
{
    let words = after(line, b"matching ")?;
    let (word, sizes) = cut(words, b' ')?;
    let rules = read_rules(word)?;
    read_sizes(rules, sizes)
}

/// The header for these rules and names, without an LF. `read_header` reads the header back.
/// `count` of the `size` names are present at the start; the header omits `count` if all names are.
/// Error: out of memory.
pub fn header_text(alloc: Global, rules: RuleSet, size: u32, count: u32) -> Result<Vec<u8>, Want>
    requires few { size ≤ 65535 }
    requires within { count ≤ size }
    ensures text { IfOk result (λ text. text.items ≡ header_text rules size count) }
    ensures spelled { IfOk result (λ text. SpellsHeader text.items (record { rules = rules; names = size; present = count })) }
{
    let mut text = Vec::new(alloc);
    put_header(&mut text, rules, size, count)?;
    text.pop();
    Ok(text)
}

/// Reads a header, without its LF.
/// Error: `NotALine` if the line is not a header. Takes no memory.
pub fn read_header(line: &[u8]) -> Result<Header, EntryFault>
    ensures ok { IfOk result (SpellsHeader line.now) }
    ensures not_a_line { IfErr result (λ fault. (fault ≡ NotALine) × ((header : HeaderRead) → SpellsHeader line.now header → ⊥)) }
{
    find_header(line).ok_or(EntryFault::NotALine)
}
