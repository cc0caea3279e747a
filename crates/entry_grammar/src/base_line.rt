//! The lines of a base, one by one.

ghost use Rattle.std.specs.Prelude.{◌≡◌, ◌≤◌, IfOk, IfErr, IfSome, MatchOption};
ghost use Rattle.line_text.specs.Words.{IsName, joined_texts};
ghost use Rattle.line_text.specs.ReplyText.{field_text};
ghost use Rattle.line_text.specs.BaseText.{base_fields};
ghost use Rattle.line_text.specs.Parsing.{ParsesAs, ReadsTwo};
ghost use Rattle.entry_grammar.specs.declared.base_line.BaseLine.{BaseLine as Line};
ghost use Rattle.entry_grammar.specs.Spelling.{AreCounts, SpellsBaseLine};
ghost use Rattle.entry_grammar.specs.Parsing.{ReadsPlace, registers_text, rules_text};
ghost use Rattle.entry_grammar.specs.declared.fault.EntryFault.TheVariants.{NotALine};

use crate::counts::{read_field, read_next};
use crate::cut::cut;
use crate::fault::EntryFault;
use crate::header::{read_rules, read_size};
use crate::tokens::{read_ends, read_marked};
use line_text::{after, read_bool, read_target};
use rule_machine::{Edge, Node, RuleSet};

/// The four numbers in the second line of a base.
#[derive(Clone, Copy, Debug, PartialEq, Eq)]
pub struct BaseNumbers {
    /// The number of the last entry before the base.
    pub number: u32,
    /// The moves since the last accepted disturbance, or since the start.
    pub spent: u32,
    /// How many node lines follow.
    pub nodes: u32,
    /// How many edge lines follow the node lines.
    pub edges: u32,
}

/// A line of a base.
#[derive(Clone, Copy, Debug, PartialEq, Eq)]
pub enum BaseLine {
    /// The first line: the rules, and the number of names.
    Head(RuleSet, u32),
    /// The second line: the numbers of the base.
    Base(BaseNumbers),
    /// A node, its pointer, and its flag.
    Place(Node, Option<Node>, bool),
    /// An edge.
    Link(Edge),
}

fn read_head(bytes: &[u8]) -> Option<(RuleSet, u32)>
    ensures { ReadsTwo (λ rules size. size ≤ 65535) rules_text bytes.now result }
{
    let (word, size) = cut(bytes, b' ')?;
    let rules = read_rules(word)?;
    let size = read_size(size)?;
    Some((rules, size))
}

// Reads the four numbers of a base; each number except the first comes after a name.
fn read_numbers(bytes: &[u8]) -> Option<BaseNumbers>
    ensures { ParsesAs AreCounts (λ q. joined_texts field_text (base_fields q.number q.spent q.nodes q.edges)) bytes.now result }
{
    let (number, rest) = read_next(bytes, b"")?;
    let (spent, rest) = read_next(rest, b"spent=")?;
    let (nodes, rest) = read_next(rest, b"nodes=")?;
    let edges = read_field(rest, b"edges=")?;
    Some(BaseNumbers {
        number,
        spent,
        nodes,
        edges,
    })
}

fn read_registers(bytes: &[u8]) -> Option<(Option<Node>, bool)>
    ensures { ReadsTwo (λ target flag. IfSome target IsName) registers_text bytes.now result }
{
    let (pointer, value) = cut(bytes, b' ')?;
    let target = read_target(pointer)?;
    let flag = read_bool(value)?;
    Some((target, flag))
}

fn read_place(bytes: &[u8]) -> Option<(Node, Option<Node>, bool)>
    ensures { ReadsPlace bytes.now result }
{
    let Some((node, rest)) = read_marked(bytes, b' ') else {
        return None;
    };
    let (target, flag) = read_registers(rest)?;
    Some((node, target, flag))
}

fn find_base_line(line: &[u8]) -> Option<BaseLine>
    ensures { MatchOption result
        ((found : Line) → SpellsBaseLine line.now found → ⊥)
        (λ found. SpellsBaseLine line.now found) }
{
    if let Some(rest) = after(line, b"node ") {
        let (node, target, flag) = read_place(rest)?;
        return Some(BaseLine::Place(node, target, flag));
    }
    if let Some(rest) = after(line, b"edge ") {
        let edge = read_ends(rest, b' ')?;
        return Some(BaseLine::Link(edge));
    }
    if let Some(rest) = after(line, b"base ") {
        let numbers = read_numbers(rest)?;
        return Some(BaseLine::Base(numbers));
    }
    let rest = after(line, b"matching2 ")?;
    let (rules, size) = read_head(rest)?;
    Some(BaseLine::Head(rules, size))
}

/// Reads a line of a base, without its LF.
/// Error: `NotALine` if the line spells no line of a base. Takes no memory.
pub fn read_base_line(line: &[u8]) -> Result<BaseLine, EntryFault>
    ensures ok { IfOk result (λ found. SpellsBaseLine line.now found) }
    ensures not_a_line { IfErr result (λ fault. (fault ≡ NotALine) × ((found : Line) → SpellsBaseLine line.now found → ⊥)) }
{
    match find_base_line(line) {
        Some(found) => Ok(found),
        None => Err(EntryFault::NotALine),
    }
}
