//! The words of replies.

ghost use Rattle.std.specs.Prelude.{◌≡◌, ℕ, List, ◌∷◌, ◌++◌, MatchOption, Option};
ghost use Rattle.std.specs.Int.{IsInRange};
ghost use Rattle.rule_machine.specs.declared.act.Act.{Act};
ghost use Rattle.line_text.specs.Words.{number_text, IsName};
ghost use Rattle.line_text.specs.ReplyText.{act_word, enabled_text, move_text, mutual_text};
ghost use Rattle.line_text.specs.Parsing.{ParsesAs};
ghost use Rattle.entry_grammar.specs.Spelling.{IsMoved, IsEnabled, IsOrderedPair};
ghost use Rattle.entry_grammar.specs.Parsing.{DeedThen, PairThen, first_byte};

use crate::cut::{behind, ends};
use crate::token::Token;
use line_text::{after, read_name};
use rule_machine::{Act, Edge, Moved, Node};

/// Reads a name and `mark` at the front of the text; returns the name and the rest.
#[inline(always)]
pub(crate) fn read_marked(bytes: &[u8], mark: u8) -> Option<(Node, &[u8])>
    requires { IsInRange 48 57 mark → ⊥ }
    ensures { MatchOption result
        ((name : ℕ) (rest : List ℕ) → IsName name → bytes.now ≡ number_text name ++ mark ∷ rest → ⊥)
        (λ found. IsName found.0 × (bytes.now ≡ number_text found.0 ++ mark ∷ found.1.now)) }
{
    let Some((node, marked)) = read_name(bytes) else {
        return None;
    };
    let rest = behind(marked, mark)?;
    Some((node, rest))
}

#[inline(always)]
fn act_with(first: u8) -> Option<Act>
    ensures { MatchOption result
        ((act : Act) → first_byte act ≡ first → ⊥)
        (λ act. first_byte act ≡ first) }
{
    match first {
        b'u' => Some(Act::Update),
        b'm' => Some(Act::Marry),
        b's' => Some(Act::Seduce),
        b'a' => Some(Act::Abandon),
        _ => None,
    }
}

#[inline(always)]
fn after_act(bytes: &[u8], act: Act) -> Option<&[u8]>
    ensures { MatchOption result
        ((rest : List ℕ) → bytes.now ≡ act_word act ++ rest → ⊥)
        (λ rest. bytes.now ≡ act_word act ++ rest.now) }
{
    match act {
        Act::Update => after(bytes, b"update"),
        Act::Marry => after(bytes, b"marry"),
        Act::Seduce => after(bytes, b"seduce"),
        Act::Abandon => after(bytes, b"abandon"),
    }
}

// The first byte decides which word is tested.
#[inline(always)]
fn read_act(bytes: &[u8]) -> Option<(Act, &[u8])>
    ensures { MatchOption result
        ((act : Act) (rest : List ℕ) → bytes.now ≡ act_word act ++ rest → ⊥)
        (λ found. bytes.now ≡ act_word found.0 ++ found.1.now) }
{
    let act = act_with(bytes.get(0).copied().unwrap_or(0))?;
    let rest = after_act(bytes, act)?;
    Some((act, rest))
}

// Reads a rule at the front of the text, and a target if `>` follows; returns both and the rest.
fn read_deed(bytes: &[u8]) -> Option<(Act, Option<Node>, &[u8])>
    ensures { MatchOption result
        ((act : Act) (target : Option ℕ) (rest : List ℕ) → DeedThen bytes.now act target rest → ⊥)
        (λ found. DeedThen bytes.now found.0 found.1 found.2.now) }
{
    let (act, marked) = read_act(bytes)?;
    let Some(name) = behind(marked, b'>') else {
        if !ends(marked) {
            return None;
        }
        return Some((act, None, marked));
    };
    let Some((target, rest)) = read_name(name) else {
        return None;
    };
    if !ends(rest) {
        return None;
    }
    Some((act, Some(target), rest))
}

// Reads an edge's ends with `mark` between them, the lower end first; returns the edge and the rest.
#[inline(always)]
fn read_pair(bytes: &[u8], mark: u8) -> Option<(Edge, &[u8])>
    requires { IsInRange 48 57 mark → ⊥ }
    ensures { MatchOption result
        ((pair : ℕ × ℕ) (rest : List ℕ) → PairThen mark bytes.now pair rest → ⊥)
        (λ found. PairThen mark bytes.now found.0 found.1.now) }
{
    let Some((low, name)) = read_marked(bytes, mark) else {
        return None;
    };
    let Some((high, rest)) = read_name(name) else {
        return None;
    };
    if low >= high {
        return None;
    }
    let pair = Edge::new(low, high)?;
    Some((pair, rest))
}

/// Reads a text that is an edge's ends with `mark` between them, the lower end first.
pub(crate) fn read_ends(bytes: &[u8], mark: u8) -> Option<Edge>
    requires { IsInRange 48 57 mark → ⊥ }
    ensures { ParsesAs IsOrderedPair (λ e. number_text e.0 ++ mark ∷ number_text e.1) bytes.now result }
{
    let Some((pair, rest)) = read_pair(bytes, mark) else {
        return None;
    };
    if !rest.is_empty() {
        return None;
    }
    Some(pair)
}

impl Token for Moved {
    ghost text = { move_text };

    ghost fits = { IsMoved };

    fn read(bytes: &[u8]) -> Option<(Moved, &[u8])> {
        let Some((node, deed)) = read_marked(bytes, b':') else {
            return None;
        };
        let Some((act, target, rest)) = read_deed(deed) else {
            return None;
        };
        Some((Moved { node, act, target }, rest))
    }
}

impl Token for (Node, Act) {
    ghost text = { enabled_text };

    ghost fits = { IsEnabled };

    #[inline(always)]
    fn read(bytes: &[u8]) -> Option<((Node, Act), &[u8])> {
        let Some((node, word)) = read_marked(bytes, b':') else {
            return None;
        };
        let (act, rest) = read_act(word)?;
        if !ends(rest) {
            return None;
        }
        Some(((node, act), rest))
    }
}

impl Token for Edge {
    ghost text = { mutual_text };

    ghost fits = { IsOrderedPair };

    #[inline(always)]
    fn read(bytes: &[u8]) -> Option<(Edge, &[u8])> {
        let Some((pair, rest)) = read_pair(bytes, b'-') else {
            return None;
        };
        if !ends(rest) {
            return None;
        }
        Some((pair, rest))
    }
}
