//! Which command may be meant by a word that begins none.

ghost use Rattle.std.specs.Prelude.{◌≡◌, ◌+◌, ◌<◌, ◌≤◌, length};

use crate::command_word::COMMANDS;

/// What people write for a command.
const HABITS: [(&[u8], &[u8]); 15] = [
    (b"add", b"link"),
    (b"connect", b"link"),
    (b"edge", b"link"),
    (b"remove", b"unlink"),
    (b"delete", b"unlink"),
    (b"cut", b"unlink"),
    (b"move", b"step"),
    (b"pairs", b"matching"),
    (b"match", b"matching"),
    (b"fault", b"point"),
    (b"run", b"drive"),
    (b"base", b"checkpoint"),
    (b"save", b"checkpoint"),
    (b"random", b"scramble"),
    (b"settle", b"drive"),
];

// No longer word is as much like a command's as `LIKENESS` says.
const LONGEST: usize = 23;

// The least part of the letters of two words that they share, in 1 / 20,000, if one may be meant by the other.
const LIKENESS: usize = 3_000;

// A common part of two words: its places in both, and its length.
#[derive(Clone, Copy)]
struct Part {
    from: usize,
    at: usize,
    len: usize,
}

// How many letters two words have in common from their beginnings on. Capital letters of the second count as
// small ones.
fn same_letters(one: &[u8], other: &[u8]) -> usize
    ensures one { result ≤ length one.now }
    ensures other { result ≤ length other.now }
{
    let mut len = 0;
    while len < one.len() && len < other.len() && one[len] == other[len].to_ascii_lowercase() {
        len += 1;
    }
    len
}

// The first of the longest common parts that begin at `from` in the first word, if it is longer than `best`.
fn longest_from(one: &[u8], other: &[u8], from: usize, best: Part) -> Part
    requires from { from ≤ length one.now }
    requires one { best.from + best.len ≤ length one.now }
    requires other { best.at + best.len ≤ length other.now }
    ensures one { result.from + result.len ≤ length one.now }
    ensures other { result.at + result.len ≤ length other.now }
{
    let mut longest = best;
    for at in 0..other.len() {
        let len = same_letters(&one[from..], &other[at..]);
        if len > longest.len {
            longest = Part { from, at, len };
        }
    }
    longest
}

// The first of the longest common parts of two words.
fn longest_common(one: &[u8], other: &[u8]) -> Part
    ensures one { result.from + result.len ≤ length one.now }
    ensures other { result.at + result.len ≤ length other.now }
{
    let mut longest = Part {
        from: 0,
        at: 0,
        len: 0,
    };
    for from in 0..one.len() {
        longest = longest_from(one, other, from, longest);
    }
    longest
}

// How many letters two words share: those of the longest common part, and of what stands before and after it.
fn shared_letters(one: &[u8], other: &[u8]) -> usize
    ensures { result ≤ length other.now }
{
    let Part { from, at, len } = longest_common(one, other);
    if len == 0 {
        return 0;
    }
    let before = shared_letters(&one[..from], &other[..at]);
    let after = shared_letters(&one[from + len..], &other[at + len..]);
    before + len + after
}

// The part of the letters of two words that they share, in 1 / 20,000; different parts give different numbers.
fn likeness(name: &[u8], word: &[u8]) -> usize
    requires { length word.now ≤ 23 }
{
    let letters = name.len().saturating_add(word.len()).max(1);
    shared_letters(name, word) * 10_000 / letters
}

// The command most like a word, if one is much like it; of several the last in the order of their letters.
fn nearest(word: &[u8]) -> Option<&'static [u8]>
    requires { length word.now ≤ 23 }
{
    let mut nearest = None;
    let mut most = LIKENESS;
    for (name, _) in COMMANDS {
        let alike = likeness(name, word);
        if alike >= most {
            most = alike;
            nearest = Some(name);
        }
    }
    nearest
}

fn habit(word: &[u8]) -> Option<&'static [u8]> {
    for (written, command) in HABITS {
        if written.eq_ignore_ascii_case(word) {
            return Some(command);
        }
    }
    None
}

/// The command that may be meant by a word.
pub(crate) fn meant_by(word: &[u8]) -> Option<&'static [u8]> {
    if let Some(command) = habit(word) {
        return Some(command);
    }
    if word.len() > LONGEST {
        return None;
    }
    nearest(word)
}
