//! Lists of words joined by one space.

ghost use Rattle.std.specs.Prelude.{◌≡◌, ◌≢◌, ℕ, List, [], ◌∷◌, IfOk, IfSome, MatchOption, codes};
ghost use Rattle.std.specs.List.{AllByRecursion};
ghost use Rattle.line_text.specs.Words.{joined_texts, joined_or};
ghost use Rattle.line_text.specs.Parsing.{ParsesAs};
ghost use Rattle.line_text.specs.ReadBack.{IsReadBack};
ghost use Rattle.entry_grammar.specs.Parsing.{EndsWord, TokenThen};

use crate::cut::behind;
use rule_machine::{Listing, Want};
use std::alloc::Global;

/// A value that is read from one word.
pub trait Token {
    // The word's text.
    ghost text: { Self → List ℕ };

    // What each value of the type satisfies.
    ghost fits: { Self → Type 0 };

    /// Reads the word at the front, up to a space or the end of the text; returns the value and the rest.
    /// Returns `None` if the text begins with no such word.
    fn read(bytes: &[u8]) -> Option<(Self, &[u8])>
        ensures { MatchOption result
            ((word : Self) (rest : List ℕ) → TokenThen fits text bytes.now word rest → ⊥)
            (λ found. TokenThen fits text bytes.now found.0 found.1.now) };
}

fn read_alone<W: Token + Copy>(bytes: &[u8]) -> Option<W>
    ensures { IfSome result (λ word. AllByRecursion W.fits (word ∷ []) × (bytes.now ≡ joined_texts W.text (word ∷ []))) }
{
    match W::read(bytes) {
        Some((word, [])) => Some(word),
        _ => None,
    }
}

#[inline(never)]
fn read_many<W: Token + Copy>(alloc: Global, bytes: &[u8]) -> Result<Option<Listing<W>>, Want>
    requires some { bytes.now ≢ [] }
    requires read_back { IsReadBack W.fits W.text (λ _ rest. EndsWord rest) }
    ensures { IfOk result (ParsesAs (AllByRecursion W.fits) (joined_texts W.text) bytes.now) }
{
    let mut words = Vec::new(alloc);
    let mut rest = bytes;
    while let Some((word, behind_word)) = W::read(rest) {
        words.push(word)?;
        let Some(next) = behind(behind_word, b' ') else {
            return Ok(Some(Listing::from_vec(words)));
        };
        rest = next;
    }
    Ok(None)
}

/// Reads words joined by one space; an empty text has no words. `None` for any other text.
/// Takes memory only for two or more words. Error: out of memory.
pub fn read_words<W: Token + Copy>(alloc: Global, bytes: &[u8]) -> Result<Option<Listing<W>>, Want>
    requires read_back { IsReadBack W.fits W.text (λ _ rest. EndsWord rest) }
    ensures { IfOk result (ParsesAs (AllByRecursion W.fits) (joined_texts W.text) bytes.now) }
{
    if bytes.is_empty() {
        return Ok(Some(Listing::from_vec(Vec::new(alloc))));
    }
    if let Some(word) = read_alone(bytes) {
        return Ok(Some(Listing::one(word)));
    }
    read_many(alloc, bytes)
}

/// Reads words joined by one space, or `none` for no words; `None` for any other text.
pub fn read_list<W: Token + Copy>(alloc: Global, bytes: &[u8]) -> Result<Option<Listing<W>>, Want>
    requires some { (word : W) → W.fits word → W.text word ≢ [] }
    requires read_back { IsReadBack W.fits W.text (λ _ rest. EndsWord rest) }
    ensures { IfOk result (ParsesAs (AllByRecursion W.fits) (joined_or (codes "none") W.text) bytes.now) }
{
    if bytes == b"none".as_slice() {
        return Ok(Some(Listing::from_vec(Vec::new(alloc))));
    }
    if bytes.is_empty() {
        return Ok(None);
    }
    read_words(alloc, bytes)
}
