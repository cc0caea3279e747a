//! Cuts texts at a byte, or at one of their ends.

ghost use Rattle.std.specs.Prelude.{◌≡◌, ℕ, ◌↔◌, List, ◌∷◌, ◌++◌, IsTrue, MatchOption};
ghost use Rattle.entry_grammar.specs.Parsing.{IsFree, CutAt, EndsWord};

use memchr::memchr;

/// The text before the first `mark`, and the text after; `None` if the text has no `mark`.
pub fn cut(bytes: &[u8], mark: u8) -> Option<(&[u8], &[u8])>
    ensures { MatchOption result
        (IsFree mark bytes.now)
        (λ found. CutAt mark bytes.now found.0.now found.1.now) }
{
    for (i, byte) in bytes.iter().enumerate() {
        if *byte == mark {
            return Some((&bytes[..i], &bytes[i + 1..]));
        }
    }
    None
}

/// Like `cut`, for a mark that may be far away: looks at many bytes at once.
pub fn cut_far(bytes: &[u8], mark: u8) -> Option<(&[u8], &[u8])>
    ensures { MatchOption result
        (IsFree mark bytes.now)
        (λ found. CutAt mark bytes.now found.0.now found.1.now) }
{
    match memchr(mark, bytes) {
        Some(len) => Some((&bytes[..len], &bytes[len + 1..])),
        None => None,
    }
}

/// Whether the text is empty or begins with a space.
#[inline(always)]
pub(crate) fn ends(bytes: &[u8]) -> bool
    ensures { IsTrue result ↔ EndsWord bytes.now }
{
    bytes.get(0).copied().unwrap_or(b' ') == b' '
}

/// The text after its first byte `mark`; `None` if the text does not begin with `mark`.
#[inline(always)]
pub(crate) fn behind(bytes: &[u8], mark: u8) -> Option<&[u8]>
    ensures { MatchOption result
        ((rest : List ℕ) → bytes.now ≡ mark ∷ rest → ⊥)
        (λ rest. bytes.now ≡ mark ∷ rest.now) }
{
    match bytes.split_first() {
        Some((byte, rest)) if *byte == mark => Some(rest),
        _ => None,
    }
}

/// The text before its ending `back`; `None` if the text does not end with `back`.
pub fn before<'a>(bytes: &'a [u8], back: &[u8]) -> Option<&'a [u8]>
    ensures { MatchOption result
        ((front : List ℕ) → bytes.now ≡ front ++ back.now → ⊥)
        (λ front. bytes.now ≡ front.now ++ back.now) }
{
    bytes.strip_suffix(back)
}
