//! The line feeds of a text, and the common beginning of two texts.

ghost use Rattle.std.specs.Prelude.{◌≡◌, ◌≤◌, ℕ, List, ◌++◌, length};
ghost use Rattle.auditor.specs.Damage.{line_feeds};
ghost use Rattle.auditor.specs.TranscriptCursors.{AreSameUpTo, ArePartedAt};

/// The most bytes of a transcript's line, without its LF. No transcript has a longer line.
pub const MAX_LINE: usize = 2_097_152;

pub(crate) fn line_feeds(bytes: &[u8]) -> u64
    ensures { result ≡ line_feeds bytes.now }
{
    let mut lines = 0;
    for &b in bytes {
        if b == b'\n' {
            lines += 1;
        }
    }
    lines
}

/// How many lines end before `rest`, the end of `text`.
pub(crate) fn lines_before(text: &[u8], rest: &[u8]) -> u64
    requires { length rest.now ≤ length text.now }
    ensures { (good : List ℕ) → text.now ≡ good ++ rest.now → result ≡ line_feeds good }
{
    line_feeds(&text[..text.len() - rest.len()])
}

/// The length of the two texts' common beginning. Their first `known` bytes must be equal.
pub(crate) fn common_len(text: &[u8], bytes: &[u8], known: usize) -> usize
    requires known { AreSameUpTo text.now bytes.now known }
    ensures same { AreSameUpTo text.now bytes.now result }
    ensures apart { ArePartedAt text.now bytes.now result }
{
    let end = text.len().min(bytes.len());
    for i in known..end {
        if text[i] != bytes[i] {
            return i;
        }
    }
    end
}
