//! The lines of bytes.

ghost use Rattle.std.specs.Prelude.{◌≡◌, ◌<◌, ◌∷◌, ◌++◌, None, Some, length, MatchOption, IfSome};
ghost use Rattle.byte_streams.specs.Lines.{IsLine, first_line};

use memchr::memchr;

/// The first line without its LF, and the rest after the LF; `None` if there is no LF.
/// One look at the line.
pub fn split_line(bytes: &[u8]) -> Option<(&[u8], &[u8])>
    ensures line { MatchOption result
        (IsLine bytes.now)
        (λ found. IsLine found.0.now × (bytes.now ≡ found.0.now ++ 10 ∷ found.1.now)) }
    ensures first { MatchOption result
        (first_line bytes.now ≡ None)
        (λ found. first_line bytes.now ≡ Some (found.0.now, found.1.now)) }
    ensures shorter { IfSome result (λ found. length found.1.now < length bytes.now) }
{
    let Some(len) = memchr(b'\n', bytes) else {
        return None;
    };
    Some((&bytes[..len], &bytes[len + 1..]))
}
