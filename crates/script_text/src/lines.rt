//! The lines of a script.

ghost use Rattle.std.specs.Prelude.{◌≡◌, ◌<◌, [], ◌∷◌, length, MatchOption, IfSome};
ghost use Rattle.script_text.specs.Script.{lines_of};

use byte_streams::split_line;

/// The most bytes of a command's line, without its LF. A longer line is no command.
pub const MAX_LINE: usize = 1_048_576;

/// The first line without its LF, and the bytes after the line; `None` if there are no bytes.
pub fn next_line(bytes: &[u8]) -> Option<(&[u8], &[u8])>
    ensures lines { MatchOption result
        (lines_of bytes.now ≡ [])
        (λ found. lines_of bytes.now ≡ found.0.now ∷ lines_of found.1.now) }
    ensures shorter { IfSome result (λ found. length found.1.now < length bytes.now) }
{
    if bytes.is_empty() {
        return None;
    }
    match split_line(bytes) {
        Some(found) => Some(found),
        None => Some((bytes, &[])),
    }
}
