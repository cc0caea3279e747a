//! Words and lists of words, appended to a text.

ghost use Rattle.std.specs.Prelude.{◌≡◌, [], ◌∷◌, ◌++◌, ◌+◌, ◌*◌, ◌≤◌, List, ℕ, length, take, OnOk, OnErr};
ghost use Rattle.std.specs.List.{AllByRecursion};
ghost use Rattle.line_text.specs.Words.{space_ended, spaced, joined_texts, joined_or, Extends};

use rule_machine::Want;

/// A value that is written as one word.
pub(crate) trait Word {
    // The word's text.
    ghost text: { Self → List ℕ };

    // What each value of the type satisfies.
    ghost fits: { Self → Type 0 };

    /// Writes the word and a byte at index `at`; returns the index after the byte.
    fn put(&self, room: &mut [u8], at: usize, behind: u8) -> usize
        requires { at + 24 ≤ length room.old }
        ensures text { take result room.new ≡ take at room.old ++ (text self.now ++ behind ∷ []) }
        ensures within { result ≤ at + 24 }
        ensures len { length room.new ≡ length room.old }
        ensures fit { fits self.now };
}

// A word and a byte have fewer bytes than this.
const ROOM: usize = 24;

// For how many words room is made at once. The limit bounds the room made ahead.
const BATCH: usize = 64;

#[inline(always)]
fn put_words<W: Word>(room: &mut [u8], at: usize, words: &[W]) -> usize
    requires { at + 24 * length words.now ≤ length room.old }
    ensures text { take result room.new ≡ take at room.old ++ space_ended W.text words.now }
    ensures fit { AllByRecursion W.fits words.now }
{
    let mut end = at;
    for word in words {
        end = word.put(room, end, b' ');
    }
    end
}

// One check for room.
fn put_batch<W: Word>(out: &mut Vec<u8>, words: &[W]) -> Result<(), Want>
    requires { length words.now ≤ 64 }
    ensures ok { OnOk result (out.new.items ≡ out.old.items ++ space_ended W.text words.now) }
    ensures err { OnErr result (out.new.items ≡ out.old.items) }
    ensures fit { OnOk result (AllByRecursion W.fits words.now) }
{
    let at = out.len();
    out.resize(at + words.len() * ROOM, 0)?;
    let end = put_words(out.as_mut_slice(), at, words);
    out.truncate(end);
    Ok(())
}

fn put_each<W: Word>(out: &mut Vec<u8>, words: &[W]) -> Result<(), Want>
    ensures ok { OnOk result (out.new.items ≡ out.old.items ++ space_ended W.text words.now) }
    ensures err { OnErr result (Extends out.old.items out.new.items) }
    ensures fit { OnOk result (AllByRecursion W.fits words.now) }
{
    let mut left = words;
    while !left.is_empty() {
        let (batch, rest) = left.split_at(left.len().min(BATCH));
        put_batch(out, batch)?;
        left = rest;
    }
    Ok(())
}

pub(crate) fn put_spaced<W: Word>(out: &mut Vec<u8>, words: &[W]) -> Result<(), Want>
    ensures ok { OnOk result (out.new.items ≡ out.old.items ++ spaced W.text words.now) }
    ensures err { OnErr result (Extends out.old.items out.new.items) }
    ensures fit { OnOk result (AllByRecursion W.fits words.now) }
{
    out.push(b' ')?;
    put_each(out, words)?;
    out.pop();
    Ok(())
}

pub(crate) fn put_joined<W: Word>(out: &mut Vec<u8>, words: &[W]) -> Result<(), Want>
    ensures ok { OnOk result (out.new.items ≡ out.old.items ++ joined_texts W.text words.now) }
    ensures err { OnErr result (Extends out.old.items out.new.items) }
    ensures fit { OnOk result (AllByRecursion W.fits words.now) }
{
    if words.is_empty() {
        return Ok(());
    }
    put_each(out, words)?;
    out.pop();
    Ok(())
}

/// Appends `none` if there are no words.
pub(crate) fn put_joined_or<W: Word>(
    out: &mut Vec<u8>,
    none: &[u8],
    words: &[W],
) -> Result<(), Want>
    ensures ok { OnOk result (out.new.items ≡ out.old.items ++ joined_or none.now W.text words.now) }
    ensures err { OnErr result (Extends out.old.items out.new.items) }
    ensures fit { OnOk result (AllByRecursion W.fits words.now) }
{
    if words.is_empty() {
        return out.extend_from_slice(none);
    }
    put_joined(out, words)
}
