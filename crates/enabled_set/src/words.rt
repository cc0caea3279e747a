//! Edits of words of bits.

ghost use Rattle.std.specs.Prelude.{◌≡◌, ℕ, ◌+◌, ◌-◌, ◌*◌, ◌<◌, ◌≤◌, false, ◌⊎◌, bit_and, length, nat_eq, slice_index};
ghost use Rattle.enabled_set.specs.Members.{first_bits, is_bit_on, members};
ghost use Rattle.enabled_set.specs.TrimmedWords.{AreTrimmed};

/// The index after the last of the first `used` words that is not 0; 0 if each is.
/// Looks at each word from there on.
#[inline(always)]
pub fn trimmed(words: &[u64], used: usize) -> usize
    requires { used ≤ length words.now }
    ensures within { result ≤ used }
    ensures off { (i : ℕ) → result ≤ i → i < used → slice_index words.now i ≡ 0 }
    ensures last { 1 ≤ result → 1 ≤ slice_index words.now (result - 1) }
{
    for passed in 0..used {
        let end = used - passed;
        if words[end - 1] != 0 {
            return end;
        }
    }
    0
}

/// Whether no word has a bit.
#[inline(always)]
pub fn is_blank(words: &[u64], used: usize) -> bool
    requires { AreTrimmed words.now used }
    ensures { result ≡ nat_eq (length (members (first_bits 65536 words.now))) 0 }
{
    used == 0
}

pub fn wipe(words: &mut [u64], from: usize, to: usize)
    requires { to ≤ length words.old }
    ensures off { (i : ℕ) → from ≤ i → i < to → slice_index words.new i ≡ 0 }
    ensures others { (i : ℕ) → (i < from) ⊎ (to ≤ i) → slice_index words.new i ≡ slice_index words.old i }
    ensures room { length words.new ≡ length words.old }
{
    for at in from..to {
        words[at] = 0;
    }
}

/// Keeps of the first `used` words the bits that the other's words have too; the words after these are 0.
pub fn meet(words: &mut [u64], other: &[u64], used: usize)
    requires within { used ≤ length words.old }
    requires off { (i : ℕ) → used ≤ i → slice_index words.old i ≡ 0 }
    ensures each { (i : ℕ) → slice_index words.new i ≡ bit_and (slice_index words.old i) (slice_index other.now i) }
    ensures room { length words.new ≡ length words.old }
{
    let shared = used.min(other.len());
    for at in 0..shared {
        words[at] &= other[at];
    }
    wipe(words, shared, used);
}

#[inline(always)]
fn copy(words: &mut [u64], other: &[u64], from: usize, to: usize)
    requires here { to ≤ length words.old }
    requires there { to ≤ length other.now }
    ensures copied { (i : ℕ) → from ≤ i → i < to → slice_index words.new i ≡ slice_index other.now i }
    ensures others { (i : ℕ) → (i < from) ⊎ (to ≤ i) → slice_index words.new i ≡ slice_index words.old i }
    ensures room { length words.new ≡ length words.old }
{
    for at in from..to {
        words[at] = other[at];
    }
}

/// Copies the bits of each block of 4,096 that has one, by the block's count, to words without bits.
/// Returns an index; no word from there on has a bit.
pub fn copy_lots(words: &mut [u64], other: &[u64], counts: &[u16]) -> usize
    requires room { length words.old ≡ 1024 }
    requires lots { length counts.now ≡ 16 }
    requires empty { (i : ℕ) → slice_index words.old i ≡ 0 }
    requires counted { (lot v : ℕ) → slice_index counts.now lot ≡ 0 → 4096 * lot ≤ v → v < 4096 * lot + 4096 → is_bit_on other.now v ≡ false }
    ensures same { (v : ℕ) → v < 65536 → is_bit_on words.new v ≡ is_bit_on other.now v }
    ensures within { result ≤ 1024 }
    ensures off { (i : ℕ) → result ≤ i → slice_index words.new i ≡ 0 }
    ensures room { length words.new ≡ length words.old }
{
    let mut top = 0;
    for lot in 0..16 {
        if counts[lot] != 0 {
            let end = (64 * lot + 64).min(other.len());
            copy(words, other, 64 * lot, end);
            top = end;
        }
    }
    top
}
