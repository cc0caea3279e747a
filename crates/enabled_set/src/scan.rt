//! Scans of words and of counts.

ghost use Rattle.std.specs.Prelude.{◌≡◌, ◌+◌, ◌*◌, ◌<◌, ◌≤◌, length, slice_index, OnOk};
ghost use Rattle.enabled_set.specs.Members.{has_bit, is_bit_on, HasOnlyNames};
ghost use Rattle.enabled_set.specs.Counts.{tally, before, below};

use crate::spot::{Spot, bit_is_set, first_bit, spot_behind, without_bit};
use rule_machine::{Node, Want};

#[inline(always)]
pub fn word_at(words: &[u64], place: usize) -> u64
    ensures { result ≡ slice_index words.now place }
{
    match words.get(place) {
        Some(word) => *word,
        None => 0,
    }
}

#[inline(always)]
#[tactic(auto, unfolding(crate::specs::Members::is_bit_on))]
pub fn look(words: &[u64], place: usize) -> bool
    ensures { result ≡ is_bit_on words.now place }
{
    bit_is_set(word_at(words, place / 64), place % 64)
}

/// Finds the block that has member `to_pass`, and the member's index in the block; both from 0.
/// Stops at the block found, since a network has few blocks to pass.
#[inline(always)]
#[tactic(auto, using(crate::proofs::PassCounts::before_none, crate::proofs::PassCounts::before_next))]
pub fn pass_in_16(counts: &[u16], to_pass: u32) -> Spot
    requires room { 16 ≤ length counts.now }
    requires enough { to_pass < before counts.now 16 }
    ensures passed { before counts.now result.place + result.left ≡ to_pass }
    ensures here { result.left < slice_index counts.now result.place }
    ensures near { result.place < 16 }
{
    let mut left = to_pass;
    for place in 0..15 {
        let count = u32::from(counts[place]);
        if left < count {
            return Spot { place, left };
        }
        left -= count;
    }
    Spot { place: 15, left }
}

/// Like `pass_in_16`, for the eight counts from index `from` on.
/// Sums all of them, to avoid a mispredicted branch.
#[inline(always)]
#[tactic(auto, using(crate::proofs::PassCounts::before_step))]
pub fn pass_in_8(counts: &[u16], from: usize, to_pass: u32) -> Spot
    requires room { from + 8 ≤ length counts.now }
    requires near { from ≤ 65528 }
    requires enough { before counts.now from + to_pass < before counts.now (from + 8) }
    ensures passed { before counts.now result.place + result.left ≡ before counts.now from + to_pass }
    ensures here { result.left < slice_index counts.now result.place }
    ensures near { result.place < from + 8 }
{
    let mut spot = Spot {
        place: from,
        left: to_pass,
    };
    let mut sum = 0;
    for at in from..from + 7 {
        sum += u32::from(counts[at]);
        spot = spot_behind(spot, at + 1, to_pass, sum);
    }
    spot
}

/// Like `pass_in_8`, for the bits of the eight words from index `from` on.
#[inline(always)]
#[tactic(auto, using(crate::proofs::Places::words_step, crate::proofs::Bits::ones_of, crate::proofs::Bits::ones_few))]
pub fn pass_words(words: &[u64], from: usize, to_pass: u32) -> Spot
    requires room { from + 8 ≤ length words.now }
    requires near { from ≤ 65528 }
    requires enough { tally (is_bit_on words.now) (64 * from) + to_pass < tally (is_bit_on words.now) (64 * (from + 8)) }
    ensures passed { tally (is_bit_on words.now) (64 * result.place) + result.left ≡ tally (is_bit_on words.now) (64 * from) + to_pass }
    ensures here { result.left < tally (has_bit (slice_index words.now result.place)) 64 }
    ensures near { result.place < from + 8 }
{
    let mut spot = Spot {
        place: from,
        left: to_pass,
    };
    let mut sum = 0;
    for at in from..from + 7 {
        sum += words[at].count_ones();
        spot = spot_behind(spot, at + 1, to_pass, sum);
    }
    spot
}

/// Appends the names in the word at index `place` to `list`, which has the names in all words before.
#[inline(always)]
pub fn push_word(list: &mut Vec<Node>, words: &[u64], place: usize) -> Result<(), Want>
    requires named { HasOnlyNames words.now }
    requires there { place < length words.now }
    requires near { place ≤ 65536 }
    requires so_far { list.old.items ≡ below (is_bit_on words.now) (64 * place) }
    ensures { OnOk result (list.new.items ≡ below (is_bit_on words.now) (64 * place + 64)) }
{
    let mut rest = words[place];
    while let Some(at) = first_bit(rest) {
        let name = (64 * place + at) as u16;
        if let Some(member) = Node::new(u32::from(name)) {
            list.push(member)?;
        }
        rest = without_bit(rest, at);
    }
    Ok(())
}
