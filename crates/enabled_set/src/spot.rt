//! Bits of a 64-bit word.

ghost use Rattle.std.specs.Prelude.{◌≡◌, ◌≢◌, ℕ, ◌+◌, ◌*◌, ◌<◌, ◌≤◌, true, false, MatchOption};
ghost use Rattle.enabled_set.specs.Members.{has_bit};
ghost use Rattle.enabled_set.specs.Counts.{tally};

#[inline(always)]
#[tactic(auto, unfolding(crate::specs::Members::has_bit))]
pub fn bit_is_set(word: u64, at: usize) -> bool
    requires { at < 64 }
    ensures { result ≡ has_bit word at }
{
    word >> at & 1 == 1
}

#[tactic(auto, using(crate::proofs::Bits::with_here, crate::proofs::Bits::with_others))]
pub fn with_bit(word: u64, at: usize) -> u64
    requires { at < 64 }
    ensures here { has_bit result at ≡ true }
    ensures others { (i : ℕ) → i < 64 → i ≢ at → has_bit result i ≡ has_bit word i }
{
    word | 1 << at
}

#[tactic(auto, using(crate::proofs::Bits::without_here, crate::proofs::Bits::without_others))]
pub fn without_bit(word: u64, at: usize) -> u64
    requires { at < 64 }
    ensures here { has_bit result at ≡ false }
    ensures others { (i : ℕ) → i < 64 → i ≢ at → has_bit result i ≡ has_bit word i }
{
    word & !(1 << at)
}

#[inline(always)]
pub fn first_bit(word: u64) -> Option<usize>
    ensures { MatchOption result
        ((i : ℕ) → i < 64 → has_bit word i ≡ false)
        (λ at. (at < 64) × (has_bit word at ≡ true) × ((i : ℕ) → i < at → has_bit word i ≡ false)) }
{
    if word == 0 {
        return None;
    }
    Some(word.trailing_zeros() as usize)
}

/// The state of a scan: the next index, and how many members to skip from there on.
#[derive(Clone, Copy)]
pub struct Spot {
    pub place: usize,
    pub left: u32,
}

/// The spot at `place` if the `members` before `place` are at most `to_pass`, else the old spot.
#[inline(always)]
pub fn spot_behind(spot: Spot, place: usize, to_pass: u32, members: u32) -> Spot
    ensures stays_place { to_pass < members → result.place ≡ spot.place }
    ensures stays_left { to_pass < members → result.left ≡ spot.left }
    ensures moves_place { members ≤ to_pass → result.place ≡ place }
    ensures moves_left { members ≤ to_pass → result.left + members ≡ to_pass }
{
    if to_pass < members {
        return spot;
    }
    Spot {
        place,
        left: to_pass - members,
    }
}

/// Of the `2 * width` bits from `spot` on, the half that has the bit searched for.
#[tactic(auto, using(crate::proofs::Bits::ones_there))]
fn half(word: u64, spot: Spot, width: usize) -> Spot
    requires some { 1 ≤ width }
    requires inside { spot.place + 2 * width ≤ 64 }
    requires enough { tally (has_bit word) spot.place + spot.left < tally (has_bit word) (spot.place + 2 * width) }
    ensures passed { tally (has_bit word) result.place + result.left ≡ tally (has_bit word) spot.place + spot.left }
    ensures here { tally (has_bit word) result.place + result.left < tally (has_bit word) (result.place + width) }
    ensures near { result.place ≤ spot.place + width }
{
    let low = word >> spot.place & ((1 << width) - 1);
    spot_behind(spot, spot.place + width, spot.left, low.count_ones())
}

/// The index of the set bit that has exactly `to_pass` set bits below it.
pub fn find_bit(word: u64, to_pass: u32) -> usize
    requires { to_pass < tally (has_bit word) 64 }
    ensures inside { result < 64 }
    ensures on { has_bit word result ≡ true }
    ensures passed { tally (has_bit word) result ≡ to_pass }
{
    let whole = Spot {
        place: 0,
        left: to_pass,
    };
    let in_32 = half(word, whole, 32);
    let in_16 = half(word, in_32, 16);
    let in_8 = half(word, in_16, 8);
    let in_4 = half(word, in_8, 4);
    let in_2 = half(word, in_4, 2);
    half(word, in_2, 1).place
}
