//! Short texts, written into room that was made before.

ghost use Rattle.std.specs.Prelude.{◌≡◌, ℕ, ◌+◌, ◌-◌, ◌*◌, ◌/◌, ◌%◌, ◌^◌, ◌<◌, ◌≤◌, [], ◌∷◌, ◌++◌, length, take};
ghost use Rattle.std.specs.Int.{w64, from_le_bytes};
ghost use Rattle.line_text.specs.Words.{number_text, six_digits, IsName};

use rule_machine::Node;

/// The length of a window: how many bytes are written at once. Shorter texts are cut to their length.
pub(crate) const WINDOW: usize = 8;

/// The least number that does not fit a window together with a byte.
pub(crate) const TOO_LONG: u32 = 1_000_000;

/// The two digits of each number below 100.
static PAIRS: [u8; 200] =
    *b"00010203040506070809101112131415161718192021222324252627282930313233343536373839404142434445464748495051525354555657585960616263646566676869707172737475767778798081828384858687888990919293949596979899";

#[inline(always)]
fn pair(number: u32) -> u64
    requires { number < 100 }
    ensures { result ≡ 48 + number / 10 + (48 + number % 10) * 256 }
{
    let at = number as usize * 2;
    u64::from(u16::from_le_bytes([PAIRS[at], PAIRS[at + 1]]))
}

// Adding this to six digits subtracts the code of `0` from each digit, and sets the top bit of the
// last digit, so that the last digit counts even if it is 0.
const LAST_COUNTS: u64 = (0x80 << 40) - 0x3030_3030_3030;

#[inline(always)]
fn digits(number: u32) -> u64
    requires { number < 1000000 }
    ensures { result ≡ from_le_bytes w64 (six_digits number ++ 0 ∷ 0 ∷ []) }
{
    let (front, first) = (number / 100, number / 10_000);
    pair(first) + (pair(front - first * 100) << 16) + (pair(number - front * 100) << 32)
}

// After the addition each leading zero is eight clear bits.
#[inline(always)]
fn leading_zeros(digits: u64) -> u32
    requires { digits < 2 ^ 48 }
    ensures { (n : ℕ) → n < 1000000 → digits ≡ from_le_bytes w64 (six_digits n ++ 0 ∷ 0 ∷ []) → result ≡ 6 - length (number_text n) }
{
    (digits + LAST_COUNTS).trailing_zeros() / 8
}

// A window with a number's digits and a byte, and how many bytes these are.
#[inline(always)]
fn number_window(number: u32, behind: u8) -> ([u8; 8], usize)
    requires { number < 1000000 }
    ensures text { take result.1 result.0 ≡ number_text number ++ behind ∷ [] }
    ensures short { result.1 ≤ 7 }
{
    let digits = digits(number);
    let zeros = leading_zeros(digits);
    let window = (digits + (u64::from(behind) << 48)) >> (8 * zeros);
    (window.to_le_bytes(), 7 - zeros as usize)
}

// Assigns an array: a copy of a slice would test for overlap.
#[inline(always)]
fn put_whole(place: &mut [u8], window: [u8; 8])
    requires { length place.old ≡ 8 }
    ensures same { place.new ≡ window }
    ensures len { length place.new ≡ 8 }
{
    if let Some(bytes) = place.as_mut_array::<WINDOW>() {
        *bytes = window;
    }
}

/// Writes a window at index `at`; returns the index after the window's first `count` bytes.
/// Branch-free.
#[inline(always)]
pub(crate) fn put_window(room: &mut [u8], at: usize, window: [u8; 8], count: usize) -> usize
    requires space { at + 8 ≤ length room.old }
    requires short { count ≤ 8 }
    ensures text { take result room.new ≡ take at room.old ++ take count window }
    ensures within { result ≡ at + count }
    ensures len { length room.new ≡ length room.old }
{
    put_whole(&mut room[at..at + WINDOW], window);
    at + count
}

/// Writes a number of at most six digits and a byte at index `at`; returns the index after the byte.
#[inline(always)]
pub(crate) fn put_digits(room: &mut [u8], at: usize, number: u32, behind: u8) -> usize
    requires below { number < 1000000 }
    requires space { at + 8 ≤ length room.old }
    ensures text { take result room.new ≡ take at room.old ++ (number_text number ++ behind ∷ []) }
    ensures within { result ≤ at + 8 }
    ensures len { length room.new ≡ length room.old }
{
    let (window, count) = number_window(number, behind);
    put_window(room, at, window, count)
}

#[inline(always)]
pub(crate) fn put_node(room: &mut [u8], at: usize, node: Node, behind: u8) -> usize
    requires { at + 8 ≤ length room.old }
    ensures text { take result room.new ≡ take at room.old ++ (number_text node ++ behind ∷ []) }
    ensures within { result ≤ at + 8 }
    ensures len { length room.new ≡ length room.old }
    ensures named { IsName node }
{
    put_digits(room, at, node.name(), behind)
}
