//! The unit that is put on a deque and taken from it.

ghost use Rattle.std.specs.Prelude.{◌<◌, ◌≤◌};

use crate::MAX_WORKERS;

/// One or more successive places.
#[derive(Drop)]
pub(crate) struct Block {
    /// The first place.
    pub first: u32,
    /// The place after the last one.
    pub end: u32,
    ghost some: { first < end },
}

// The most places of a block. Taking such a block costs little compared with the work on its places.
const WIDEST: u32 = 64;

/// How many places block `number`, from 0, has if `left` places are left; see `ends`.
pub(crate) fn width(number: u32, left: u32) -> u32
    requires { 0 < left }
    ensures { (0 < result) × (result ≤ left) }
{
    if number < MAX_WORKERS {
        return 1;
    }
    (left / MAX_WORKERS).clamp(1, WIDEST)
}
