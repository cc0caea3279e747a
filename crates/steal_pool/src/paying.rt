//! How many workers are worth starting.

ghost use Rattle.std.specs.Prelude.{◌≡◌, ◌≤◌, ◌/◌, max, min};

use crate::MAX_WORKERS;

/// The items for one worker. For fewer, starting a worker and taking over its verdicts saves no time.
const ITEMS_A_WORKER: usize = 16_384;

/// How many of `workers` workers are worth starting for a step of `items` items: one for each 16,384 items.
///
/// At least 1 if `workers` is at least 1, and at most 64.
pub fn paying_workers(workers: u32, items: usize) -> u32
    ensures value { result ≡ min workers (min (max (items / 16384) 1) 64) }
    ensures some { 1 ≤ workers → 1 ≤ result }
    ensures few { result ≤ workers }
{
    let paying = (items / ITEMS_A_WORKER).max(1);
    workers.min(paying.min(MAX_WORKERS as usize) as u32)
}
