//! Names in a pool, and rows that have vectors of their own.

ghost use Rattle.std.specs.Prelude.{◌≡◌, ◌≢◌, ℕ, ◌+◌, ◌-◌, ◌<◌, ◌≤◌, length, OnOk};
ghost use Rattle.std.specs.List.{insert, remove};
ghost use Rattle.std.specs.Vec.{vec_len, vec_capacity};
ghost use Rattle.graph_store.specs.Rows.{contents, row_at};
ghost use Rattle.graph_store.specs.RowPools.{names_at, spare_at, AreDisjointParts};

use crate::rows::{drop_first, put_first};
use rule_machine::{Node, Want};
use std::alloc::Global;

// By how many names a full vector grows, beside a quarter of its length.
const MORE: usize = 12;

#[inline(always)]
pub fn names_in(pool: &[Node], start: usize, len: usize) -> &[Node]
    requires { start + len ≤ length pool.now }
    ensures { result.now ≡ names_at pool.now start len }
{
    &pool[start..start + len]
}

#[inline(always)]
pub fn put_name(pool: &mut [Node], start: usize, len: usize, place: usize, name: Node)
    requires inside { place ≤ len }
    requires room { start + len < length pool.old }
    ensures row { names_at pool.new start (len + 1) ≡ insert (names_at pool.old start len) place name }
    ensures others { (s n : ℕ) → AreDisjointParts s n start (len + 1) → names_at pool.new s n ≡ names_at pool.old s n }
{
    put_first(&mut pool[start + place..start + len + 1], name);
}

#[inline(always)]
pub fn take_name(pool: &mut [Node], start: usize, len: usize, place: usize)
    requires inside { place < len }
    requires room { start + len ≤ length pool.old }
    ensures row { names_at pool.new start (len - 1) ≡ remove (names_at pool.old start len) place }
    ensures others { (s n : ℕ) → AreDisjointParts s n start len → names_at pool.new s n ≡ names_at pool.old s n }
{
    drop_first(&mut pool[start + place..start + len]);
}

/// Adds a block of `size` names to a pool's end and copies the `len` names from `start` on into it.
pub fn add_block(pool: &mut Vec<Node>, start: usize, len: usize, size: usize) -> Result<(), Want>
    requires inside { start + len ≤ length pool.old.items }
    requires fits { len ≤ size }
    requires small { size ≤ 64 }
    requires few { length pool.old.items ≤ 4294967295 }
    ensures kept { (s n : ℕ) → s + n ≤ length pool.old.items → names_at pool.new.items s n ≡ names_at pool.old.items s n }
    ensures longer { length pool.old.items ≤ length pool.new.items }
    ensures row { OnOk result (names_at pool.new.items (length pool.old.items) len ≡ names_at pool.old.items start len) }
    ensures size { OnOk result (length pool.old.items + size ≤ length pool.new.items) }
{
    let end = pool.len() + size;
    // All of it, or nothing: no part of a block is left in the pool.
    pool.reserve(size)?;
    pool.extend_from_within(start..start + len)?;
    pool.resize(end, Node::new(1).unwrap())
}

fn add_empty(long: &mut Vec<Vec<Node>>, alloc: Global, count: usize) -> Result<(), Want>
    ensures kept { (v : ℕ) → v < length long.old.items → (row_at (contents long.new.items) v ≡ row_at (contents long.old.items) v) × (spare_at long.new.items v ≡ spare_at long.old.items v) }
    ensures longer { length long.old.items ≤ length long.new.items }
    ensures count { OnOk result (count ≤ length long.new.items) }
{
    for _ in long.len()..count {
        long.push(Vec::new(alloc))?;
    }
    Ok(())
}

/// Makes room for one more name in a row's vector. Error: out of memory.
///
/// A full vector grows by a quarter of its length: if it doubled, it would be a third empty in the mean.
pub fn add_room(names: &mut Vec<Node>) -> Result<(), Want>
    ensures items { names.new.items ≡ names.old.items }
    ensures len { vec_len names.new ≡ vec_len names.old }
    ensures capacity { vec_capacity names.old ≤ vec_capacity names.new }
    ensures ok { OnOk result (vec_len names.new + 1 ≤ vec_capacity names.new) }
{
    let len = names.len();
    if len < names.capacity() {
        return Ok(());
    }
    names.reserve_exact(MORE.saturating_add(len / 4))
}

/// Gives the row at `place` a vector of its own, with room for further names.
pub fn add_long(
    long: &mut Vec<Vec<Node>>,
    alloc: Global,
    place: usize,
    row: &[Node],
) -> Result<(), Want>
    requires short { length row.now ≤ 64 }
    requires few { place ≤ 65535 }
    ensures others { (v : ℕ) → v ≢ place → v < length long.old.items → (row_at (contents long.new.items) v ≡ row_at (contents long.old.items) v) × (spare_at long.new.items v ≡ spare_at long.old.items v) }
    ensures longer { length long.old.items ≤ length long.new.items }
    ensures row { OnOk result ((place < length long.new.items) × (row_at (contents long.new.items) place ≡ row.now)) }
    ensures room { OnOk result (0 < spare_at long.new.items place) }
{
    let mut names = Vec::with_capacity(alloc, row.len() + MORE)?;
    names.extend_from_slice(row)?;
    add_empty(long, alloc, place + 1)?;
    long[place] = names;
    Ok(())
}
