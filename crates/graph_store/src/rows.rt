//! Neighbour lists, ascending.

ghost use Rattle.std.specs.Prelude.{◌≡◌, ◌+◌, ◌<◌, ◌≤◌, length, IfSome, IsNone, MatchResult, IsTrue, slice_index, ◌-◌, ◌/◌, ◌∷◌, take, drop, true, false};
ghost use Rattle.std.specs.List.{insert, remove};
ghost use Rattle.std.specs.List.Sorted.{IsStrictlyIncreasing};
ghost use Rattle.std.specs.Vec.{vec_len, vec_capacity};
ghost use Rattle.graph_store.specs.Rows.{has, IsPlaceOf, IsGapFor, IsPartFor};

use rule_machine::Node;

// The longest part that is halved without a branch.
const SHORT: usize = 64;

// This many halvings reduce `SHORT` entries to one.
const HALVINGS: usize = 6;

/// A part of a row, in a binary search for a name.
/// Names before the part are below the name searched for, names after the part are above.
#[derive(Clone, Copy)]
struct Part {
    start: usize,
    size: usize,
}

#[inline(always)]
fn halve(row: &[Node], name: Node, part: Part) -> Part
    requires rising { IsStrictlyIncreasing row.now }
    requires part { IsPartFor row.now name part.start part.size }
    ensures part { IsPartFor row.now name result.start result.size }
    ensures size { result.size ≡ part.size - part.size / 2 }
{
    let half = part.size / 2;
    let middle = part.start + half;
    let start = if name < row[middle] {
        part.start
    } else {
        middle
    };
    Part {
        start,
        size: part.size - half,
    }
}

fn shorten(row: &[Node], name: Node) -> Part
    requires rising { IsStrictlyIncreasing row.now }
    requires some { 0 < length row.now }
    ensures part { IsPartFor row.now name result.start result.size }
    ensures short { result.size ≤ 64 }
{
    let mut part = Part {
        start: 0,
        size: row.len(),
    };
    while part.size > SHORT {
        part = halve(row, name, part);
    }
    part
}

/// The index of the last entry that is at most `name`; 0 if there is none.
/// The last loop has a fixed number of turns: idle turns cost less than a mispredicted exit.
fn narrow(row: &[Node], name: Node) -> usize
    requires rising { IsStrictlyIncreasing row.now }
    requires some { 0 < length row.now }
    ensures { IsPartFor row.now name result 1 }
{
    let mut part = shorten(row, name);
    for _ in 0..HALVINGS {
        part = halve(row, name, part);
    }
    part.start
}

/// The index where a name belongs that is below or above all names of a row; `None` if it is neither.
/// Two looks, which can be made at once; those of a binary search wait for each other.
#[inline(always)]
fn find_outer_gap(row: &[Node], name: Node) -> Option<usize>
    requires { IsStrictlyIncreasing row.now }
    ensures gap { IfSome result (IsGapFor row.now name) }
    ensures some { IsNone result → 0 < length row.now }
{
    if row.is_empty() || name < row[0] {
        return Some(0);
    }
    if row[row.len() - 1] < name {
        return Some(row.len());
    }
    None
}

/// `Ok`: the name's index in a row. `Err`: the index where the name belongs.
/// Costs two looks, and a binary search if the name is between the first and the last one.
pub fn find_place(row: &[Node], name: Node) -> Result<usize, usize>
    requires { IsStrictlyIncreasing row.now }
    ensures { MatchResult result (IsPlaceOf row.now name) (IsGapFor row.now name) }
{
    if let Some(gap) = find_outer_gap(row, name) {
        return Err(gap);
    }
    let near = narrow(row, name);
    if row[near] == name {
        Ok(near)
    } else {
        Err(near + usize::from(row[near] < name))
    }
}

/// A name's index in a row, or the index where the name belongs. Costs as much as `find_place`.
pub fn find_index(row: &[Node], name: Node) -> usize
    requires { IsStrictlyIncreasing row.now }
    ensures gap { has row.now name ≡ false → IsGapFor row.now name result }
    ensures place { has row.now name ≡ true → IsPlaceOf row.now name result }
{
    match find_place(row, name) {
        Ok(place) => place,
        Err(gap) => gap,
    }
}

fn is_above(row: &[Node], place: usize, name: Node) -> bool
    requires { place ≤ length row.now }
    ensures { IsTrue result → 0 < place → slice_index row.now (place - 1) < name }
{
    if place == 0 {
        return true;
    }
    row[place - 1] < name
}

fn is_below(row: &[Node], place: usize, name: Node) -> bool
    ensures { IsTrue result → place < length row.now → name < slice_index row.now place }
{
    match row.get(place) {
        Some(next) => name < *next,
        None => true,
    }
}

/// The index where a new name belongs: two looks if the guess is right, else a binary search.
pub fn guess_gap(row: &[Node], guess: usize, name: Node) -> usize
    requires rising { IsStrictlyIncreasing row.now }
    requires apart { has row.now name ≡ false }
    ensures { IsGapFor row.now name result }
{
    if guess <= row.len() && is_above(row, guess, name) && is_below(row, guess, name) {
        return guess;
    }
    find_index(row, name)
}

/// Shifts a row's tail up by one, dropping its last name, and puts `name` first.
/// The loop compiles to one move of memory; `Vec::insert` does not.
pub fn put_first(tail: &mut [Node], name: Node)
    requires { 0 < length tail.old }
    ensures { tail.new ≡ name ∷ take (length tail.old - 1) tail.old }
{
    let last = tail.len() - 1;
    for moved in 0..last {
        let at = last - 1 - moved;
        tail[at + 1] = tail[at];
    }
    tail[0] = name;
}

pub fn put_at(row: &mut Vec<Node>, place: usize, name: Node)
    requires inside { place ≤ length row.old.items }
    requires room { vec_len row.old < vec_capacity row.old }
    ensures { row.new.items ≡ insert row.old.items place name }
{
    let _full = row.push(name);
    put_first(&mut row[place..], name);
}

/// Shifts a row's tail down by one, over its first name. The last name is then there twice.
pub fn drop_first(tail: &mut [Node])
    ensures { take (length tail.old - 1) tail.new ≡ drop 1 tail.old }
{
    for at in 1..tail.len() {
        tail[at - 1] = tail[at];
    }
}

pub fn take_at(row: &mut Vec<Node>, place: usize)
    requires { place < length row.old.items }
    ensures { row.new.items ≡ remove row.old.items place }
{
    drop_first(&mut row[place..]);
    let _last = row.pop();
}
