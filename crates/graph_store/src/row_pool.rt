//! Neighbour lists in a pool.

ghost use Rattle.std.specs.Prelude.{◌≡◌, ◌≢◌, ◌++◌, ℕ, ◌<◌, ◌≤◌, [], filter, length, map, nat_lt, replicate, slice_index_or, slice_set, IfOk, OnOk};
ghost use Rattle.std.specs.List.{insert, remove};
ghost use Rattle.graph_store.specs.Graph.{HasRoomFor};
ghost use Rattle.graph_store.specs.Rows.{pairs_from, put_both, row_at, take_both};

use crate::blocks::{add_block, add_long, add_room, names_in, put_name, take_name};
use crate::rows::{put_at, take_at};
use rule_machine::{Edge, Node, Want};
use std::alloc::Global;
use std::marker::Model;

/// The place of a name's neighbours.
#[derive(Clone, Copy)]
struct Head {
    /// The index of the row's block in the pool.
    start: u32,
    /// How many neighbours; `LONG` if the row has a vector of its own.
    len: u16,
    /// The size of the block, in units of 16 names.
    units: u16,
}

// The names of one unit.
const UNIT: usize = 16;

// The most units of a block. Blocks of more names would be moved too often.
const MOST_UNITS: u16 = 4;

// The most names of a row in the pool.
const MOST_NAMES: u16 = 64;

// The length in the head of a row that has a vector of its own.
const LONG: u16 = 65_535;

// No block begins at an index above this, so that 32 bits have its index.
const LAST_START: usize = 4_294_967_295;

/// The neighbour lists of a number of names, at first all empty.
///
/// Contracts see each list and its room for further neighbours.
/// A list of up to 64 names is in a block of 16, 32, 48 or 64 names of one pool; a longer list has a vector.
/// A block never shrinks, and is not used again after its list has outgrown it. So a name has at most one
/// block of each size, 160 names in all, whatever comes and goes.
#[derive(Drop)]
pub struct Rows {
    heads: Vec<Head>,
    pool: Vec<Node>,
    // Empty vectors up to the last name that has a long list.
    long: Vec<Vec<Node>>,
}

impl Model for Rows {
    ghost use Rattle.graph_store.specs.RowPools.{RowLists, lists_code, lists_of, rooms_of, IsPool};

    ghost Value = { RowLists };

    ghost coded = { lists_code };

    ghost view = { λ r. record { lists = lists_of r.heads.items r.pool.items r.long.items; room = rooms_of r.heads.items r.long.items } };

    ghost invariant = { λ r. IsPool r.heads.items r.pool.items r.long.items };
}

impl Rows {
    pub fn new(alloc: Global, count: usize) -> Result<Rows, Want>
        ensures { IfOk result (λ rows. rows.lists ≡ replicate count []) }
    {
        let none = Head {
            start: 0,
            len: 0,
            units: 0,
        };
        let heads = vec![in alloc; none; count]?;
        Ok(Rows {
            heads,
            pool: Vec::new(alloc),
            long: Vec::new(alloc),
        })
    }

    /// The neighbours of a name. Looks at eight bytes, then at the names.
    #[inline(always)]
    #[tactic(auto, using(crate::proofs::PooledRows::length_lists))]
    pub fn row(&self, node: Node) -> &[Node]
        requires { node < length self.now.lists }
        ensures { result.now ≡ row_at self.now.lists node }
    {
        let head = self.heads[node.place()];
        if head.len > MOST_NAMES {
            return &self.long[node.place()];
        }
        names_in(&self.pool, head.start as usize, usize::from(head.len))
    }

    #[inline(always)]
    #[tactic(auto, using(crate::proofs::PooledRows::length_lists))]
    fn make_room(&mut self, node: Node) -> Result<(), Want>
        requires { node < length self.old.lists }
        ensures lists { self.new.lists ≡ self.old.lists }
        ensures room { OnOk result (0 < slice_index_or self.new.room node 0) }
        ensures others { (v : ℕ) → 0 < slice_index_or self.old.room v 0 → 0 < slice_index_or self.new.room v 0 }
    {
        let head = self.heads[node.place()];
        if usize::from(head.len) < UNIT * usize::from(head.units) {
            return Ok(());
        }
        self.grow(node)
    }

    #[cold]
    #[inline(never)]
    #[tactic(auto, using(crate::proofs::PooledRows::length_lists))]
    fn grow(&mut self, node: Node) -> Result<(), Want>
        requires { node < length self.old.lists }
        ensures lists { self.new.lists ≡ self.old.lists }
        ensures room { OnOk result (0 < slice_index_or self.new.room node 0) }
        ensures others { (v : ℕ) → 0 < slice_index_or self.old.room v 0 → 0 < slice_index_or self.new.room v 0 }
    {
        let place = node.place();
        let head = self.heads[place];
        let len = usize::from(head.len);
        if head.len > MOST_NAMES {
            return add_room(&mut self.long[place]);
        }
        let from = head.start as usize;
        let end = self.pool.len();
        if head.units < MOST_UNITS && end <= LAST_START {
            let units = head.units + 1;
            add_block(&mut self.pool, from, len, UNIT * usize::from(units))?;
            self.heads[place] = Head {
                start: end as u32,
                len: head.len,
                units,
            };
            return Ok(());
        }
        let alloc = self.heads.allocator().clone()?;
        add_long(
            &mut self.long,
            alloc,
            place,
            names_in(&self.pool, from, len),
        )?;
        self.heads[place] = Head {
            start: 0,
            len: LONG,
            units: 0,
        };
        Ok(())
    }

    #[inline(always)]
    #[tactic(auto, using(crate::proofs::PooledRows::length_lists))]
    fn put_in(&mut self, node: Node, place: usize, name: Node)
        requires known { node < length self.old.lists }
        requires inside { place ≤ length (row_at self.old.lists node) }
        requires room { 0 < slice_index_or self.old.room node 0 }
        ensures lists { self.new.lists ≡ slice_set self.old.lists node (insert (row_at self.old.lists node) place name) }
        ensures others { (v : ℕ) → v ≢ node → 0 < slice_index_or self.old.room v 0 → 0 < slice_index_or self.new.room v 0 }
    {
        let head = self.heads[node.place()];
        if head.len > MOST_NAMES {
            put_at(&mut self.long[node.place()], place, name);
            return;
        }
        put_name(
            &mut self.pool,
            head.start as usize,
            usize::from(head.len),
            place,
            name,
        );
        self.heads[node.place()] = Head {
            start: head.start,
            len: head.len + 1,
            units: head.units,
        };
    }

    #[inline(always)]
    #[tactic(auto, using(crate::proofs::PooledRows::length_lists))]
    fn take_out(&mut self, node: Node, place: usize)
        requires known { node < length self.old.lists }
        requires inside { place < length (row_at self.old.lists node) }
        ensures { self.new.lists ≡ slice_set self.old.lists node (remove (row_at self.old.lists node) place) }
    {
        let head = self.heads[node.place()];
        if head.len > MOST_NAMES {
            take_at(&mut self.long[node.place()], place);
            return;
        }
        take_name(
            &mut self.pool,
            head.start as usize,
            usize::from(head.len),
            place,
        );
        self.heads[node.place()] = Head {
            start: head.start,
            len: head.len - 1,
            units: head.units,
        };
    }

    /// Makes room for one more neighbour of both names. Error: out of memory; no list has changed.
    pub fn reserve_both(&mut self, a: Node, b: Node) -> Result<(), Want>
        requires a_known { a < length self.old.lists }
        requires b_known { b < length self.old.lists }
        ensures lists { self.new.lists ≡ self.old.lists }
        ensures room { OnOk result (HasRoomFor self.new.room a b) }
    {
        self.make_room(a)?;
        self.make_room(b)
    }

    pub fn put_both(&mut self, a: Node, place_in_a: usize, b: Node, place_in_b: usize)
        requires apart { a ≢ b }
        requires a_known { a < length self.old.lists }
        requires b_known { b < length self.old.lists }
        requires inside_a { place_in_a ≤ length (row_at self.old.lists a) }
        requires inside_b { place_in_b ≤ length (row_at self.old.lists b) }
        requires room { HasRoomFor self.old.room a b }
        ensures { self.new.lists ≡ put_both self.old.lists a place_in_a b place_in_b }
    {
        self.put_in(a, place_in_a, b);
        self.put_in(b, place_in_b, a);
    }

    pub fn take_both(&mut self, a: Node, place_in_a: usize, b: Node, place_in_b: usize)
        requires apart { a ≢ b }
        requires a_known { a < length self.old.lists }
        requires b_known { b < length self.old.lists }
        requires inside_a { place_in_a < length (row_at self.old.lists a) }
        requires inside_b { place_in_b < length (row_at self.old.lists b) }
        ensures { self.new.lists ≡ take_both self.old.lists a place_in_a b place_in_b }
    {
        self.take_out(a, place_in_a);
        self.take_out(b, place_in_b);
    }

    #[tactic(auto, using(crate::proofs::PooledRows::length_lists))]
    fn count(&self) -> usize
        ensures { result ≡ length self.now.lists }
    {
        self.heads.len()
    }

    /// The edges, ascending. Takes memory for `count` of them. Error: out of memory.
    pub fn list_pairs(&self, count: u32) -> Result<Vec<Edge>, Want>
        requires few { length self.now.lists ≤ 65536 }
        requires nobody { row_at self.now.lists 0 ≡ [] }
        ensures { IfOk result (λ pairs. pairs.items ≡ pairs_from 0 self.now.lists) }
    {
        let alloc = self.heads.allocator().clone()?;
        let mut pairs = Vec::with_capacity(alloc, count as usize)?;
        for place in 1..self.count() {
            let v = Node::new(place as u32).unwrap();
            push_above(&mut pairs, v, self.row(v))?;
        }
        Ok(pairs)
    }
}

fn push_above(pairs: &mut Vec<Edge>, v: Node, row: &[Node]) -> Result<(), Want>
    ensures { OnOk result (pairs.new.items ≡ pairs.old.items ++ map (λ w. (v, w)) (filter (nat_lt v) row.now)) }
{
    for &w in row {
        if v < w {
            pairs.push(Edge::new(v, w).unwrap())?;
        }
    }
    Ok(())
}
