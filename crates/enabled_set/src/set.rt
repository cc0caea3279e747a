//! The set of names.

ghost use Rattle.std.specs.Prelude.{◌≡◌, ℕ, ◌+◌, ◌*◌, ◌<◌, ◌≤◌, true, false, length, replicate, slice_get, slice_index, slice_set, IfOk};
ghost use Rattle.enabled_set.specs.Members.{is_bit_on, is_in, members};
ghost use Rattle.enabled_set.specs.RemovedNames.{KeepsNotes};

use crate::removals::Removals;
use crate::scan::{look, pass_in_8, pass_in_16, pass_words, push_word};
use crate::spot::{bit_is_set, find_bit, with_bit, without_bit};
use rule_machine::{Node, Want};
use std::alloc::Global;
use std::marker::Model;

/// A set of names. Contracts see a list of booleans, one for each name; index 0 belongs to no node.
///
/// Each name is a bit. Each block of 512 bits and each block of 4,096 bits has a count of its members.
/// The vectors are padded: from any member on, eight words and eight counts of 512 can be read. There are
/// always sixteen counts of 4,096.
#[derive(Drop)]
pub struct EnabledSet {
    len: usize,
    words: Vec<u64>,
    by_512: Vec<u16>,
    by_4096: Vec<u16>,
    total: u32,
}

impl Model for EnabledSet {
    ghost use Rattle.std.specs.Prelude.{Bool, List};
    ghost use Rattle.enabled_set.specs.Members.{first_bits};
    ghost use Rattle.enabled_set.specs.Counts.{HasRightCounts};

    ghost Value = { List Bool };

    ghost view = { λ s. first_bits s.len s.words.items };

    ghost invariant = { λ s. HasRightCounts (first_bits s.len s.words.items) s.words.items s.by_512.items s.by_4096.items s.total };
}

impl EnabledSet {
    /// The empty set for the names 1 to `nodes`, which is at most 65,535.
    /// Takes a bit for each name and some two bytes for each 512 names: at most some nine kilobytes.
    /// Error: out of memory.
    pub fn new(alloc: Global, nodes: u32) -> Result<EnabledSet, Want>
        requires { nodes ≤ 65535 }
        ensures { IfOk result (λ set. set ≡ replicate (nodes + 1) false) }
    {
        let len = nodes as usize + 1;
        let words = vec![in alloc; 0; len / 64 + 8]?;
        let by_512 = vec![in alloc; 0; len / 512 + 8]?;
        let by_4096 = vec![in alloc; 0; 16]?;
        Ok(EnabledSet {
            len,
            words,
            by_512,
            by_4096,
            total: 0,
        })
    }

    /// Whether a name is a member; `false` above the greatest name. One look.
    #[inline(always)]
    pub fn contains(&self, v: Node) -> bool
        ensures { result ≡ is_in self.now v }
    {
        look(&self.words, v.place())
    }

    /// The number of members, at most 65,535. One look.
    pub fn count(&self) -> u32
        ensures { result ≡ length (members self.now) }
    {
        self.total
    }

    /// The member at index `k` by ascending name, from 0; `None` if `k` is at least `count()`.
    /// Looks at most at 24 counts, eight words, and the bits of one word.
    pub fn nth(&self, k: u32) -> Option<Node>
        ensures { result ≡ slice_get (members self.now) k }
    {
        if k >= self.total {
            return None;
        }
        let lot = pass_in_16(&self.by_4096, k);
        let group = pass_in_8(&self.by_512, 8 * lot.place, lot.left);
        let spot = pass_words(&self.words, 8 * group.place, group.left);
        let at = find_bit(self.words[spot.place], spot.left);
        let name = (64 * spot.place + at) as u16;
        Node::new(u32::from(name))
    }

    /// The members, ascending: at most 65,535. Takes two bytes for each member.
    /// Looks at each word and at each member. Error: out of memory.
    pub fn to_list(&self) -> Result<Vec<Node>, Want>
        ensures { IfOk result (λ list. list.items ≡ members self.now) }
    {
        let mut list = Vec::with_capacity(self.words.allocator().clone()?, self.total as usize)?;
        for place in 0..self.words.len() {
            push_word(&mut list, &self.words, place)?;
        }
        Ok(list)
    }

    /// The words, and bits of no name after them.
    #[inline(always)]
    pub(crate) fn words(&self) -> &[u64]
        ensures same { (v : ℕ) → is_in self.now v ≡ is_bit_on result.now v }
        ensures few { length self.now ≤ 65536 }
    {
        &self.words
    }

    /// How many members each block of 4,096 names has.
    #[inline(always)]
    pub(crate) fn lots(&self) -> &[u16]
        ensures room { length result.now ≡ 16 }
        ensures counted { (lot v : ℕ) → slice_index result.now lot ≡ 0 → 4096 * lot ≤ v → v < 4096 * lot + 4096 → is_in self.now v ≡ false }
    {
        &self.by_4096
    }

    /// Inserts a name; the name may be a member already. At most four writes.
    pub fn insert(&mut self, v: Node)
        requires { v < length self.old }
        ensures { self.new ≡ slice_set self.old v true }
    {
        let place = v.place();
        let word = self.words[place / 64];
        if bit_is_set(word, place % 64) {
            return;
        }
        self.words[place / 64] = with_bit(word, place % 64);
        self.by_512[place / 512] += 1;
        self.by_4096[place / 4096] += 1;
        self.total += 1;
    }

    /// Removes a name; the name need not be a member. At most four writes.
    pub fn remove(&mut self, v: Node)
        ensures { self.new ≡ slice_set self.old v false }
    {
        let place = v.place();
        if !look(&self.words, place) {
            return;
        }
        let word = self.words[place / 64];
        self.words[place / 64] = without_bit(word, place % 64);
        self.by_512[place / 512] -= 1;
        self.by_4096[place / 4096] -= 1;
        self.total -= 1;
    }

    /// Removes a name and, if it was a member, notes it. At most six writes.
    pub fn remove_noted(&mut self, v: Node, removals: &mut Removals)
        ensures set { self.new ≡ slice_set self.old v false }
        ensures noted { KeepsNotes self.old removals.old self.new removals.new }
    {
        if self.contains(v) {
            self.remove(v);
            removals.note(v);
        }
    }
}
