//! A set of names that is copied from another, and shrinks.

ghost use Rattle.std.specs.Prelude.{◌≡◌, ℕ, ◌<◌, ◌&&◌, false, length, nat_eq, not, replicate, slice_set, IfOk};
ghost use Rattle.std.specs.List.{list_any};
ghost use Rattle.enabled_set.specs.Members.{is_in, members};

use crate::set::EnabledSet;
use crate::spot::without_bit;
use crate::words::{copy_lots, is_blank, meet, trimmed, wipe};
use rule_machine::{Node, Want};
use std::alloc::Global;
use std::marker::Model;

/// A set of names without counts: a copy of an `EnabledSet` whose members are then taken out.
/// Contracts see a list of booleans, one for each name up to 65,535; index 0 belongs to no node.
#[derive(Drop)]
pub struct NameBits {
    // A bit for each name, in 1,024 words.
    words: Vec<u64>,
    // The words from here on are 0, the one before is not: so an empty set is known at once.
    used: usize,
}

impl Model for NameBits {
    ghost use Rattle.std.specs.Prelude.{Bool, List};
    ghost use Rattle.enabled_set.specs.Members.{first_bits};
    ghost use Rattle.enabled_set.specs.TrimmedWords.{AreTrimmed};

    ghost Value = { List Bool };

    ghost view = { λ s. first_bits 65536 s.words.items };

    ghost invariant = { λ s. AreTrimmed s.words.items s.used };
}

impl NameBits {
    /// The empty set. Takes eight kilobytes. Error: out of memory.
    pub fn new(alloc: Global) -> Result<NameBits, Want>
        ensures { IfOk result (λ set. set ≡ replicate 65536 false) }
    {
        let words = vec![in alloc; 0; 1_024]?;
        Ok(NameBits { words, used: 0 })
    }

    /// Whether the set has no member. One look.
    #[inline(always)]
    pub fn is_empty(&self) -> bool
        ensures { result ≡ nat_eq (length (members self.now)) 0 }
    {
        is_blank(&self.words, self.used)
    }

    /// Removes a name; the name need not be a member. One write.
    /// If the last word with a member has none left, also a look at each word back to one that has.
    #[inline(always)]
    pub fn remove(&mut self, v: Node)
        ensures { self.new ≡ slice_set self.old v false }
    {
        let place = v.place();
        let word = self.words[place / 64];
        self.words[place / 64] = without_bit(word, place % 64);
        self.used = trimmed(&self.words, self.used);
    }

    /// Makes this a copy of another set.
    /// Looks at 16 counts, and copies 64 words for each 4,096 names that have a member.
    /// If this set has members, also a write for each 64 names up to the last.
    pub fn copy_from(&mut self, from: &EnabledSet)
        ensures { (v : ℕ) → is_in self.new v ≡ is_in from.now v }
    {
        wipe(&mut self.words, 0, self.used);
        let top = copy_lots(&mut self.words, from.words(), from.lots());
        self.used = trimmed(&self.words, top);
    }

    /// Keeps the members that the other set has too. A look at each 64 names up to the last member.
    pub fn retain(&mut self, other: &EnabledSet)
        ensures { (v : ℕ) → is_in self.new v ≡ (is_in self.old v && is_in other.now v) }
    {
        meet(&mut self.words, other.words(), self.used);
        self.used = trimmed(&self.words, self.used);
    }

    /// Removes those of some names that the other set does not have.
    /// A look at the other set for each name, and a write if the name is not there.
    pub fn retain_among(&mut self, names: &[Node], other: &EnabledSet)
        ensures { (v : ℕ) → is_in self.new v ≡ (is_in self.old v && not (list_any (nat_eq v) names.now && not (is_in other.now v))) }
    {
        for &name in names {
            if !other.contains(name) {
                self.remove(name);
            }
        }
    }
}
