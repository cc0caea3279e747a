//! Names that left a set.

ghost use Rattle.std.specs.Prelude.{◌≡◌, ℕ, [], true, false, IfOk, IsTrue};
ghost use Rattle.enabled_set.specs.RemovedNames.{may_have};

use rule_machine::{Node, Want};
use std::alloc::Global;
use std::marker::Model;

/// The names that left a set since this list was cleared, while they are few.
///
/// Contracts see the names and whether others may be missing.
#[derive(Drop)]
pub struct Removals {
    names: Vec<Node>,
    is_over: bool,
}

impl Model for Removals {
    ghost use Rattle.enabled_set.specs.RemovedNames.{RemovedNames};

    ghost Value = { RemovedNames };

    ghost view = { λ r. record { names = r.names.items; is_over = r.is_over } };
}

impl Removals {
    /// An empty list for 256 names. Takes half a kilobyte. Error: out of memory.
    pub fn new(alloc: Global) -> Result<Removals, Want>
        ensures { IfOk result (λ removals. removals ≡ record { names = []; is_over = false }) }
    {
        let names = Vec::with_capacity(alloc, 256)?;
        Ok(Removals {
            names,
            is_over: false,
        })
    }

    /// A list without room, for whoever needs no names. Takes no memory.
    pub fn without_room(alloc: Global) -> Removals
        ensures { result ≡ record { names = []; is_over = true } }
    {
        Removals {
            names: Vec::new(alloc),
            is_over: true,
        }
    }

    /// Notes a name. If the list has no room left, it only notes that a name is missing. Takes no memory.
    #[inline(always)]
    pub fn note(&mut self, v: Node)
        ensures noted { IsTrue (may_have self.new v) }
        ensures kept { (u : ℕ) → IsTrue (may_have self.old u) → IsTrue (may_have self.new u) }
    {
        if self.names.len() == self.names.capacity() || self.names.push(v).is_err() {
            self.is_over = true;
        }
    }

    /// The noted names, in their order; a name may be there several times.
    #[inline(always)]
    pub fn names(&self) -> &[Node]
        ensures { result.now ≡ self.now.names }
    {
        &self.names
    }

    /// Whether names may be missing.
    #[inline(always)]
    pub fn is_over(&self) -> bool
        ensures { result ≡ self.now.is_over }
    {
        self.is_over
    }

    /// Forgets the names, and those that are missing; a list without room misses all further ones.
    #[inline(always)]
    pub fn clear(&mut self)
        ensures { self.new.names ≡ [] }
    {
        self.names.clear();
        self.is_over = self.names.capacity() == 0;
    }
}
