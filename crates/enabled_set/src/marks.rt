//! Names that are marked until they are taken.

ghost use Rattle.std.specs.Prelude.{◌≡◌, ◌+◌, ◌<◌, ◌≤◌, ℕ, true, false, length, replicate, slice_set, IfOk, IfSome, IsNone};
ghost use Rattle.enabled_set.specs.Members.{is_in};

use rule_machine::{Node, Want};
use std::alloc::Global;
use std::marker::Model;

/// Names that are marked until they are taken, one by one.
/// Contracts see a list of booleans, one for each name; index 0 belongs to no node.
/// The marked names are also listed in the order of marking, so taking all marks looks only at these names.
#[derive(Drop)]
pub struct Marks {
    is_marked: Vec<bool>,
    names: Vec<Node>,
    count: usize,
    // If this is set, each name is marked, and to mark one reads no table.
    all: bool,
}

impl Model for Marks {
    ghost use Rattle.std.specs.Prelude.{Bool, List};
    ghost use Rattle.enabled_set.specs.MarkedNames.{AreListed, AreAllMarkedIf};

    ghost Value = { List Bool };

    ghost view = { λ m. m.is_marked.items };

    ghost invariant = { λ m. AreListed m.is_marked.items m.names.items m.count × AreAllMarkedIf m.all m.is_marked.items };
}

#[inline(always)]
fn node_above(name: u16) -> Node
    requires { name < 65535 }
    ensures { result ≡ name + 1 }
{
    Node::new(u32::from(name) + 1).unwrap()
}

impl Marks {
    /// A table without marks, for the names 1 to `nodes`, which is at most 65,535.
    /// Takes three bytes for each name. Error: out of memory.
    pub fn new(alloc: Global, nodes: u32) -> Result<Marks, Want>
        requires { nodes ≤ 65535 }
        ensures { IfOk result (λ marks. marks ≡ replicate (nodes + 1) false) }
    {
        let places = nodes as usize + 1;
        let is_marked = vec![in alloc; false; places]?;
        let names = vec![in alloc; node_above(0); places]?;
        Ok(Marks {
            is_marked,
            names,
            count: 0,
            all: false,
        })
    }

    /// Whether a name is marked; `false` above the greatest name. One look.
    #[inline(always)]
    pub fn contains(&self, v: Node) -> bool
        ensures { result ≡ is_in self.now v }
    {
        self.is_marked.get(v.place()).copied().unwrap_or(false)
    }

    /// Marks a name; the name may be marked already.
    /// At most three writes; one look between `mark_all` and the next `take`.
    #[inline(always)]
    pub fn mark(&mut self, v: Node)
        requires { v < length self.old }
        ensures { self.new ≡ slice_set self.old v true }
    {
        let place = v.place();
        if self.all {
            return;
        }
        if self.is_marked[place] {
            return;
        }
        self.is_marked[place] = true;
        self.names[self.count] = v;
        self.count += 1;
    }

    /// Marks all names. One look at each name.
    pub fn mark_all(&mut self)
        ensures places { length self.new ≡ length self.old }
        ensures marked { (v : ℕ) → 1 ≤ v → v < length self.old → is_in self.new v ≡ true }
    {
        let last = self.is_marked.len() - 1;
        for below in 0..last as u16 {
            self.mark(node_above(below));
        }
        self.all = true;
    }

    /// Unmarks and returns the name that was marked last; `None` if no name is marked.
    /// Tests, not the contract, check that it is the last name. Two looks and two writes.
    #[inline(always)]
    pub fn take(&mut self) -> Option<Node>
        ensures none { IsNone result → (v : ℕ) → is_in self.old v ≡ false }
        ensures kept { IsNone result → self.new ≡ self.old }
        ensures some { IfSome result (λ v. is_in self.old v ≡ true) }
        ensures taken { IfSome result (λ v. self.new ≡ slice_set self.old v false) }
    {
        if self.count == 0 {
            return None;
        }
        self.all = false;
        self.count -= 1;
        let v = self.names[self.count];
        self.is_marked[v.place()] = false;
        Some(v)
    }
    /// Unmarks all names. Two looks and two writes for each marked name.
    pub fn clear(&mut self)
        ensures clear { (v : ℕ) → is_in self.new v ≡ false }
        ensures places { length self.new ≡ length self.old }
    {
        while let Some(_) = self.take() {}
    }
}
