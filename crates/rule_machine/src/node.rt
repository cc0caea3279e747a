//! Nodes by name.

ghost use Rattle.std.specs.Prelude.{◌≡◌, ℕ, ◌≤◌, SomeIff};

use std::marker::Model;

/// The greatest name.
pub const MAX_NAME: u32 = 65_535;

/// A node of a network. Contracts see its name, 1 to 65,535. Nodes are ordered by name.
#[derive(Clone, Copy, Debug, PartialEq, Eq, PartialOrd, Ord)]
pub struct Node {
    name: u16,
}

impl Model for Node {
    ghost use Rattle.std.specs.Prelude.{ℕ, ◌≤◌};

    ghost Value = { ℕ };

    ghost view = { λ n. n.name };

    ghost invariant = { λ n. 1 ≤ n.name };

    ghost inverse = { λ n. record { name = n } };
}

impl Node {
    /// The node with this name; `None` if the name is 0 or above 65,535.
    pub fn new(name: u32) -> Option<Node>
        ensures { SomeIff result ((1 ≤ name) × (name ≤ 65535)) name }
    {
        let name = u16::try_from(name).ok()?;
        if name == 0 {
            return None;
        }
        Some(Node { name })
    }

    /// The name, 1 to 65,535.
    pub fn name(self) -> u32
        ensures same { result ≡ self }
        ensures named { (1 ≤ result) × (result ≤ 65535) }
    {
        u32::from(self.name)
    }

    /// The name as an index into a table. Index 0 belongs to no node.
    pub fn place(self) -> usize
        ensures same { result ≡ self }
        ensures named { (1 ≤ result) × (result ≤ 65535) }
    {
        usize::from(self.name)
    }
}
