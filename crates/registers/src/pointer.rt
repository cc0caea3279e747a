//! A node's pointer in two bytes.

ghost use Rattle.std.specs.Prelude.{◌≡◌, is_none};
ghost use Rattle.rule_machine.specs.State.{is_at};

use rule_machine::Node;
use std::marker::Model;

/// A pointer: a node, or null. Contracts see an optional name. Takes two bytes; `Option<Node>` takes four.
#[derive(Clone, Copy)]
pub struct Pointer {
    // 0 for null.
    name: u16,
}

impl Model for Pointer {
    ghost use Rattle.std.specs.Prelude.{ℕ, Option};
    ghost use Rattle.registers.specs.Pointers.{target_named, stored_name, stored_name_of_target};

    ghost Value = { Option ℕ };

    ghost view = { λ p. target_named p.name };

    ghost inverse = { λ target. record { name = stored_name target } };

    ghost inverse_ok = { λ p _ i. record { name = stored_name_of_target p.name i } };
}

impl Pointer {
    /// The pointer at a node; `None` for null.
    #[inline(always)]
    pub fn new(target: Option<Node>) -> Pointer
        ensures { result ≡ target }
    {
        let name = match target {
            Some(w) => w.name() as u16,
            None => 0,
        };
        Pointer { name }
    }

    /// The pointer's target; `None` for null.
    #[inline(always)]
    pub fn target(self) -> Option<Node>
        ensures { result ≡ self }
    {
        Node::new(u32::from(self.name))
    }

    /// Whether the pointer is null.
    #[inline(always)]
    pub fn is_null(self) -> bool
        ensures { result ≡ is_none self }
    {
        self.name == 0
    }

    /// Whether the pointer is at `w`.
    #[inline(always)]
    pub fn is_at(self, w: Node) -> bool
        ensures { result ≡ is_at self w }
    {
        u32::from(self.name) == w.name()
    }
}
