//! Choices of daemons.

ghost use Rattle.std.specs.Prelude.{◌≡◌, ◌≤◌, [], ◌∷◌, length, SomeIff};

use crate::{Listing, Node};
use std::alloc::AllocError;
use std::marker::Model;

/// The most items of a choice.
pub const MAX_ITEMS: usize = 65_535;

/// One chosen node and its wished target.
#[derive(Clone, Copy, Debug, PartialEq, Eq)]
pub struct Item {
    /// The node to move.
    pub node: Node,
    /// The target that the daemon wishes for; `None` for any allowed target.
    pub wish: Option<Node>,
}

/// The items of one step, in the order given; at most 65,535.
#[derive(Debug, Drop, PartialEq, Eq)]
pub struct Choice {
    items: Listing<Item>,
}

impl Model for Choice {
    ghost use Rattle.std.specs.Prelude.{List, ◌≤◌, length};
    ghost use Rattle.rule_machine.specs.declared.choice.Item.{Item};

    ghost Value = { List Item };

    ghost view = { λ c. c.items };

    ghost invariant = { λ c. length c.items ≤ 65535 };

    ghost inverse = { λ l. record { items = l } };
}

impl Clone for Choice {
    ghost is_clone = { λ a b. b ≡ a };

    fn clone(&self) -> Result<Choice, AllocError> {
        Ok(Choice {
            items: self.items.clone()?,
        })
    }
}

impl Choice {
    /// The choice with these items; `None` if there are more than 65,535.
    pub fn new(items: Vec<Item>) -> Option<Choice>
        ensures { SomeIff result (length items.items ≤ 65535) items.items }
    {
        if items.len() > MAX_ITEMS {
            return None;
        }
        Some(Choice {
            items: Listing::from_vec(items),
        })
    }

    /// The choice with one item. Takes no memory.
    pub fn one(item: Item) -> Choice
        ensures { result ≡ item ∷ [] }
    {
        let Item { node, wish } = item;
        Choice {
            items: Listing::one(Item { node, wish }),
        }
    }

    /// The items, in the order given.
    pub fn items(&self) -> &[Item]
        ensures items { result.now ≡ self.now }
        ensures few { length self.now ≤ 65535 }
    {
        self.items.as_slice()
    }
}
