//! Lists that contracts compare by their items.

ghost use Rattle.std.specs.Prelude.{◌≡◌, [], ◌∷◌, IfOk};
ghost use Rattle.std.specs.Cmp.Lexicographic.{pointwise, lists_per, lists_equiv};

use std::alloc::AllocError;
use std::marker::Model;

#[derive(Debug, Drop)]
enum ListingItems<T> {
    One([T; 1]),
    Many(Vec<T>),
}

/// A list. Contracts see only its items.
#[derive(Debug, Drop)]
pub struct Listing<T> {
    held: ListingItems<T>,
}

impl<T> Model for Listing<T> {
    ghost use Rattle.std.specs.Prelude.{List};
    ghost use Rattle.std.specs.Coded.{coded_list};
    ghost use Rattle.rule_machine.specs.ListingItems.{listed};

    ghost Value = { List T };

    ghost coded = { coded_list T.code };

    ghost view = { λ l. listed l.held };
}

impl<T> Listing<T> {
    /// The listing of one item. Takes no memory.
    pub fn one(item: T) -> Listing<T>
        ensures { result ≡ item ∷ [] }
    {
        Listing {
            held: ListingItems::One([item]),
        }
    }

    /// The listing of a vector's items. Takes no further memory.
    pub fn from_vec(items: Vec<T>) -> Listing<T>
        ensures { result ≡ items.items }
    {
        Listing {
            held: ListingItems::Many(items),
        }
    }

    /// The items in their order.
    pub fn as_slice(&self) -> &[T]
        ensures { result.now ≡ self.now }
    {
        match &self.held {
            ListingItems::One(items) => items,
            ListingItems::Many(items) => items,
        }
    }
}

impl<T: Copy> Clone for Listing<T> {
    ghost is_clone = { λ a b. b ≡ a };

    fn clone(&self) -> Result<Listing<T>, AllocError> {
        match &self.held {
            ListingItems::One([item]) => Ok(Listing::one(*item)),
            ListingItems::Many(items) => Ok(Listing::from_vec(copied(items)?)),
        }
    }
}

fn copied<T: Copy>(items: &Vec<T>) -> Result<Vec<T>, AllocError>
    ensures { IfOk result (λ copy. copy.items ≡ items.now.items) }
{
    let mut copy = Vec::with_capacity(items.allocator().clone()?, items.len())?;
    copy.extend_from_slice(items)?;
    Ok(copy)
}

impl<T: PartialEq> PartialEq for Listing<T> {
    ghost eq = { λ a b. pointwise T.eq a b };

    ghost laws = { lists_per T.laws };

    fn eq(&self, other: &Listing<T>) -> bool {
        self.as_slice() == other.as_slice()
    }
}

impl<T: Eq> Eq for Listing<T> {
    ghost laws = { lists_equiv T.Eq.laws };
}
