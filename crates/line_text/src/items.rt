//! The items of a step.

ghost use Rattle.std.specs.Prelude.{◌≡◌, ℕ, List, IfOk, IfSome, OnErr, MatchOption};
ghost use Rattle.rule_machine.specs.declared.choice.Item.{Item};
ghost use Rattle.line_text.specs.Words.{spaced};
ghost use Rattle.line_text.specs.EventText.{AreChoiceItems, item_text};
ghost use Rattle.line_text.specs.Parsing.{ParsesAs, ItemThen, SpellsChoice, HasItems};

use crate::front::{after, read_name};
use rule_machine::{Choice, Item, MAX_ITEMS, Want};
use std::alloc::{AllocError, Global};

/// The most bytes of an item without a wish.
/// Room is made for items of this width, and grows if the items are shorter.
const WIDTH: usize = 6;

fn read_item(bytes: &[u8]) -> Option<(Item, &[u8])>
    ensures { MatchOption result
        ((item : Item) (rest : List ℕ) → ItemThen bytes.now item rest → ⊥)
        (λ found. ItemThen bytes.now found.0 found.1.now) }
{
    let Some(word) = after(bytes, b" ") else {
        return None;
    };
    let Some((node, rest)) = read_name(word) else {
        return None;
    };
    let Some(marked) = after(rest, b">") else {
        return Some((Item { node, wish: None }, rest));
    };
    let Some((wish, rest)) = read_name(marked) else {
        return None;
    };
    Some((
        Item {
            node,
            wish: Some(wish),
        },
        rest,
    ))
}

// Counts the items, each after one space; `None` if the text is not the items of a choice.
fn count_items(bytes: &[u8]) -> Option<usize>
    ensures { MatchOption result
        (SpellsChoice bytes.now → ⊥)
        (λ count. HasItems bytes.now count) }
{
    let mut count = 0;
    let mut rest = bytes;
    while !rest.is_empty() {
        let Some((_, behind)) = read_item(rest) else {
            return None;
        };
        if count == MAX_ITEMS {
            return None;
        }
        count += 1;
        rest = behind;
    }
    Some(count)
}

// The result if memory runs out: no error if the text is no choice.
fn read_none(bytes: &[u8]) -> Result<Option<Choice>, Want>
    ensures items { IfOk result (ParsesAs AreChoiceItems (spaced item_text) bytes.now) }
    ensures memory { OnErr result (SpellsChoice bytes.now) }
{
    match count_items(bytes) {
        Some(_) => Err(AllocError),
        None => Ok(None),
    }
}

fn read_one(bytes: &[u8]) -> Option<Choice>
    ensures { IfSome result (λ choice. AreChoiceItems choice × (bytes.now ≡ spaced item_text choice)) }
{
    match read_item(bytes) {
        Some((item, [])) => Some(Choice::one(item)),
        _ => None,
    }
}

/// Reads items, each after one space; `None` for any other text, or if there are more than 65,535.
/// Takes memory only for two or more items. If the text is no choice, a lack of memory is no error.
/// Each item but the first is read once.
pub(crate) fn read_items(alloc: Global, bytes: &[u8]) -> Result<Option<Choice>, Want>
    ensures items { IfOk result (ParsesAs AreChoiceItems (spaced item_text) bytes.now) }
    ensures memory { OnErr result (SpellsChoice bytes.now) }
{
    if let Some(choice) = read_one(bytes) {
        return Ok(Some(choice));
    }
    let Ok(mut items) = Vec::with_capacity(alloc, bytes.len().div_ceil(WIDTH)) else {
        return read_none(bytes);
    };
    let mut rest = bytes;
    while !rest.is_empty() {
        let Some((item, behind)) = read_item(rest) else {
            return Ok(None);
        };
        let Ok(()) = items.push(item) else {
            return read_none(bytes);
        };
        rest = behind;
    }
    Ok(Choice::new(items))
}
