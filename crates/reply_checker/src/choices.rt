//! The items of the step that is judged, stored by node, each with its node's rule.

ghost use Rattle.std.specs.Prelude.{◌≡◌, ◌+◌, ◌<◌, ◌≤◌, ℕ, IfOk, None, Some, cond, is_none, length, replicate, slice_set};
ghost use Rattle.std.specs.List.{list_all};
ghost use Rattle.reply_checker.specs.Choices.{ruled_at, is_item_node, is_mover};

use rule_machine::{Act, Item, Moved, Node, Want};
use std::alloc::Global;
use std::marker::Model;

#[derive(Clone, Copy)]
pub(crate) struct RuledItem {
    pub(crate) item: Item,
    pub(crate) act: Act,
}

/// The items of a choice, one entry for each name; contracts see the list, whose entry 0 is unused.
#[derive(Drop)]
pub(crate) struct ChosenItems {
    items: Vec<Option<RuledItem>>,
}

impl Model for ChosenItems {
    ghost use Rattle.std.specs.Prelude.{List, Option};
    ghost use Rattle.reply_checker.specs.declared.choices.RuledItem.{RuledItem};

    ghost Value = { List (Option RuledItem) };

    ghost view = { λ c. c.items.items };
}

impl ChosenItems {
    pub(crate) fn new(alloc: Global, nodes: u32) -> Result<ChosenItems, Want>
        requires { nodes ≤ 65535 }
        ensures { IfOk result (λ chosen. chosen ≡ replicate (nodes + 1) None) }
    {
        let items = empty_places(alloc, nodes as usize + 1)?;
        Ok(ChosenItems { items })
    }

    pub(crate) fn get(&self, v: Node) -> Option<RuledItem>
        ensures { result ≡ ruled_at self.now v }
    {
        if v.place() < self.items.len() {
            self.items[v.place()]
        } else {
            None
        }
    }

    pub(crate) fn put(&mut self, item: Item, act: Act)
        requires { item.node < length self.old }
        ensures { self.new ≡ slice_set self.old item.node (Some (record { item = item; act = act })) }
    {
        let place = item.node.place();
        self.items[place] = Some(RuledItem { item, act });
    }

    fn take_out(&mut self, v: Node)
        ensures { self.new ≡ slice_set self.old v None }
    {
        if v.place() < self.items.len() {
            self.items[v.place()] = None;
        }
    }

    pub(crate) fn clear(&mut self, items: &[Item])
        ensures len { length self.new ≡ length self.old }
        ensures out { (v : ℕ) → ruled_at self.new v ≡ cond (is_item_node items.now v) None (ruled_at self.old v) }
    {
        for item in items {
            self.take_out(item.node);
        }
    }

    pub(crate) fn take_movers(&mut self, moves: &[Moved])
        ensures len { length self.new ≡ length self.old }
        ensures out { (v : ℕ) → ruled_at self.new v ≡ cond (is_mover moves.now v) None (ruled_at self.old v) }
    {
        for made in moves {
            self.take_out(made.node);
        }
    }

    pub(crate) fn has_none(&self, items: &[Item]) -> bool
        ensures { result ≡ list_all (λ i. is_none (ruled_at self.now i.node)) items.now }
    {
        for item in items {
            if self.get(item.node).is_some() {
                return false;
            }
        }
        true
    }
}

fn empty_places(alloc: Global, places: usize) -> Result<Vec<Option<RuledItem>>, Want>
    requires { places ≤ 65536 }
    ensures { IfOk result (λ items. items.items ≡ replicate places None) }
{
    let nobody: Option<Node> = None;
    let no_item = match nobody {
        Some(node) => Some(RuledItem {
            item: Item { node, wish: None },
            act: Act::Update,
        }),
        None => None,
    };
    vec![in alloc; no_item; places]
}
