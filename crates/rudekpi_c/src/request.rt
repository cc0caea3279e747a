//! Commands made from C's numbers.

ghost use Rattle.std.specs.Prelude.{◌≡◌, ◌↔◌, SomeIff, IfSome, IfOk, IsTrue, map, [], ◌∷◌};
ghost use Rattle.std.specs.List.{AllByRecursion};
ghost use Rattle.rule_machine.specs.declared.event.Event.TheVariants.{Link, Unlink, Point, Flag, Join, Leave, Show};
ghost use Rattle.line_text.specs.Words.{IsName};
ghost use Rattle.line_text.specs.EventText.{IsItem};
ghost use Rattle.script_text.specs.declared.command.Command.TheVariants.{Tell, Drive, Scramble};
ghost use Rattle.script_text.specs.Command.{IsCommand, IsTurns};
ghost use Rattle.rudekpi_c.specs.CommandCalls.{IsAsked, optional_name, item_named, step_named};

use rule_machine::{Choice, Event, Item, MAX_ITEMS, Node, Want};
use script_text::{Command, MAX_TURNS, Turns};
use std::alloc::Global;

/// An item of a step: a node, and its pointer's new target, or 0 for any that its rule allows.
#[repr(C)]
#[derive(Clone, Copy)]
pub struct StepItem {
    pub node: u32,
    pub wish: u32,
}

pub(crate) fn link(a: u32, b: u32) -> Option<Command>
    ensures { SomeIff result (IsCommand (Tell (Link a b))) (Tell (Link a b)) }
{
    Some(Command::Tell(Event::Link(Node::new(a)?, Node::new(b)?)))
}

pub(crate) fn unlink(a: u32, b: u32) -> Option<Command>
    ensures { SomeIff result (IsCommand (Tell (Unlink a b))) (Tell (Unlink a b)) }
{
    Some(Command::Tell(Event::Unlink(Node::new(a)?, Node::new(b)?)))
}

pub(crate) fn join(v: u32) -> Option<Command>
    ensures { SomeIff result (IsCommand (Tell (Join v))) (Tell (Join v)) }
{
    Some(Command::Tell(Event::Join(Node::new(v)?)))
}

pub(crate) fn leave(v: u32) -> Option<Command>
    ensures { SomeIff result (IsCommand (Tell (Leave v))) (Tell (Leave v)) }
{
    Some(Command::Tell(Event::Leave(Node::new(v)?)))
}

pub(crate) fn show(v: u32) -> Option<Command>
    ensures { SomeIff result (IsCommand (Tell (Show v))) (Tell (Show v)) }
{
    Some(Command::Tell(Event::Show(Node::new(v)?)))
}

pub(crate) fn flag(v: u32, value: bool) -> Option<Command>
    ensures { SomeIff result (IsCommand (Tell (Flag v value))) (Tell (Flag v value)) }
{
    Some(Command::Tell(Event::Flag(Node::new(v)?, value)))
}

/// The node with this name, or null for 0; `None` if no node can have the name.
fn target(number: u32) -> Option<Option<Node>>
    ensures { SomeIff result (IfSome (optional_name number) IsName) (optional_name number) }
{
    if number == 0 {
        return Some(None);
    }
    Some(Some(Node::new(number)?))
}

pub(crate) fn point(v: u32, w: u32) -> Option<Command>
    ensures { SomeIff result (IsCommand (Tell (Point v (optional_name w)))) (Tell (Point v (optional_name w))) }
{
    Some(Command::Tell(Event::Point(Node::new(v)?, target(w)?)))
}

fn item(chosen: StepItem) -> Option<Item>
    ensures { SomeIff result (IsItem (item_named chosen)) (item_named chosen) }
{
    Some(Item {
        node: Node::new(chosen.node)?,
        wish: target(chosen.wish)?,
    })
}

fn are_items(chosen: &[StepItem]) -> bool
    ensures { IsTrue result ↔ AllByRecursion IsItem (map item_named chosen.now) }
{
    for one in chosen {
        if item(*one).is_none() {
            return false;
        }
    }
    true
}

fn items(alloc: Global, chosen: &[StepItem]) -> Result<Vec<Item>, Want>
    requires { AllByRecursion IsItem (map item_named chosen.now) }
    ensures { IfOk result (λ items. items.items ≡ map item_named chosen.now) }
{
    let mut items = Vec::with_capacity(alloc, chosen.len())?;
    for one in chosen {
        let Some(Item { node, wish }) = item(*one) else {
            continue;
        };
        items.push(Item { node, wish }).unwrap();
    }
    Ok(items)
}

fn step_one(chosen: StepItem) -> Option<Command>
    ensures { SomeIff result (IsCommand (Tell (step_named (chosen ∷ [])))) (Tell (step_named (chosen ∷ []))) }
{
    Some(Command::Tell(Event::Step(Choice::one(item(chosen)?))))
}

fn step_all(alloc: Global, chosen: &[StepItem]) -> Result<Option<Command>, Want>
    ensures { IsAsked result (Tell (step_named chosen.now)) }
{
    if chosen.len() > MAX_ITEMS || !are_items(chosen) {
        return Ok(None);
    }
    match Choice::new(items(alloc, chosen)?) {
        Some(choice) => Ok(Some(Command::Tell(Event::Step(choice)))),
        None => Ok(None),
    }
}

/// The command `step`. Only two or more items take memory.
pub(crate) fn step(alloc: Global, chosen: &[StepItem]) -> Result<Option<Command>, Want>
    ensures { IsAsked result (Tell (step_named chosen.now)) }
{
    match chosen {
        [one] => Ok(step_one(*one)),
        _ => step_all(alloc, chosen),
    }
}

fn turns(seed: u64, count: u32) -> Option<Turns>
    ensures { SomeIff result (IsTurns (record { seed = seed; count = count })) (record { seed = seed; count = count }) }
{
    if count > MAX_TURNS {
        return None;
    }
    Some(Turns { seed, count })
}

pub(crate) fn drive(seed: u64, count: u32) -> Option<Command>
    ensures { SomeIff result (IsCommand (Drive (record { seed = seed; count = count }))) (Drive (record { seed = seed; count = count })) }
{
    Some(Command::Drive(turns(seed, count)?))
}

pub(crate) fn scramble(seed: u64, count: u32) -> Option<Command>
    ensures { SomeIff result (IsCommand (Scramble (record { seed = seed; count = count }))) (Scramble (record { seed = seed; count = count })) }
{
    Some(Command::Scramble(turns(seed, count)?))
}
