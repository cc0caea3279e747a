//! Cost and reach of edits and faults that C has not made yet, and the moves left. Asking makes no entry.

ghost use Rattle.std.specs.Prelude.{◌≡◌, ◌↔◌, IfOk, IfSome, IsSome, SomeIff};
ghost use Rattle.rule_machine.specs.Tables.{table_of};
ghost use Rattle.rule_machine.specs.declared.event.Event.{Event};
ghost use Rattle.rule_machine.specs.declared.event.Event.TheVariants.{Link, Unlink, Point, Flag, Join, Leave};
ghost use Rattle.move_bounds.specs.FromSilence.{BoundsMovesAfter};
ghost use Rattle.move_bounds.specs.MovesLeft.{BoundsMoves};
ghost use Rattle.rule_engine.specs.Costs.{BoundsGrowth};
ghost use Rattle.script_text.specs.declared.command.Command.TheVariants.{Tell};
ghost use Rattle.script_text.specs.Command.{IsCommand};
ghost use Rattle.rudekpi_c.specs.CommandCalls.{optional_name};
ghost use Rattle.rudekpi_c.specs.CostCalls.{cost_at, left_at, silent_cost_at, IsSilentAt, AnswersCost, AnswersMovesLeft, AnswersSilentCost};
ghost use Rattle.rudekpi_c.specs.ReachCalls.{reach_at, AnswersReach};
ghost use Rattle.rudekpi_c.specs.Session.{stands, rules_of};

use crate::node_view::put_names;
use crate::request;
use crate::session::{Machine, Session, with_run};
use crate::slot::{Slot, look};
use crate::status::{BAD_ARGUMENT, DONE, MEMORY, NO_SESSION, NOT_SILENT, ok_or, some_or};
use rule_machine::{Event, Node, Want};
use script_text::Command;
use std::alloc::Global;

impl Session {
    fn cost_of(&self, event: &Event) -> u32
        ensures cost { result ≡ cost_at self.now event.now }
        ensures grows { BoundsGrowth (table_of (rules_of self.now)) (stands self.now).moment.state (stands self.now).moment.spent event.now result }
    {
        with_run!(&self.machine, run => run.recorder.net().cost_of(event))
    }

    fn moves_left(&mut self) -> u32
        ensures value { result ≡ left_at self.old }
        ensures promise { BoundsMoves (table_of (rules_of self.old)) (stands self.old).moment.state (stands self.old).moment.spent result }
        ensures kept { self.new ≡ self.old }
    {
        with_run!(&mut self.machine, run => run.recorder.moves_left())
    }

    /// The cost of an event in a silent network, or `None` if a rule is enabled.
    pub(crate) fn silent_cost_of(&self, event: &Event) -> Option<u32>
        ensures silent { IsSome result ↔ IsSilentAt self.now }
        ensures cost { IfSome result (λ most. most ≡ silent_cost_at self.now event.now) }
        ensures pays { IfSome result (λ most. BoundsMovesAfter (table_of (rules_of self.now)) (stands self.now).moment.state (stands self.now).moment.spent event.now most) }
    {
        with_run!(&self.machine, run => run.recorder.net().silent_cost_of(event))
    }

    fn reach_of(&self, event: &Event) -> Result<Vec<Node>, Want>
        ensures { IfOk result (λ list. list.items ≡ reach_at self.now event.now) }
    {
        with_run!(&self.machine, run => run.recorder.net().reach_of(event))
    }
}

// Returns 5 if there is no event: a number is out of range.
fn cost_of(alloc: Global, slot: &mut Slot, command: Option<Command>, cost: &mut u32) -> u32
    ensures costed { (event : Event) → SomeIff command (IsCommand (Tell event)) (Tell event) → AnswersCost event result cost.new slot.old.handle.value }
    ensures kept { slot.new.handle.value ≡ slot.old.handle.value }
{
    *cost = 0;
    let Some(Command::Tell(event)) = command else {
        return BAD_ARGUMENT;
    };
    *cost = look!(alloc, slot, NO_SESSION, session => session.cost_of(&event));
    DONE
}

/// Writes the cost of linking two nodes, in moves: linking them raises the charge by at most the cost.
///
/// The cost is 0 if the edge would be refused. Returns 4 if there is no session, and 5 if a name is 0 or
/// above 65,535. The other cost calls return the same statuses.
#[unsafe(no_mangle)]
pub extern "C" fn rudekpi_cost_of_link(
    alloc: Global,
    slot: &mut Slot,
    a: u32,
    b: u32,
    cost: &mut u32,
) -> u32
    ensures costed { AnswersCost (Link a b) result cost.new slot.old.handle.value }
    ensures kept { slot.new.handle.value ≡ slot.old.handle.value }
{
    cost_of(alloc, slot, request::link(a, b), cost)
}

/// Writes the cost of unlinking two nodes.
#[unsafe(no_mangle)]
pub extern "C" fn rudekpi_cost_of_unlink(
    alloc: Global,
    slot: &mut Slot,
    a: u32,
    b: u32,
    cost: &mut u32,
) -> u32
    ensures costed { AnswersCost (Unlink a b) result cost.new slot.old.handle.value }
    ensures kept { slot.new.handle.value ≡ slot.old.handle.value }
{
    cost_of(alloc, slot, request::unlink(a, b), cost)
}

/// Writes the cost of a node's joining.
#[unsafe(no_mangle)]
pub extern "C" fn rudekpi_cost_of_join(
    alloc: Global,
    slot: &mut Slot,
    node: u32,
    cost: &mut u32,
) -> u32
    ensures costed { AnswersCost (Join node) result cost.new slot.old.handle.value }
    ensures kept { slot.new.handle.value ≡ slot.old.handle.value }
{
    cost_of(alloc, slot, request::join(node), cost)
}

/// Writes the cost of a node's leaving.
#[unsafe(no_mangle)]
pub extern "C" fn rudekpi_cost_of_leave(
    alloc: Global,
    slot: &mut Slot,
    node: u32,
    cost: &mut u32,
) -> u32
    ensures costed { AnswersCost (Leave node) result cost.new slot.old.handle.value }
    ensures kept { slot.new.handle.value ≡ slot.old.handle.value }
{
    cost_of(alloc, slot, request::leave(node), cost)
}

/// Writes the cost of writing a node's pointer; the target 0 is null.
#[unsafe(no_mangle)]
pub extern "C" fn rudekpi_cost_of_point(
    alloc: Global,
    slot: &mut Slot,
    node: u32,
    target: u32,
    cost: &mut u32,
) -> u32
    ensures costed { AnswersCost (Point node (optional_name target)) result cost.new slot.old.handle.value }
    ensures kept { slot.new.handle.value ≡ slot.old.handle.value }
{
    cost_of(alloc, slot, request::point(node, target), cost)
}

/// Writes the cost of writing a node's flag.
#[unsafe(no_mangle)]
pub extern "C" fn rudekpi_cost_of_flag(
    alloc: Global,
    slot: &mut Slot,
    node: u32,
    value: bool,
    cost: &mut u32,
) -> u32
    ensures costed { AnswersCost (Flag node value) result cost.new slot.old.handle.value }
    ensures kept { slot.new.handle.value ≡ slot.old.handle.value }
{
    cost_of(alloc, slot, request::flag(node, value), cost)
}

fn silent_cost(alloc: Global, slot: &mut Slot, command: Option<Command>, cost: &mut u32) -> u32
    ensures answers { (event : Event) → SomeIff command (IsCommand (Tell event)) (Tell event) → AnswersSilentCost event result cost.new slot.old.handle.value }
    ensures kept { slot.new.handle.value ≡ slot.old.handle.value }
{
    *cost = 0;
    let Some(Command::Tell(event)) = command else {
        return BAD_ARGUMENT;
    };
    let found = look!(alloc, slot, NO_SESSION, session => session.silent_cost_of(&event));
    *cost = some_or!(found, NOT_SILENT);
    DONE
}

/// Writes the cost of linking two nodes of a silent network, in moves.
///
/// At most this many moves come until the network is silent again. The cost is 0 if the edge would be
/// refused. Returns 4 if there is no session, 5 if a name is 0 or above 65,535, and 8 if a rule is enabled.
/// The other silent cost calls return the same statuses.
#[unsafe(no_mangle)]
pub extern "C" fn rudekpi_silent_cost_of_link(
    alloc: Global,
    slot: &mut Slot,
    a: u32,
    b: u32,
    cost: &mut u32,
) -> u32
    ensures answers { AnswersSilentCost (Link a b) result cost.new slot.old.handle.value }
    ensures kept { slot.new.handle.value ≡ slot.old.handle.value }
{
    silent_cost(alloc, slot, request::link(a, b), cost)
}

/// Writes the cost of unlinking two nodes of a silent network.
#[unsafe(no_mangle)]
pub extern "C" fn rudekpi_silent_cost_of_unlink(
    alloc: Global,
    slot: &mut Slot,
    a: u32,
    b: u32,
    cost: &mut u32,
) -> u32
    ensures answers { AnswersSilentCost (Unlink a b) result cost.new slot.old.handle.value }
    ensures kept { slot.new.handle.value ≡ slot.old.handle.value }
{
    silent_cost(alloc, slot, request::unlink(a, b), cost)
}

/// Writes the cost of a node's joining a silent network.
#[unsafe(no_mangle)]
pub extern "C" fn rudekpi_silent_cost_of_join(
    alloc: Global,
    slot: &mut Slot,
    node: u32,
    cost: &mut u32,
) -> u32
    ensures answers { AnswersSilentCost (Join node) result cost.new slot.old.handle.value }
    ensures kept { slot.new.handle.value ≡ slot.old.handle.value }
{
    silent_cost(alloc, slot, request::join(node), cost)
}

/// Writes the cost of a node's leaving a silent network.
#[unsafe(no_mangle)]
pub extern "C" fn rudekpi_silent_cost_of_leave(
    alloc: Global,
    slot: &mut Slot,
    node: u32,
    cost: &mut u32,
) -> u32
    ensures answers { AnswersSilentCost (Leave node) result cost.new slot.old.handle.value }
    ensures kept { slot.new.handle.value ≡ slot.old.handle.value }
{
    silent_cost(alloc, slot, request::leave(node), cost)
}

/// Writes the cost of writing a node's pointer in a silent network; the target 0 is null.
#[unsafe(no_mangle)]
pub extern "C" fn rudekpi_silent_cost_of_point(
    alloc: Global,
    slot: &mut Slot,
    node: u32,
    target: u32,
    cost: &mut u32,
) -> u32
    ensures answers { AnswersSilentCost (Point node (optional_name target)) result cost.new slot.old.handle.value }
    ensures kept { slot.new.handle.value ≡ slot.old.handle.value }
{
    silent_cost(alloc, slot, request::point(node, target), cost)
}

/// Writes the cost of writing a node's flag in a silent network.
#[unsafe(no_mangle)]
pub extern "C" fn rudekpi_silent_cost_of_flag(
    alloc: Global,
    slot: &mut Slot,
    node: u32,
    value: bool,
    cost: &mut u32,
) -> u32
    ensures answers { AnswersSilentCost (Flag node value) result cost.new slot.old.handle.value }
    ensures kept { slot.new.handle.value ≡ slot.old.handle.value }
{
    silent_cost(alloc, slot, request::flag(node, value), cost)
}

/// Writes a bound on the moves that can still come before the next accepted edit or fault: 0 in silence.
///
/// Returns 4 if there is no session.
#[unsafe(no_mangle)]
pub extern "C" fn rudekpi_moves_left(alloc: Global, slot: &mut Slot, moves: &mut u32) -> u32
    ensures left { AnswersMovesLeft result moves.new slot.old.handle.value }
    ensures kept { slot.new.handle.value ≡ slot.old.handle.value }
{
    *moves = 0;
    *moves = look!(alloc, slot, NO_SESSION, session => session.moves_left());
    DONE
}

fn reach_of(
    alloc: Global,
    slot: &mut Slot,
    command: Option<Command>,
    out: &mut [u32],
    count: &mut usize,
) -> u32
    ensures reached { (event : Event) → SomeIff command (IsCommand (Tell event)) (Tell event) → AnswersReach event result count.new out.old out.new slot.old.handle.value }
    ensures kept { slot.new.handle.value ≡ slot.old.handle.value }
{
    *count = 0;
    let Some(Command::Tell(event)) = command else {
        return BAD_ARGUMENT;
    };
    let reach = look!(alloc, slot, NO_SESSION, session => session.reach_of(&event));
    let nodes = ok_or!(reach, MEMORY);
    *count = put_names(out, &nodes);
    DONE
}

/// Copies the names of the nodes that a new edge would reach, ascending, to the start of `out`.
///
/// The names are copied only if all fit. `count` becomes the number of these nodes, 0 if the edge would be
/// refused. Returns 3 if memory runs out, 4 if there is no session, and 5 if a name is 0 or above 65,535. The
/// other calls return the same statuses.
#[unsafe(no_mangle)]
pub extern "C" fn rudekpi_reach_of_link(
    alloc: Global,
    slot: &mut Slot,
    a: u32,
    b: u32,
    out: &mut [u32],
    count: &mut usize,
) -> u32
    ensures reached { AnswersReach (Link a b) result count.new out.old out.new slot.old.handle.value }
    ensures kept { slot.new.handle.value ≡ slot.old.handle.value }
{
    reach_of(alloc, slot, request::link(a, b), out, count)
}

/// Like `rudekpi_reach_of_link`, for the removal of an edge.
#[unsafe(no_mangle)]
pub extern "C" fn rudekpi_reach_of_unlink(
    alloc: Global,
    slot: &mut Slot,
    a: u32,
    b: u32,
    out: &mut [u32],
    count: &mut usize,
) -> u32
    ensures reached { AnswersReach (Unlink a b) result count.new out.old out.new slot.old.handle.value }
    ensures kept { slot.new.handle.value ≡ slot.old.handle.value }
{
    reach_of(alloc, slot, request::unlink(a, b), out, count)
}

/// Like `rudekpi_reach_of_link`, for a node that joins.
#[unsafe(no_mangle)]
pub extern "C" fn rudekpi_reach_of_join(
    alloc: Global,
    slot: &mut Slot,
    node: u32,
    out: &mut [u32],
    count: &mut usize,
) -> u32
    ensures reached { AnswersReach (Join node) result count.new out.old out.new slot.old.handle.value }
    ensures kept { slot.new.handle.value ≡ slot.old.handle.value }
{
    reach_of(alloc, slot, request::join(node), out, count)
}

/// Like `rudekpi_reach_of_link`, for a node that leaves.
#[unsafe(no_mangle)]
pub extern "C" fn rudekpi_reach_of_leave(
    alloc: Global,
    slot: &mut Slot,
    node: u32,
    out: &mut [u32],
    count: &mut usize,
) -> u32
    ensures reached { AnswersReach (Leave node) result count.new out.old out.new slot.old.handle.value }
    ensures kept { slot.new.handle.value ≡ slot.old.handle.value }
{
    reach_of(alloc, slot, request::leave(node), out, count)
}

/// Like `rudekpi_reach_of_link`, for a write of a pointer; the target 0 is null.
#[unsafe(no_mangle)]
pub extern "C" fn rudekpi_reach_of_point(
    alloc: Global,
    slot: &mut Slot,
    node: u32,
    target: u32,
    out: &mut [u32],
    count: &mut usize,
) -> u32
    ensures reached { AnswersReach (Point node (optional_name target)) result count.new out.old out.new slot.old.handle.value }
    ensures kept { slot.new.handle.value ≡ slot.old.handle.value }
{
    reach_of(alloc, slot, request::point(node, target), out, count)
}

/// Like `rudekpi_reach_of_link`, for a write of a flag.
#[unsafe(no_mangle)]
pub extern "C" fn rudekpi_reach_of_flag(
    alloc: Global,
    slot: &mut Slot,
    node: u32,
    value: bool,
    out: &mut [u32],
    count: &mut usize,
) -> u32
    ensures reached { AnswersReach (Flag node value) result count.new out.old out.new slot.old.handle.value }
    ensures kept { slot.new.handle.value ≡ slot.old.handle.value }
{
    reach_of(alloc, slot, request::flag(node, value), out, count)
}
