//! Commands that C gives as numbers. Each does what its script line does.

ghost use Rattle.std.specs.Prelude.{◌≡◌, SomeIff};
ghost use Rattle.rule_machine.specs.declared.event.Event.{Event};
ghost use Rattle.rule_machine.specs.declared.event.Event.TheVariants.{Link, Unlink, Point, Flag, Join, Leave, Show, Enabled, Matching, Status};
ghost use Rattle.script_text.specs.declared.command.Command.{Command};
ghost use Rattle.script_text.specs.declared.command.Command.TheVariants.{Tell, Drive, Scramble, Checkpoint};
ghost use Rattle.script_text.specs.Command.{IsCommand};
ghost use Rattle.rudekpi_c.specs.CommandCalls.{AnswersCommand, command_status, optional_name, step_named};
ghost use Rattle.rudekpi_c.specs.CountCalls.{AnswersCounts, counted_in, counted_kept};

use crate::call_result::CallResult;
use crate::request::{self, StepItem};
use crate::session::unanswered;
use crate::slot::{Slot, look};
use crate::status::{BAD_ARGUMENT, DONE, LOG_FULL, MEMORY, NO_SESSION, REFUSED, some_or};
use rule_machine::{Event, Reply};
use script_text::Command;
use std::alloc::Global;
use step_log::RecordFault;

/// How many nodes, edges, pairs and enabled nodes there are, the charge, and the moves spent.
///
/// The moves spent are those since the last disturbance.
#[repr(C)]
#[derive(Clone, Copy, Default)]
pub struct StatusCounts {
    pub nodes: u32,
    pub edges: u32,
    pub pairs: u32,
    pub enabled: u32,
    pub charge: u32,
    pub spent: u32,
}

impl StatusCounts {
    fn of(reply: &Reply) -> StatusCounts
        ensures { result ≡ counted_in reply.now }
    {
        match reply {
            Reply::Counts(counts) => StatusCounts {
                nodes: counts.nodes,
                edges: counts.edges,
                pairs: counts.pairs,
                enabled: counts.enabled,
                charge: counts.charge,
                spent: counts.spent,
            },
            _ => StatusCounts::default(),
        }
    }
}

fn counted_of(alloc: Global, slot: &mut Slot) -> StatusCounts
    ensures counted { result ≡ counted_kept slot.old.handle.value }
    ensures kept { slot.new.handle.value ≡ slot.old.handle.value }
{
    look!(alloc, slot, StatusCounts::default(), session => StatusCounts::of(&session.answer.reply))
}

fn status_of(done: Result<(), RecordFault>, reply: &Reply) -> u32
    ensures { result ≡ command_status reply.now done }
{
    match (done, reply) {
        (Ok(()), Reply::Refused(_)) => REFUSED,
        (Ok(()), _) => DONE,
        (Err(RecordFault::LogFull), _) => LOG_FULL,
        (Err(RecordFault::Memory), _) => MEMORY,
    }
}

// Returns 5 if there is no command: a number is out of range.
fn call(alloc: Global, slot: &mut Slot, command: Option<Command>, outcome: &mut CallResult) -> u32
    ensures { (c : Command) → SomeIff command (IsCommand c) c → AnswersCommand c result outcome.new slot.old.handle.value slot.new.handle.value }
{
    *outcome = CallResult::nothing();
    let command = some_or!(command, BAD_ARGUMENT);
    let mut session = some_or!(slot.take(alloc), NO_SESSION);
    let done = session.follow(alloc, &command);
    let status = status_of(done, &session.answer.reply);
    *outcome = CallResult::of(&session.answer);
    slot.put_back(session);
    status
}

// Answers that memory ran out for an event: drops the last answer and returns 3.
fn fail_memory(alloc: Global, slot: &mut Slot, outcome: &mut CallResult) -> u32
    ensures { (event : Event) → IsCommand (Tell event) → AnswersCommand (Tell event) result outcome.new slot.old.handle.value slot.new.handle.value }
{
    *outcome = CallResult::nothing();
    let mut session = some_or!(slot.take(alloc), NO_SESSION);
    session.answer = unanswered(0);
    slot.put_back(session);
    MEMORY
}

/// Adds an edge.
///
/// Returns 6 if the machine refuses the event, 2 if the log is full, 3 if memory runs out, 4 if there is no
/// session, and 5 if a name is 0 or above 65,535. The other calls return the same statuses.
#[unsafe(no_mangle)]
pub extern "C" fn rudekpi_link(
    alloc: Global,
    slot: &mut Slot,
    a: u32,
    b: u32,
    outcome: &mut CallResult,
) -> u32
    ensures { AnswersCommand (Tell (Link a b)) result outcome.new slot.old.handle.value slot.new.handle.value }
{
    call(alloc, slot, request::link(a, b), outcome)
}

/// Removes an edge.
#[unsafe(no_mangle)]
pub extern "C" fn rudekpi_unlink(
    alloc: Global,
    slot: &mut Slot,
    a: u32,
    b: u32,
    outcome: &mut CallResult,
) -> u32
    ensures { AnswersCommand (Tell (Unlink a b)) result outcome.new slot.old.handle.value slot.new.handle.value }
{
    call(alloc, slot, request::unlink(a, b), outcome)
}

/// Makes a name present.
#[unsafe(no_mangle)]
pub extern "C" fn rudekpi_join(
    alloc: Global,
    slot: &mut Slot,
    node: u32,
    outcome: &mut CallResult,
) -> u32
    ensures { AnswersCommand (Tell (Join node)) result outcome.new slot.old.handle.value slot.new.handle.value }
{
    call(alloc, slot, request::join(node), outcome)
}

/// Makes a node absent, and removes its edges.
#[unsafe(no_mangle)]
pub extern "C" fn rudekpi_leave(
    alloc: Global,
    slot: &mut Slot,
    node: u32,
    outcome: &mut CallResult,
) -> u32
    ensures { AnswersCommand (Tell (Leave node)) result outcome.new slot.old.handle.value slot.new.handle.value }
{
    call(alloc, slot, request::leave(node), outcome)
}

/// Writes a node's pointer; 0 is null.
#[unsafe(no_mangle)]
pub extern "C" fn rudekpi_point(
    alloc: Global,
    slot: &mut Slot,
    node: u32,
    target: u32,
    outcome: &mut CallResult,
) -> u32
    ensures { AnswersCommand (Tell (Point node (optional_name target))) result outcome.new slot.old.handle.value slot.new.handle.value }
{
    call(alloc, slot, request::point(node, target), outcome)
}

/// Writes a node's flag.
#[unsafe(no_mangle)]
pub extern "C" fn rudekpi_flag(
    alloc: Global,
    slot: &mut Slot,
    node: u32,
    value: bool,
    outcome: &mut CallResult,
) -> u32
    ensures { AnswersCommand (Tell (Flag node value)) result outcome.new slot.old.handle.value slot.new.handle.value }
{
    call(alloc, slot, request::flag(node, value), outcome)
}

/// Moves the chosen nodes at once; returns 5 also for more than 65,535 items.
#[unsafe(no_mangle)]
pub extern "C" fn rudekpi_step(
    alloc: Global,
    slot: &mut Slot,
    items: &[StepItem],
    outcome: &mut CallResult,
) -> u32
    ensures { AnswersCommand (Tell (step_named items.now)) result outcome.new slot.old.handle.value slot.new.handle.value }
{
    match request::step(alloc, items) {
        Ok(command) => call(alloc, slot, command, outcome),
        Err(_) => fail_memory(alloc, slot, outcome),
    }
}

/// Asks for a node's pointer.
#[unsafe(no_mangle)]
pub extern "C" fn rudekpi_show(
    alloc: Global,
    slot: &mut Slot,
    node: u32,
    outcome: &mut CallResult,
) -> u32
    ensures { AnswersCommand (Tell (Show node)) result outcome.new slot.old.handle.value slot.new.handle.value }
{
    call(alloc, slot, request::show(node), outcome)
}

/// Asks for the enabled nodes.
#[unsafe(no_mangle)]
pub extern "C" fn rudekpi_enabled(alloc: Global, slot: &mut Slot, outcome: &mut CallResult) -> u32
    ensures { AnswersCommand (Tell Enabled) result outcome.new slot.old.handle.value slot.new.handle.value }
{
    call(alloc, slot, Some(Command::Tell(Event::Enabled)), outcome)
}

/// Asks for the matching.
#[unsafe(no_mangle)]
pub extern "C" fn rudekpi_pairs(alloc: Global, slot: &mut Slot, outcome: &mut CallResult) -> u32
    ensures { AnswersCommand (Tell Matching) result outcome.new slot.old.handle.value slot.new.handle.value }
{
    call(alloc, slot, Some(Command::Tell(Event::Matching)), outcome)
}

/// Asks for the counts, which are all 0 if there is no answer.
#[unsafe(no_mangle)]
pub extern "C" fn rudekpi_status(
    alloc: Global,
    slot: &mut Slot,
    counts: &mut StatusCounts,
    outcome: &mut CallResult,
) -> u32
    ensures called { AnswersCommand (Tell Status) result outcome.new slot.old.handle.value slot.new.handle.value }
    ensures counted { AnswersCounts result counts.new slot.old.handle.value }
{
    let status = call(alloc, slot, Some(Command::Tell(Event::Status)), outcome);
    *counts = counted_of(alloc, slot);
    status
}

/// Takes up to `count` steps of a seeded daemon; returns 5 for more than 1,000,000.
#[unsafe(no_mangle)]
pub extern "C" fn rudekpi_drive(
    alloc: Global,
    slot: &mut Slot,
    seed: u64,
    count: u32,
    outcome: &mut CallResult,
) -> u32
    ensures { AnswersCommand (Drive (record { seed = seed; count = count })) result outcome.new slot.old.handle.value slot.new.handle.value }
{
    call(alloc, slot, request::drive(seed, count), outcome)
}

/// Makes up to `count` seeded faults; returns 5 for more than 1,000,000.
#[unsafe(no_mangle)]
pub extern "C" fn rudekpi_scramble(
    alloc: Global,
    slot: &mut Slot,
    seed: u64,
    count: u32,
    outcome: &mut CallResult,
) -> u32
    ensures { AnswersCommand (Scramble (record { seed = seed; count = count })) result outcome.new slot.old.handle.value slot.new.handle.value }
{
    call(alloc, slot, request::scramble(seed, count), outcome)
}

/// Adds the lines of a base.
#[unsafe(no_mangle)]
pub extern "C" fn rudekpi_checkpoint(
    alloc: Global,
    slot: &mut Slot,
    outcome: &mut CallResult,
) -> u32
    ensures { AnswersCommand Checkpoint result outcome.new slot.old.handle.value slot.new.handle.value }
{
    call(alloc, slot, Some(Command::Checkpoint), outcome)
}
