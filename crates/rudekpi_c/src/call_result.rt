//! The answer to a command, for C, and the rows of the last answer.

ghost use Rattle.std.specs.Prelude.{◌≡◌, ◌≤◌, ◌<◌, ◌++◌, length, drop, map};
ghost use Rattle.rudekpi_c.specs.SessionQuestions.{ArePut, rows_kept};
ghost use Rattle.rudekpi_c.specs.declared.call_result.Row.{Row};
ghost use Rattle.rudekpi_c.specs.ReplyNumbers.{move_row, enabled_row, pair_row, rule_number, told_of, untold, number_of, rows_of};

use crate::slot::{Slot, look};
use crate::status::some_or;
use rule_machine::{Act, Edge, Moved, Node, Reply};
use std::alloc::Global;
use step_log::Answer;

/// An answer: the entry's number, the refusal, the pointer asked for, and how many rows there are.
///
/// A field is 0 if the answer has nothing for it.
#[repr(C)]
#[derive(Clone, Copy, Default)]
pub struct CallResult {
    pub entry: u32,
    pub refusal: u32,
    pub target: u32,
    pub rows: usize,
}

impl CallResult {
    pub(crate) fn nothing() -> CallResult
        ensures { result ≡ untold }
    {
        CallResult::default()
    }

    pub(crate) fn of(answer: &Answer) -> CallResult
        ensures { result ≡ told_of answer.now.seq answer.now.reply }
    {
        let entry = CallResult {
            entry: answer.seq,
            ..CallResult::nothing()
        };
        match &answer.reply {
            Reply::Refused(refusal) => CallResult {
                refusal: refusal.number(),
                ..entry
            },
            Reply::Shown(target) => CallResult {
                target: number_told(*target),
                ..entry
            },
            reply => CallResult {
                rows: write_rows(&mut [], reply),
                ..entry
            },
        }
    }
}

/// A node's name, or 0 for none.
pub(crate) fn number_told(node: Option<Node>) -> u32
    ensures { result ≡ number_of node }
{
    match node {
        Some(node) => node.name(),
        None => 0,
    }
}

/// One row of an answer.
///
/// | Row | `node` | `rule` | `other` |
/// |---|---|---|---|
/// | a move | the node | its rule | its new target, or 0 |
/// | an enabled node | the node | its rule | 0 |
/// | a pair | the lower end | 0 | the higher end |
#[repr(C)]
#[derive(Clone, Copy)]
pub struct Row {
    pub node: u32,
    pub rule: u32,
    pub other: u32,
}

/// A value that is a row of an answer.
pub(crate) trait AsRow: Copy {
    /// The row.
    ghost shown: { Self → Row };

    fn row(self) -> Row
        ensures { result ≡ shown self };
}

impl AsRow for Moved {
    ghost shown = { move_row };

    fn row(self) -> Row {
        Row {
            node: self.node.name(),
            rule: rule_told(self.act),
            other: number_told(self.target),
        }
    }
}

impl AsRow for (Node, Act) {
    ghost shown = { enabled_row };

    fn row(self) -> Row {
        Row {
            node: self.0.name(),
            rule: rule_told(self.1),
            other: 0,
        }
    }
}

impl AsRow for Edge {
    ghost shown = { pair_row };

    fn row(self) -> Row {
        Row {
            node: self.low().name(),
            rule: 0,
            other: self.high().name(),
        }
    }
}

pub(crate) fn rule_told(act: Act) -> u32
    ensures { result ≡ rule_number act }
{
    match act {
        Act::Update => 1,
        Act::Marry => 2,
        Act::Seduce => 3,
        Act::Abandon => 4,
    }
}

/// Copies the rows if all fit; returns how many there are.
pub(crate) fn put_rows<T: AsRow>(out: &mut [Row], items: &[T]) -> usize
    ensures count { result ≡ length (map T.shown items.now) }
    ensures put { ArePut (map T.shown items.now) out.old out.new }
{
    if items.len() > out.len() {
        return items.len();
    }
    for at in 0..items.len() {
        out[at] = items[at].row();
    }
    items.len()
}

/// Copies the reply's rows if all fit; returns how many there are.
pub(crate) fn write_rows(out: &mut [Row], reply: &Reply) -> usize
    ensures count { result ≡ length (rows_of reply.now) }
    ensures put { ArePut (rows_of reply.now) out.old out.new }
{
    match reply {
        Reply::Moves(moves) => put_rows(out, moves.as_slice()),
        Reply::EnabledAre(nodes) => put_rows(out, nodes.as_slice()),
        Reply::Pairs(pairs) => put_rows(out, pairs.as_slice()),
        _ => 0,
    }
}

/// Copies the last answer's rows to the start of `out`, if all fit; returns how many rows there are.
#[unsafe(no_mangle)]
pub extern "C" fn rudekpi_rows(alloc: Global, slot: &mut Slot, out: &mut [Row]) -> usize
    ensures count { result ≡ length (rows_kept slot.old.handle.value) }
    ensures all { result ≤ length out.old → out.new ≡ rows_kept slot.old.handle.value ++ drop result out.old }
    ensures none { length out.old < result → out.new ≡ out.old }
    ensures kept { slot.new.handle.value ≡ slot.old.handle.value }
{
    look!(alloc, slot, 0, session => write_rows(out, &session.answer.reply))
}
