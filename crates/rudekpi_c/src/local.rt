//! The rule of one node: numbers in, numbers out, without a session.

ghost use Rattle.std.specs.Prelude.{◌≡◌, ◌↔◌, ◌≤◌, IsTrue, SomeIff};
ghost use Rattle.std.specs.List.{AllByRecursion};
ghost use Rattle.rudekpi_c.specs.LocalCalls.{AreNames, AnswersLocal, AnswersMayMove, nearest_name, nearest_record, pointer_named, rule_named, rules_given, move_told, fault_told, fault_status, faulty};

use crate::call_result::{number_told, rule_told};
use crate::status::{BAD_ARGUMENT, DONE, NOT_SHOWN, some_or};
use local_rule::{AsRecord, LocalMove, ViewFault, local_rule_of, may_move_of};
use rule_machine::{Act, MAX_NAME, Node, NodeRecord, RuleSet};

/// What a node holds of itself, or of a neighbour; pointer 0 is null.
#[repr(C)]
#[derive(Clone, Copy)]
pub struct RawRecord {
    pub node: u32,
    pub pointer: u32,
    pub flag: bool,
}

/// The node's move; rule 0 if no rule is enabled, 5 for a repair. Or the fault of what the node holds, and at
/// which name.
#[repr(C)]
#[derive(Clone, Copy)]
pub struct LocalAnswer {
    pub rule: u32,
    pub target: u32,
    pub pointer: u32,
    pub flag: bool,
    pub fault: u32,
    pub at: u32,
}

/// The node with this name, or with the nearest one that a node can have.
fn nearest(number: u32) -> Node
    ensures { result ≡ nearest_name number }
{
    Node::new(number.max(1).min(MAX_NAME)).unwrap()
}

impl AsRecord for RawRecord {
    ghost use Rattle.rudekpi_c.specs.LocalCalls.{nearest_record};

    ghost shows = { nearest_record };

    fn as_record(&self) -> NodeRecord {
        let target = if self.pointer == 0 {
            None
        } else {
            Some(nearest(self.pointer))
        };
        NodeRecord {
            node: nearest(self.node),
            target,
            flagged: self.flag,
        }
    }
}

fn is_named(shown: &RawRecord) -> bool
    ensures { IsTrue result ↔ AreNames shown.now }
{
    1 <= shown.node && shown.node <= MAX_NAME && shown.pointer <= MAX_NAME
}

fn are_named(around: &[RawRecord]) -> bool
    ensures { IsTrue result ↔ AllByRecursion AreNames around.now }
{
    for shown in around {
        if !is_named(shown) {
            return false;
        }
    }
    true
}

fn rules_given(rules: u32) -> Option<RuleSet>
    ensures { result ≡ rules_given rules }
{
    match rules {
        0 => Some(RuleSet::Hh),
        1 => Some(RuleSet::Manne),
        _ => None,
    }
}

fn move_told(own: &RawRecord, answer: Option<LocalMove>) -> LocalAnswer
    ensures { result ≡ move_told own.now answer }
{
    match answer {
        None => LocalAnswer {
            pointer: own.pointer,
            flag: own.flag,
            ..faulty(0, 0)
        },
        Some(made) => LocalAnswer {
            rule: rule_told(made.act),
            target: number_told(made.target),
            pointer: number_told(made.pointer),
            flag: made.flag,
            ..faulty(0, 0)
        },
    }
}

fn faulty(fault: u32, at: u32) -> LocalAnswer
    ensures { result ≡ faulty fault at }
{
    LocalAnswer {
        rule: 0,
        target: 0,
        pointer: 0,
        flag: false,
        fault,
        at,
    }
}

/// The repair, or what is wrong with what the node holds.
fn fault_told(own: &RawRecord, fault: &ViewFault) -> LocalAnswer
    ensures { result ≡ fault_told own.now fault.now }
{
    match fault {
        ViewFault::NotAscending(w) => faulty(1, w.name()),
        ViewFault::OwnNeighbour => faulty(2, 0),
        ViewFault::PointsAtItself(w) => faulty(3, w.name()),
        ViewFault::PointsAtStranger(w) => LocalAnswer {
            rule: 5,
            flag: own.flag,
            ..faulty(4, w.name())
        },
    }
}

fn fault_status(fault: &ViewFault) -> u32
    ensures { result ≡ fault_status fault.now }
{
    match fault {
        ViewFault::PointsAtStranger(_) => DONE,
        _ => NOT_SHOWN,
    }
}

/// Writes what the node does by its rule, from what it holds alone; or the repair of a pointer at no neighbour.
///
/// Returns 9 if no state of the machine shows this, and 5 if a number is out of range. Needs no memory.
#[unsafe(no_mangle)]
pub extern "C" fn rudekpi_local_rule(
    rules: u32,
    own: &RawRecord,
    around: &[RawRecord],
    answer: &mut LocalAnswer,
) -> u32
    ensures { AnswersLocal rules own.now around.now result answer.new }
{
    *answer = faulty(0, 0);
    let set = some_or!(rules_given(rules), BAD_ARGUMENT);
    if !is_named(own) || !are_named(around) {
        return BAD_ARGUMENT;
    }
    match local_rule_of(set, &own.as_record(), around) {
        Ok(made) => {
            *answer = move_told(own, made);
            DONE
        }
        Err(fault) => {
            *answer = fault_told(own, &fault);
            fault_status(&fault)
        }
    }
}

fn rule_given(rule: u32) -> Option<Act>
    ensures { result ≡ rule_named rule }
{
    match rule {
        1 => Some(Act::Update),
        2 => Some(Act::Marry),
        3 => Some(Act::Seduce),
        4 => Some(Act::Abandon),
        _ => None,
    }
}

fn target_given(target: u32) -> Option<Option<Node>>
    ensures { SomeIff result (target ≤ 65535) (pointer_named target) }
{
    if target == 0 {
        return Some(None);
    }
    Some(Some(Node::new(target)?))
}

/// Writes whether the node's rule allows this move, by what the node holds alone.
///
/// Returns what `rudekpi_local_rule` returns. Writes false if that is not 0. Needs no memory.
#[unsafe(no_mangle)]
pub extern "C" fn rudekpi_may_move(
    rules: u32,
    own: &RawRecord,
    around: &[RawRecord],
    rule: u32,
    target: u32,
    may: &mut bool,
) -> u32
    ensures { AnswersMayMove rules own.now around.now rule target result may.new }
{
    *may = false;
    let set = some_or!(rules_given(rules), BAD_ARGUMENT);
    let act = some_or!(rule_given(rule), BAD_ARGUMENT);
    let target = some_or!(target_given(target), BAD_ARGUMENT);
    if !is_named(own) || !are_named(around) {
        return BAD_ARGUMENT;
    }
    match may_move_of(set, &own.as_record(), around, act, target) {
        Ok(allowed) => {
            *may = allowed;
            DONE
        }
        Err(_) => NOT_SHOWN,
    }
}
