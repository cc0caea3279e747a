//! The line of a verdict.

ghost use Rattle.std.specs.Prelude.{◌≡◌, ◌++◌, IfOk, OnOk};
ghost use Rattle.line_text.specs.Words.{number_text};
ghost use Rattle.command_line.specs.VerdictText.{summary_text, fault_text, damage_line, verdict_line};

use crate::verdict::CheckEnd;
use auditor::{AuditFault, Summary};
use itoa::Buffer;
use std::alloc::{AllocError, Global};

pub(crate) fn put_number(line: &mut Vec<u8>, number: u64, text: &[u8]) -> Result<(), AllocError>
    ensures { OnOk result (line.new.items ≡ line.old.items ++ (number_text number ++ text.now)) }
{
    let mut digits = Buffer::new();
    line.extend_from_slice(digits.format(number).as_bytes())?;
    line.extend_from_slice(text)
}

fn put_counts(line: &mut Vec<u8>, counted: Summary) -> Result<(), AllocError>
    ensures { OnOk result (line.new.items ≡ line.old.items ++ summary_text counted) }
{
    line.extend_from_slice(b"accepted: ")?;
    put_number(line, u64::from(counted.entries), b" entries, ")?;
    put_number(line, u64::from(counted.epochs), b" epochs, ")?;
    put_number(line, counted.moves, b" moves")
}

fn put_place(line: &mut Vec<u8>, number: u64, text: &[u8]) -> Result<(), AllocError>
    ensures { OnOk result (line.new.items ≡ line.old.items ++ damage_line number text.now) }
{
    line.extend_from_slice(b"line ")?;
    put_number(line, number, text)
}

fn put_fault(line: &mut Vec<u8>, fault: AuditFault) -> Result<(), AllocError>
    ensures { OnOk result (line.new.items ≡ line.old.items ++ fault_text fault) }
{
    match fault {
        AuditFault::BadHeader => line.extend_from_slice(b"line 1: bad header"),
        AuditFault::NotALine { line: at } => put_place(line, at, b": not a transcript line"),
        AuditFault::OutOfOrder { line: at } => put_place(line, at, b": out of order"),
        AuditFault::NotTheMachines { line: at } => {
            put_place(line, at, b": not the machine's reply")
        }
        AuditFault::BadBase { line: at } => put_place(line, at, b": bad base"),
        AuditFault::Read => line.extend_from_slice(b"read failed"),
        AuditFault::Memory => line.extend_from_slice(b"out of memory"),
    }
}

/// The line of a verdict, with its LF.
pub fn verdict_line(alloc: Global, end: CheckEnd) -> Result<Vec<u8>, AllocError>
    ensures { IfOk result (λ line. line.items ≡ verdict_line end) }
{
    let mut line = Vec::new(alloc);
    match end {
        CheckEnd::Accepted(counted) => put_counts(&mut line, counted)?,
        CheckEnd::Refused(fault) => put_fault(&mut line, fault)?,
    }
    line.push(b'\n')?;
    Ok(line)
}
