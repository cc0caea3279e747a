//! Audits of a transcript that C feeds in pieces.

ghost use Rattle.std.specs.Prelude.{◌≡◌, None};
ghost use Rattle.rudekpi_c.specs.AuditCalls.{AuditBegun, AuditEnded, AuditFed, found_status};

use crate::audit_slot::AuditSlot;
use crate::status::{DAMAGED, DONE, MEMORY, NO_SESSION, ok_or, some_or};
use crate::verdict::{Verdict, unsaid, verdict_of};
use auditor::{AuditFault, PieceAudit};
use std::alloc::Global;

/// Begins an audit that has been fed nothing, in place of the slot's old audit.
///
/// Returns 3 if memory runs out; the slot is then empty.
#[unsafe(no_mangle)]
pub extern "C" fn rudekpi_audit_new(alloc: Global, slot: &mut AuditSlot) -> u32
    ensures { AuditBegun result slot.new.handle.value }
{
    drop(slot.take(alloc));
    let audit = ok_or!(Box::new(alloc, PieceAudit::new(alloc)), MEMORY);
    slot.put(audit);
    DONE
}

/// Feeds the next bytes, cut anywhere.
///
/// Returns 7 if the bytes fed so far are damaged, whatever bytes follow; 3 if memory runs out; 4 if there is
/// no audit. After 7 or 3 every later call of this function returns the same status.
#[unsafe(no_mangle)]
pub extern "C" fn rudekpi_audit_feed(alloc: Global, slot: &mut AuditSlot, piece: &[u8]) -> u32
    ensures { AuditFed piece.now result slot.old.handle.value slot.new.handle.value }
{
    let mut audit = some_or!(slot.take(alloc), NO_SESSION);
    let found = audit.feed(alloc, piece);
    slot.put(audit);
    status_of(found)
}

/// Judges all bytes fed as a whole text, and ends the audit. Returns 4 if there is no audit.
#[unsafe(no_mangle)]
pub extern "C" fn rudekpi_audit_finish(
    alloc: Global,
    slot: &mut AuditSlot,
    verdict: &mut Verdict,
) -> u32
    ensures ended { AuditEnded result verdict.new slot.old.handle.value }
    ensures left { slot.new.handle.value ≡ None }
{
    *verdict = unsaid();
    let audit = some_or!(slot.take(alloc), NO_SESSION);
    *verdict = verdict_of(Box::into_inner(audit).finish(alloc));
    DONE
}

/// Ends the audit, if there is one, without a verdict.
#[unsafe(no_mangle)]
pub extern "C" fn rudekpi_audit_free(alloc: Global, slot: &mut AuditSlot)
    ensures { slot.new.handle.value ≡ None }
{
    slot.take(alloc);
}

pub(crate) fn status_of(found: Result<(), AuditFault>) -> u32
    ensures { result ≡ found_status found }
{
    match found {
        Ok(()) => DONE,
        Err(AuditFault::Memory) => MEMORY,
        Err(_) => DAMAGED,
    }
}
