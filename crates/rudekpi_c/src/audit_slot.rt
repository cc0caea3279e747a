//! C's slot for an audit. Sessions have another slot type, since C's types have no type parameters.

ghost use Rattle.std.specs.Prelude.{◌≡◌, ◌↔◌, None, Some, Option, IsTrue, IsNone, IfSome};
ghost use Rattle.auditor.specs.declared.piece_audit.PieceAudit.{PieceAudit};
ghost use Rattle.rudekpi_c.specs.HandleOwnership.{held_audit, held_audit_coded};

use crate::parts::Parts;
use auditor::PieceAudit;
use std::alloc::Global;
use std::marker::Model;
use std::mem::replace;
use std::ptr::null_mut;

/// The address of an audit, or null. C sees only the address.
#[repr(C)]
#[derive(Drop)]
pub struct AuditHandle {
    at: *mut (),
    alloc: Global,
    pub ghost value: { Option PieceAudit } by { held_audit_coded },
}

impl Model for AuditHandle {
    ghost also_owns = { λ h. held_audit h.alloc h.at h.value };
}

impl AuditHandle {
    pub(crate) fn empty(alloc: Global) -> AuditHandle
        ensures { result.value ≡ None }
    {
        let at: *mut () = null_mut();
        AuditHandle { at, alloc }
    }

    pub(crate) fn of_parts(parts: Parts<PieceAudit, Global>) -> AuditHandle
        ensures { result.value ≡ Some parts.value }
    {
        let Parts { at: typed, alloc } = parts;
        let at = typed as *mut ();
        AuditHandle { at, alloc }
    }

    pub(crate) fn into_parts(self) -> Parts<PieceAudit, Global>
        requires { self.value ≡ None → ⊥ }
        ensures { Some result.value ≡ self.value }
    {
        let AuditHandle { at: bare, alloc } = self;
        let at = bare as *mut PieceAudit;
        Parts { at, alloc }
    }
}

/// A slot for one audit; all bytes 0 is an empty slot.
#[repr(C)]
#[derive(Drop)]
pub struct AuditSlot {
    pub handle: AuditHandle,
    pub full: bool,
    ghost says: { IsTrue full ↔ (handle.value ≡ None → ⊥) },
}

impl AuditSlot {
    pub(crate) fn take(&mut self, alloc: Global) -> Option<Box<PieceAudit>>
        ensures left { self.new.handle.value ≡ None }
        ensures none { IsNone result → self.old.handle.value ≡ None }
        ensures some { IfSome result (λ audit. self.old.handle.value ≡ Some audit.value) }
    {
        let empty = AuditSlot {
            handle: AuditHandle::empty(alloc),
            full: false,
        };
        let old = replace(self, empty);
        if !old.full {
            return None;
        }
        Some(old.handle.into_parts().into_box())
    }

    pub(crate) fn put(&mut self, audit: Box<PieceAudit>)
        ensures { self.new.handle.value ≡ Some audit.value }
    {
        let handle = AuditHandle::of_parts(Parts::of(audit));
        *self = AuditSlot { handle, full: true };
    }
}
