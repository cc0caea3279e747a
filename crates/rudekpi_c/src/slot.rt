//! C's slot for a session.

ghost use Rattle.std.specs.Prelude.{◌≡◌, ◌↔◌, None, Some, Option, IsTrue, IsNone, IfSome};
ghost use Rattle.rudekpi_c.specs.declared.session.Session.{Session};
ghost use Rattle.rudekpi_c.specs.HandleOwnership.{held, held_coded};
ghost use Rattle.rudekpi_c.specs.Slot.{IsPutBack};

use crate::parts::Parts;
use crate::session::Session;
use std::alloc::Global;
use std::marker::Model;
use std::mem::replace;
use std::ptr::null_mut;

/// The address of a session, or null. C sees only the address: an allocator takes no bytes.
#[repr(C)]
#[derive(Drop)]
pub struct Handle {
    at: *mut (),
    alloc: Global,
    pub ghost value: { Option Session } by { held_coded },
}

impl Model for Handle {
    ghost also_owns = { λ h. held h.alloc h.at h.value };
}

impl Handle {
    pub(crate) fn empty(alloc: Global) -> Handle
        ensures { result.value ≡ None }
    {
        let at: *mut () = null_mut();
        Handle { at, alloc }
    }

    pub(crate) fn of_parts(parts: Parts<Session, Global>) -> Handle
        ensures { result.value ≡ Some parts.value }
    {
        let Parts { at: typed, alloc } = parts;
        let at = typed as *mut ();
        Handle { at, alloc }
    }

    pub(crate) fn into_parts(self) -> Parts<Session, Global>
        requires { self.value ≡ None → ⊥ }
        ensures { Some result.value ≡ self.value }
    {
        let Handle { at: bare, alloc } = self;
        let at = bare as *mut Session;
        Parts { at, alloc }
    }
}

/// A slot for one session; all bytes 0 is an empty slot.
#[repr(C)]
#[derive(Drop)]
pub struct Slot {
    pub handle: Handle,
    pub full: bool,
    ghost says: { IsTrue full ↔ (handle.value ≡ None → ⊥) },
}

impl Slot {
    pub(crate) fn take(&mut self, alloc: Global) -> Option<Box<Session>>
        ensures left { self.new.handle.value ≡ None }
        ensures none { IsNone result → self.old.handle.value ≡ None }
        ensures some { IfSome result (λ session. self.old.handle.value ≡ Some session.value) }
    {
        let empty = Slot {
            handle: Handle::empty(alloc),
            full: false,
        };
        let old = replace(self, empty);
        if !old.full {
            return None;
        }
        Some(old.handle.into_parts().into_box())
    }

    pub(crate) fn put(&mut self, session: Box<Session>)
        ensures { self.new.handle.value ≡ Some session.value }
    {
        let handle = Handle::of_parts(Parts::of(session));
        *self = Slot { handle, full: true };
    }

    /// Drops the session's text if it keeps no transcript.
    pub(crate) fn put_back(&mut self, session: Box<Session>)
        ensures { IsPutBack session.value self.new.handle.value }
    {
        let mut session = session;
        let keeps = session.keeps;
        session.machine.settle(keeps);
        self.put(session);
    }
}

/// The value of an expression about the slot's session. Without one the function returns `$status`.
macro_rules! look {
    ($alloc:expr, $slot:expr, $status:expr, $session:ident => $value:expr) => {{
        let mut $session = some_or!($slot.take($alloc), $status);
        let value = $value;
        $slot.put($session);
        value
    }};
}

pub(crate) use look;
