//! The table of registers.

ghost use Rattle.std.specs.Prelude.{◌≡◌, ◌<◌, ◌≤◌, length, IfOk};
ghost use Rattle.rule_machine.specs.State.{blank, pointer_of, flag_of, with_pointer, with_flag, holds_at, points};

use crate::Pointer;
use rule_machine::{Node, Want};
use std::alloc::Global;
use std::marker::Model;

/// Each node's pointer and married flag. Contracts see both tables.
#[derive(Drop)]
pub struct Registers {
    pointers: Vec<Pointer>,
    flags: Vec<bool>,
}

impl Model for Registers {
    ghost use Rattle.rule_machine.specs.State as state;

    ghost Value = { state.Registers };

    ghost coded = { state.registers_code };

    ghost view = { λ r. record { pointers = r.pointers.items; flags = r.flags.items } };
}

impl Registers {
    /// The registers of the names 1 to `size`: all pointers null, all flags false. At most 65,535 names.
    /// Error: out of memory.
    pub fn new(alloc: Global, size: u32) -> Result<Registers, Want>
        requires { size ≤ 65535 }
        ensures { IfOk result (λ r. r ≡ blank size) }
    {
        let places = size as usize + 1;
        let pointers = vec![in alloc; Pointer::new(None); places]?;
        let flags = vec![in alloc; false; places]?;
        Ok(Registers { pointers, flags })
    }

    /// A node's pointer; `None` for null.
    pub fn pointer(&self, v: Node) -> Option<Node>
        requires { v < length self.now.pointers }
        ensures { result ≡ pointer_of self.now v }
    {
        self.pointers[v.place()].target()
    }

    /// A node's married flag.
    pub fn flag(&self, v: Node) -> bool
        requires { v < length self.now.flags }
        ensures { result ≡ flag_of self.now v }
    {
        self.flags[v.place()]
    }

    /// All pointers, each at its name's index; index 0 belongs to no node.
    pub fn pointers(&self) -> &[Pointer]
        ensures { result.now ≡ self.now.pointers }
    {
        &self.pointers
    }

    /// Whether `v` points at `w`; `false` if `v` has no entry.
    pub fn points_at(&self, v: Node, w: Node) -> bool
        ensures { result ≡ points self.now v w }
    {
        match self.pointers.get(v.place()) {
            Some(pointer) => pointer.is_at(w),
            None => false,
        }
    }

    /// Whether `v`'s target points back at `v`.
    pub fn married(&self, v: Node) -> bool
        requires { v < length self.now.pointers }
        ensures { result ≡ holds_at (λ w. points self.now w v) (pointer_of self.now v) }
    {
        match self.pointer(v) {
            Some(w) => self.points_at(w, v),
            None => false,
        }
    }

    /// Writes a node's pointer; `None` for null.
    pub fn set_pointer(&mut self, v: Node, target: Option<Node>)
        requires { v < length self.old.pointers }
        ensures { self.new ≡ with_pointer self.old v target }
    {
        self.pointers[v.place()] = Pointer::new(target);
    }

    /// Writes a node's married flag.
    pub fn set_flag(&mut self, v: Node, value: bool)
        requires { v < length self.old.flags }
        ensures { self.new ≡ with_flag self.old v value }
    {
        self.flags[v.place()] = value;
    }
}
