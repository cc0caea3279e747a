//! A clerk: it calls a network and keeps the receipts.

ghost use Rattle.std.specs.Prelude.{◌≡◌, None, Some, IfSome, MatchOption};
ghost use mathlib.Core.List.{IsPrefix};
ghost use Rattle.snapshots.specs.History.{AreComparable};
ghost use Rattle.locked_net.specs.Receipts.{fresh, front_of, seen_by, noted, HasNoteOf, IsClerk, IsOfBook, RiseAbove, receipts_of};

use crate::ending::begins;
use snapshots::Note;
use std::alloc::Global;
use std::marker::Model;
use step_log::{Receipt, Receipts};

mod calls;
mod locked;

/// A caller of a network. Contracts see three things:
///
/// - the clerk's receipts, oldest first: one for each answered call, with strictly rising numbers;
/// - the clerk's note of what was published at the last receipt, or of more that the clerk `sees`;
/// - the greatest number that the clerk's `checkpoint` returned.
#[derive(Drop)]
pub struct Clerk {
    receipts: Vec<Receipt>,
    note: Option<Note>,
    base: Option<u32>,
}

impl Model for Clerk {
    ghost use Rattle.std.specs.Coded.{codes};
    ghost use Rattle.logbook.specs.Pages.{book_coded};
    ghost use Rattle.locked_net.specs.Receipts.{ClerkView, IsClerk};

    ghost Value = { ClerkView };

    ghost coded = { Prim.hlevel (codes, book_coded) };

    ghost view = { λ c. record { receipts = c.receipts.items; note = c.note; base = c.base } };

    ghost invariant = { λ c. IsClerk (record { receipts = c.receipts.items; note = c.note; base = c.base }) };
}

impl Clerk {
    pub(crate) fn new(alloc: Global) -> Clerk
        ensures { result ≡ fresh }
    {
        Clerk {
            receipts: Vec::new(alloc),
            note: None,
            base: None,
        }
    }

    /// The number of this clerk's last receipt; 0 if it has none.
    pub fn front(&self) -> u32
        ensures { result ≡ front_of self.now.receipts }
    {
        match self.receipts.last() {
            Some(receipt) => receipt.seq,
            None => 0,
        }
    }

    /// The greatest entry number that this clerk has seen, in a receipt or from `checkpoint`; 0 if none.
    pub fn seen(&self) -> u32
        ensures { result ≡ seen_by self.now }
    {
        self.front().max(self.base.unwrap_or(0))
    }

    /// The greatest number that this clerk's `checkpoint` returned; `None` before the first.
    /// No other call changes it. Takes no memory.
    pub fn base(&self) -> Option<u32>
        ensures { result ≡ self.now.base }
    {
        self.base
    }

    /// The clerk's receipts, oldest first.
    pub fn receipts(&self) -> &[Receipt]
        ensures receipts { result.now ≡ self.now.receipts }
        ensures rise { RiseAbove 0 self.now.receipts }
    {
        &self.receipts
    }

    pub(crate) fn into_receipts(self) -> Receipts
        ensures { result ≡ receipts_of self }
    {
        let Clerk {
            receipts,
            note: _,
            base,
        } = self;
        Receipts::new(receipts, base)
    }

    pub(crate) fn note(&self) -> Option<&Note>
        ensures note { MatchOption result (self.now.note ≡ None) (λ note. self.now.note ≡ Some note.now) }
        ensures clerk { IsClerk self.now }
    {
        self.note.as_ref()
    }

    /// A copy of the clerk's note, if any. Takes no memory. The note's log has the last receipt's entry.
    /// The note came with the last receipt, or is of more that the clerk has seen since.
    pub fn noted(&self) -> Option<Note>
        ensures note { result ≡ self.now.note }
        ensures clerk { IsClerk self.now }
    {
        let note = self.note.as_ref()?;
        Some(note.again())
    }

    /// Of the logs of the clerk's note and of another note of its network, one is a prefix of the other.
    /// Runs no code.
    pub fn follows(&self, before: &Option<Note>)
        requires { IfSome before.now (λ note. IsOfBook note.book self.now) }
        ensures notes { AreComparable (noted before.now) (noted self.now.note) }
        ensures clerk { IsClerk self.now }
    {
        let own = self.note();
        if let Some(before) = before {
            if let Some(own) = own {
                before.meets(own);
            }
        }
    }

    /// Takes in another note of the clerk's network: the clerk's note then includes the logs of both.
    /// Receipts and base stay. Takes no memory.
    pub fn sees(&mut self, other: Note)
        requires { IsOfBook other.book self.old }
        ensures seen { IsPrefix other.log (noted self.new.note) }
        ensures grows { IsPrefix (noted self.old.note) (noted self.new.note) }
        ensures note { HasNoteOf other.book self.new }
        ensures receipts { self.new.receipts ≡ self.old.receipts }
        ensures base { self.new.base ≡ self.old.base }
    {
        if begins(self, &other) {
            self.note = Some(other);
        }
    }
}
