//! Notes of what a board has published.

ghost use Rattle.std.specs.Prelude.{◌≡◌, false, IsTrue};
ghost use mathlib.Core.List.{IsPrefix};
ghost use Rattle.snapshots.specs.History.{AreComparable};

use crate::history::HistoryPrefix;
use std::marker::Model;

/// A note, for any thread, of the entries that a board had published when it gave the note.
/// Contracts see the entries, their history, and the base before them, if any; the note itself contains no entry.
#[derive(Drop)]
pub struct Note {
    pub(crate) front: HistoryPrefix,
}

impl Model for Note {
    ghost use Rattle.std.specs.Coded.{codes};
    ghost use Rattle.logbook.specs.Pages.{book_coded};
    ghost use Rattle.snapshots.specs.History.{published};
    ghost use Rattle.snapshots.specs.Origins.{base_before};
    ghost use Rattle.snapshots.specs.Views.{PublishedLog};

    ghost Value = { PublishedLog };

    ghost coded = { Prim.hlevel (codes, book_coded) };

    ghost view = { λ n. record { log = published n.front.seen.log; book = n.front.seen.book; base = base_before n.front.seen.log } };
}

impl Note {
    /// A copy of this note. Takes no memory.
    pub fn again(&self) -> Note
        ensures { result ≡ self.now }
    {
        Note {
            front: self.front.again(),
        }
    }

    /// Whether this note's entries are known to be a prefix of those of `other`, a note of the same board.
    /// If not, the reverse holds.
    pub fn begins(&self, other: &Note) -> bool
        requires { other.now.book ≡ self.now.book }
        ensures yes { IsTrue result → IsPrefix self.now.log other.now.log }
        ensures no { result ≡ false → IsPrefix other.now.log self.now.log }
        ensures base { self.now.base ≡ other.now.base }
    {
        self.meets(other);
        self.front.begins(&other.front)
    }

    /// Of the entries of two notes of one board, one list is a prefix of the other, and they begin at one base.
    /// Runs no code.
    pub fn meets(&self, other: &Note)
        requires { other.now.book ≡ self.now.book }
        ensures logs { AreComparable self.now.log other.now.log }
        ensures base { self.now.base ≡ other.now.base }
    {
        self.front.meets(&other.front);
    }
}
