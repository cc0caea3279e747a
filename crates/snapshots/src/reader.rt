//! Readers of a board.

ghost use Rattle.std.specs.Prelude.{◌≡◌, ◌+◌, ◌<◌, length, IfSome, IfNone};
ghost use mathlib.Core.List.{IsPrefix};
ghost use Rattle.left_right.specs.Sides.{view as known};
ghost use Rattle.rule_machine.specs.Base.{dropped};
ghost use Rattle.snapshots.specs.History.{IsOneLog, AreOneLog, AreComparable};
ghost use Rattle.snapshots.specs.CopyViews.{CopyView, found_in, found_after};
ghost use Rattle.snapshots.specs.Rule.{Sees};

use crate::history::HistoryPrefix;
use crate::note::Note;
use crate::register_copy::RegisterCopy;
use crate::rule::{Law, Published, ReadStep as Looks};
use core::mem::replace_with;
use left_right::reader::Reader as Seat;
use rule_machine::Node;
use std::marker::Model;

/// A reader's handle on the two register copies (left-right).
pub(crate) type SeatAt<L> = Seat<RegisterCopy, Option<RegisterCopy>, Published<L>>;

/// What a reader saw at one moment.
#[derive(Clone, Copy, Debug, PartialEq, Eq)]
pub struct Snapshot {
    /// The number of the last published entry; the base's number if there is none, and 0 without a base.
    pub front: u32,
    /// The place's pointer, and the target if the target points back; `None` if no node has the place.
    pub found: Option<(Option<Node>, Option<Node>)>,
}

struct VersionedSnapshot {
    look: Snapshot,
    past: HistoryPrefix,
}

/// A wait-free reader of a board. Takes no memory.
/// Contracts see the entries that the reader saw last, the entries that every later look includes, and the
/// board's name.
#[derive(Drop)]
pub struct Reader<L: Law> {
    pub(crate) seat: SeatAt<L>,
    pub(crate) seen: HistoryPrefix,
    pub(crate) learnt: HistoryPrefix,
}

impl<L: Law> Model for Reader<L> {
    ghost use Rattle.std.specs.Coded.{codes};
    ghost use Rattle.logbook.specs.Pages.{book_coded};
    ghost use Rattle.left_right.specs.Sides.{view as known};
    ghost use Rattle.snapshots.specs.History.{published, shown};
    ghost use Rattle.snapshots.specs.Views.{ReaderView, extent_seen};
    ghost use Rattle.snapshots.specs.Boards.{IsReader};

    ghost Value = { ReaderView };

    ghost coded = { Prim.hlevel (codes, book_coded) };

    ghost view = { λ r. record {
      list = shown r.seen.seen.log;
      learnt = published r.learnt.seen.log;
      name = record { book = r.learnt.seen.book; extent = extent_seen (known r.seat.place) };
    } };

    ghost invariant = { λ r. IsReader (known r.seat.place) r.seen.seen.log r.seen.seen.book r.learnt.seen.book };
}

fn peek<L: Law>(seat: SeatAt<L>, place: usize) -> (SeatAt<L>, Option<VersionedSnapshot>)
    ensures none { IfNone result.1 (known result.0.place ≡ known seat.place) }
    ensures some { IfSome result.1 (λ g. (x : CopyView) × Sees L.holds (known seat.place) x x (known result.0.place)
        × (g.past.seen.log ≡ x.marks) × (g.past.seen.book ≡ x.book) × (g.look.front ≡ x.front) × (g.look.found ≡ found_in x.row x.here place)) }
{
    match seat.enter_as::<Looks<L>>() {
        Ok(reading) => {
            let image = reading.get();
            let look = Snapshot {
                front: image.front(),
                found: image.find(place),
            };
            let past = image.past();
            (reading.leave(), Some(VersionedSnapshot { look, past }))
        }
        Err(seat) => (seat, None),
    }
}

impl<L: Law> Reader<L> {
    /// The pointer and the partner at a place at one moment, with the number of the last entry then.
    /// The view, which is these entries, includes all that this reader saw or learnt before.
    /// `None` if the board has ended, or if the published entries lack some that the reader learnt, which
    /// never happens.
    /// Costs a few steps, whatever the size of the board.
    pub fn look(&mut self, place: usize) -> Option<Snapshot>
        ensures view { IsPrefix self.old.list self.new.list }
        ensures kept { (self.new.learnt ≡ self.old.learnt) × (self.new.name ≡ self.old.name) }
        ensures none { IfNone result (self.new.list ≡ self.old.list) }
        ensures learnt { IfSome result (λ look. IsPrefix self.old.learnt self.new.list) }
        ensures law { IfSome result (λ look. L.holds self.new.name.extent self.new.list) }
        ensures front { IfSome result (λ look. look.front ≡ dropped self.new.name.extent.base + length self.new.list) }
        ensures found { IfSome result (λ look. look.found ≡ found_after self.new.name.extent self.new.list place) }
    {
        let VersionedSnapshot { look, past } = replace_with(&mut self.seat, place, peek::<L>)?;
        if !self.learnt.is_shown_at(&past) {
            return None;
        }
        self.seen = past;
        Some(look)
    }

    /// The number of the last published entry, as in `Snapshot`. The view and the result `None` are as in `look`.
    pub fn front(&mut self) -> Option<u32>
        ensures view { IsPrefix self.old.list self.new.list }
        ensures kept { (self.new.learnt ≡ self.old.learnt) × (self.new.name ≡ self.old.name) }
        ensures none { IfNone result (self.new.list ≡ self.old.list) }
        ensures learnt { IfSome result (λ front. IsPrefix self.old.learnt self.new.list) }
        ensures law { IfSome result (λ front. L.holds self.new.name.extent self.new.list) }
        ensures front { IfSome result (λ front. front ≡ dropped self.new.name.extent.base + length self.new.list) }
    {
        let look = self.look(0)?;
        Some(look.front)
    }

    /// What two readers of one board saw is of one log, and so is what they learnt. Runs no code.
    pub fn agrees_with(&self, other: &Reader<L>)
        requires { other.now.name.book ≡ self.now.name.book }
        ensures views { AreOneLog self.now.list other.now.list }
        ensures learnt { AreComparable self.now.learnt other.now.learnt }
        ensures both { IsOneLog self.now.learnt other.now.list }
    {
        self.seen.meets(&other.seen);
        self.learnt.meets(&other.learnt);
        self.learnt.meets(&other.seen);
    }

    /// Takes in a note of the reader's own board: later looks show at least the note's entries.
    /// What the reader saw last and the note's entries are of one log, and begin at one base.
    pub fn learn(&mut self, note: &Note)
        requires { note.now.book ≡ self.old.name.book }
        ensures one_log { IsOneLog note.now.log self.old.list }
        ensures learnt { IsPrefix self.old.learnt self.new.learnt × IsPrefix note.now.log self.new.learnt }
        ensures base { note.now.base ≡ self.old.name.extent.base }
        ensures kept { (self.new.list ≡ self.old.list) × (self.new.name ≡ self.old.name) }
    {
        note.front.meets(&self.seen);
        self.learnt = self.learnt.longer(&note.front);
    }
}
