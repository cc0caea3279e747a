//! The board, which publishes entries.

ghost use Rattle.std.specs.Prelude.{◌≡◌, ◌+◌, ◌^◌, ◌<◌, ◌∷◌, ◌++◌, [], Some, None, length, IfOk, OnOk, OnErr};
ghost use Rattle.rule_machine.specs.Base.{dropped};

use crate::history::{History, HistoryPrefix};
use crate::marks::{AtBase, AtNames, Posts, Publishes};
use crate::note::Note;
use crate::reader::Reader;
use crate::register_copy::RegisterCopy;
use crate::rule::Law;
use crate::sharing::{Copies, LoneCopy};
use log_entry::Entry;
use rule_machine::Base;
use std::alloc::{AllocError, Global};
use std::marker::Model;
use std::sync::Wait;
use thiserror::Error;

/// The board has no place for another reader: all places are taken, or memory ran out.
#[derive(Clone, Copy, Debug, PartialEq, Eq, Error)]
#[error("the board has no place for another reader")]
pub struct NoPlace;

/// Publishes a network's pointers and present nodes, entry by entry, for wait-free readers.
///
/// Contracts see the published entries; the entry that is posted but not published, if any; and the board's
/// name. The name is the entries' history, the number of places, and, before any entry, the number of nodes and
/// the base, if any.
/// Every log that the board publishes keeps the law `L`. A board cannot be dropped: `end` ends it.
pub struct Board<L: Law> {
    alloc: Global,
    readers: usize,
    copies: Copies<L>,
    history: History,
    announced: HistoryPrefix,
    ghost some_readers: { (0 < readers) × (readers < 2 ^ 32) },
    ghost one_history: { announced.seen.book ≡ history.front.seen.book },
}

impl<L: Law> Model for Board<L> {
    ghost use Rattle.std.specs.Coded.{codes};
    ghost use Rattle.logbook.specs.Pages.{book_coded};
    ghost use Rattle.snapshots.specs.History.{shown};
    ghost use Rattle.snapshots.specs.CopyViews.{extent_of};
    ghost use Rattle.snapshots.specs.Views.{BoardView};
    ghost use Rattle.snapshots.specs.Boards.{IsBoardOf, entries_of};
    ghost use Rattle.snapshots.specs.Sharing.{shown_in, known_in, pending_in};

    ghost Value = { BoardView };

    ghost coded = { Prim.hlevel (codes, book_coded) };

    ghost view = { λ b. record {
      list = shown (shown_in b.copies).marks;
      posted = entries_of (pending_in b.copies);
      name = record { book = b.announced.seen.book; extent = extent_of (shown_in b.copies) };
    } };

    ghost invariant = { λ b. IsBoardOf L.holds (shown_in b.copies) (known_in b.copies) (pending_in b.copies) b.history.front b.announced };
}

impl<L: Law> Board<L> {
    ghost use Rattle.snapshots.specs.History.{shown};
    ghost use Rattle.snapshots.specs.CopyViews.{extent_of};
    ghost use Rattle.snapshots.specs.Boards.{IsBoard};

    fn over(alloc: Global, readers: usize, copy: RegisterCopy, history: History) -> Board<L>
        requires readers { (0 < readers) × (readers < 2 ^ 32) }
        requires board { IsBoard L.holds copy (Some copy) [] history.front.seen.log history.front.seen.book history.front.seen.log }
        ensures entries { (result.list ≡ shown copy.marks) × (result.posted ≡ []) }
        ensures extent { result.name.extent ≡ extent_of copy }
    {
        let announced = history.front.again();
        Board {
            alloc,
            readers,
            copies: Copies::One(LoneCopy { copy, posted: None }),
            history,
            announced,
        }
    }

    /// A board without entries, for at most `readers` readers at once.
    /// All pointers are null, and the names 1 to `present` are nodes.
    /// `AllocError` if memory runs out. Takes 9 bytes for each place.
    pub fn new(
        alloc: Global,
        places: usize,
        present: u32,
        readers: usize,
    ) -> Result<Board<L>, AllocError>
        requires readers { (0 < readers) × (readers < 2 ^ 32) }
        requires law { L.holds (record { places = places; present = present; base = None }) [] }
        ensures { IfOk result (λ b. (b.list ≡ []) × (b.posted ≡ []) × (b.name.extent ≡ record { places = places; present = present; base = None })) }
    {
        let history = History::open::<u32, AtNames>(&present);
        let copy = RegisterCopy::blank(alloc, places, present, &history.front)?;
        Ok(Board::over(alloc, readers, copy, history))
    }

    /// A board without entries that begins at a base, for at most `readers` readers at once.
    /// The nodes, with their pointers, are those of the base. The first entry has the number after the base's.
    /// `AllocError` if memory runs out. Takes 9 bytes for each place, and a step for each place and node.
    pub fn from_base(
        alloc: Global,
        places: usize,
        base: &Base,
        readers: usize,
    ) -> Result<Board<L>, AllocError>
        requires readers { (0 < readers) × (readers < 2 ^ 32) }
        requires law { L.holds (record { places = places; present = length base.now.nodes; base = Some base.now }) [] }
        ensures { IfOk result (λ b. (b.list ≡ []) × (b.posted ≡ []) × (b.name.extent ≡ record { places = places; present = length base.now.nodes; base = Some base.now })) }
    {
        let history = History::open::<Base, AtBase>(base);
        let copy = RegisterCopy::from_base(alloc, places, base, &history.front)?;
        Ok(Board::over(alloc, readers, copy, history))
    }

    /// Posts an entry: takes all memory that the entry needs. `publish` then publishes it and cannot fail.
    /// `AllocError` if memory runs out; no entry is posted then.
    pub fn post(&mut self, entry: &Entry) -> Result<(), AllocError>
        requires one { self.old.posted ≡ [] }
        requires room { dropped self.old.name.extent.base + length self.old.list < 2 ^ 24 }
        ensures posted { OnOk result (self.new ≡ record self.old { posted = entry.now ∷ [] }) }
        ensures kept { OnErr result (self.new ≡ self.old) }
    {
        if !self.history.has_room() {
            return Err(AllocError);
        }
        if !self.history.add::<Entry, Posts>(entry) {
            return Err(AllocError);
        }
        let front = self.copies.shown().front() + 1;
        let past = self.history.front.again();
        if !self.copies.append(entry, front, past) {
            return Err(AllocError);
        }
        Ok(())
    }

    /// Publishes the posted entry, whole and at once, and returns a note of what is published.
    /// Takes no memory. Waits for readers that still look at the previous copy.
    pub fn publish<R: Wait>(&mut self, rt: &R, entry: &Entry) -> Note
        requires posted { self.old.posted ≡ entry.now ∷ [] }
        requires law { L.holds self.old.name.extent (self.old.list ++ self.old.posted) }
        ensures published { self.new ≡ record self.old { list = self.old.list ++ self.old.posted; posted = [] } }
        ensures note { result ≡ record { log = self.new.list; book = self.new.name.book; base = self.new.name.extent.base } }
    {
        self.copies.show(rt, entry);
        // `post` left room for the mark, so `add` fails only if someone else has added a mark. No one else
        // has the word. But `add` changes the word through `&`, so no contract of `logbook` fixes the word's
        // value between two steps.
        if !self.history.add::<(), Publishes>(&()) {
            for _ in rt.forever() {}
            unreachable!()
        }
        self.announced = self.history.front.again();
        self.note()
    }

    /// A note of what is published.
    pub fn note(&self) -> Note
        ensures { result ≡ record { log = self.now.list; book = self.now.name.book; base = self.now.name.extent.base } }
    {
        Note {
            front: self.announced.again(),
        }
    }

    /// A reader that sees at least what is published now. The reader keeps its place until it is dropped.
    /// `NoPlace` if no place is found; when that happens is unspecified.
    /// The first reader costs a second copy and the memory of the readers' places: 9 bytes for each place of
    /// each copy, and 256 for each reader. Since then a publication visits the places of all readers.
    pub fn reader<R: Wait>(&mut self, rt: &R) -> Result<Reader<L>, NoPlace>
        requires { self.old.posted ≡ [] }
        ensures kept { self.new ≡ self.old }
        ensures seen { IfOk result (λ r. (r.list ≡ self.old.list) × (r.learnt ≡ self.old.list) × (r.name ≡ self.old.name)) }
    {
        if !self.copies.share(rt, self.alloc, self.readers) {
            return Err(NoPlace);
        }
        let seat = self.copies.seat()?;
        let seen = self.copies.shown().past();
        let learnt = self.announced.again();
        Ok(Reader { seat, seen, learnt })
    }

    /// Ends the board. Waits for readers that are looking; afterwards each reader sees nothing.
    pub fn end<R: Wait>(self, rt: &R) {
        let Self {
            alloc: _,
            readers: _,
            copies,
            history: _history,
            announced: _announced,
        } = self;
        copies.end(rt);
    }
}
