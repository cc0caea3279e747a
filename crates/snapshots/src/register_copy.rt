//! One copy of the pointers and of the present nodes, and the operations on a copy.

ghost use Rattle.std.specs.Prelude.{◌≡◌, ◌<◌, ◌&&◌, false, Some, None, IfOk, length, nat_le, slice_index_or};
ghost use Rattle.snapshots.specs.Row.{here_at_start};
ghost use Rattle.snapshots.specs.CopyViews.{copy_at_start, after, found_in};

use crate::effect::{points_at, put_nodes, take_in};
use crate::history::HistoryPrefix;
use left_right::Absorb;
use log_entry::Entry;
use rule_machine::{Base, Node};
use std::alloc::{AllocError, Global};
use std::marker::Model;

/// The pointers and present nodes after the entry number `front`, with a place for each name.
/// Also has the prefix of the history that shows the entries.
#[derive(Drop)]
pub struct RegisterCopy {
    row: Vec<Option<Node>>,
    here: Vec<bool>,
    front: u32,
    past: HistoryPrefix,
}

impl Model for RegisterCopy {
    ghost use Rattle.std.specs.Coded.{codes};
    ghost use Rattle.logbook.specs.Pages.{book_coded};
    ghost use Rattle.snapshots.specs.CopyViews.{CopyView};

    ghost Value = { CopyView };

    ghost coded = { Prim.hlevel (codes, book_coded) };

    ghost view = { λ i. record {
      row = i.row.items;
      here = i.here.items;
      front = i.front;
      marks = i.past.seen.log;
      book = i.past.seen.book;
    } };
}

/// One entry for a copy to take in: the entry, the entry's number, and the history up to its posting.
#[derive(Drop)]
pub struct Posted {
    pub(crate) entry: Entry,
    pub(crate) front: u32,
    pub(crate) past: HistoryPrefix,
}

impl RegisterCopy {
    pub(crate) fn blank(
        alloc: Global,
        places: usize,
        present: u32,
        past: &HistoryPrefix,
    ) -> Result<RegisterCopy, AllocError>
        ensures { IfOk result (λ i. i ≡ copy_at_start (record { places = places; present = present; base = None }) past.now.seen.log past.now.seen.book) }
    {
        Ok(RegisterCopy {
            row: vec![in alloc; None; places]?,
            here: here_at_start(alloc, places, present)?,
            front: 0,
            past: past.again(),
        })
    }

    pub(crate) fn from_base(
        alloc: Global,
        places: usize,
        base: &Base,
        past: &HistoryPrefix,
    ) -> Result<RegisterCopy, AllocError>
        ensures { IfOk result (λ i. i ≡ copy_at_start (record { places = places; present = length base.now.nodes; base = Some base.now }) past.now.seen.log past.now.seen.book) }
    {
        let mut row = vec![in alloc; None; places]?;
        let mut here = vec![in alloc; false; places]?;
        put_nodes(&mut row, &mut here, base.nodes.as_slice());
        Ok(RegisterCopy {
            row,
            here,
            front: base.number,
            past: past.again(),
        })
    }

    pub(crate) fn again(&self, alloc: Global) -> Result<RegisterCopy, AllocError>
        ensures { IfOk result (λ i. i ≡ self.now) }
    {
        let mut row = Vec::with_capacity(alloc, self.row.len())?;
        row.extend_from_slice(&self.row)?;
        let mut here = Vec::with_capacity(alloc, self.here.len())?;
        here.extend_from_slice(&self.here)?;
        Ok(RegisterCopy {
            row,
            here,
            front: self.front,
            past: self.past.again(),
        })
    }

    pub(crate) fn take_in(&mut self, entry: &Entry, front: u32, past: &HistoryPrefix)
        ensures { self.new ≡ after self.old entry.now front past.now.seen.log past.now.seen.book }
    {
        take_in(&mut self.row, &mut self.here, entry);
        self.front = front;
        self.past = past.again();
    }

    pub(crate) fn front(&self) -> u32
        ensures { result ≡ self.now.front }
    {
        self.front
    }

    pub(crate) fn past(&self) -> HistoryPrefix
        ensures { (result.seen.log ≡ self.now.marks) × (result.seen.book ≡ self.now.book) }
    {
        self.past.again()
    }

    /// The pointer at a place, and the target if the target points back; `None` if no node has the place.
    pub(crate) fn find(&self, place: usize) -> Option<(Option<Node>, Option<Node>)>
        ensures { result ≡ found_in self.now.row self.now.here place }
    {
        if !is_here(&self.here, place) {
            return None;
        }
        let pointer = *self.row.get(place)?;
        let partner = match pointer {
            Some(w) if points_at(&self.row, w, place) => Some(w),
            _ => None,
        };
        Some((pointer, partner))
    }
}

fn is_present(place: usize, present: u32) -> bool
    ensures { result ≡ (nat_le 1 place && nat_le place present) }
{
    1 <= place && place <= present as usize
}

fn here_at_start(alloc: Global, places: usize, present: u32) -> Result<Vec<bool>, AllocError>
    ensures { IfOk result (λ here. here.items ≡ here_at_start (record { places = places; present = present; base = None })) }
{
    let mut here = Vec::with_capacity(alloc, places)?;
    for place in 0..places {
        here.push(is_present(place, present))?;
    }
    Ok(here)
}

fn is_here(here: &[bool], place: usize) -> bool
    ensures { result ≡ slice_index_or here.now place false }
{
    match here.get(place) {
        Some(there) => *there,
        None => false,
    }
}

impl Absorb<Posted> for RegisterCopy {
    type State = RegisterCopy;

    ghost state = { λ i. i };

    ghost applied = { λ i p. after i p.entry p.front p.past.seen.log p.past.seen.book };

    ghost never_fails = { Unit {0} };

    fn absorb_first(
        &mut self,
        operation: &Posted,
        _other: &RegisterCopy,
    ) -> Result<(), AllocError> {
        self.take_in(&operation.entry, operation.front, &operation.past);
        Ok(())
    }
}
