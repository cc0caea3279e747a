//! The copies of a board: one until the first reader comes, then two.

ghost use Rattle.std.specs.Prelude.{◌≡◌, ◌<◌, ◌^◌, ◌∷◌, [], drop, fold, IfOk, Some};
ghost use Rattle.left_right.specs.Sides.{view as known};
ghost use Rattle.snapshots.specs.History.{posted};
ghost use Rattle.snapshots.specs.Rule.{IsSound, Sees};
ghost use Rattle.snapshots.specs.Boards.{IsPublishable, Appends, absorbed, entries_of};
ghost use Rattle.snapshots.specs.Sharing.{shown_in, known_in, pending_in, waiting};

use crate::NoPlace;
use crate::history::HistoryPrefix;
use crate::reader::SeatAt;
use crate::register_copy::{Posted, RegisterCopy};
use crate::rule::{Law, Learn, Published, ReadStep, Tell};
use core::mem::{replace, replace_with};
use left_right::writer::Writer;
use log_entry::Entry;
use std::alloc::{AllocError, Global};
use std::sync::Wait;

/// The two copies and the changes that one of them lacks.
pub(crate) type Pair<L> = Writer<RegisterCopy, Posted, Option<RegisterCopy>, Published<L>>;

/// The number of a posted entry, and the history up to its posting, whose last mark has the entry.
#[derive(Drop)]
pub(crate) struct LonePost {
    front: u32,
    past: HistoryPrefix,
}

/// The only copy, and the posted entry that the copy lacks, if any. The entry itself comes at publication.
#[derive(Drop)]
pub(crate) struct LoneCopy {
    pub(crate) copy: RegisterCopy,
    pub(crate) posted: Option<LonePost>,
}

/// One copy costs a publication a few steps; two cost it a visit of each reader's place.
pub(crate) enum Copies<L: Law> {
    One(LoneCopy),
    Two(Pair<L>),
}

impl LoneCopy {
    #[tactic(auto, using(crate::proofs::Boards::lone_shown))]
    fn show(&mut self, entry: &Entry)
        requires { entries_of (waiting self.old.posted) ≡ entry.now ∷ [] }
        ensures copy { self.new.copy ≡ fold absorbed self.old.copy (waiting self.old.posted) }
        ensures pending { waiting self.new.posted ≡ [] }
    {
        if let Some(posted) = self.posted.take() {
            self.copy.take_in(entry, posted.front, &posted.past);
        }
    }
}

fn copied(entry: &Entry) -> Result<Entry, AllocError>
    ensures { IfOk result (λ copy. copy ≡ entry.now) }
{
    let (event, reply) = (entry.event().clone()?, entry.reply().clone()?);
    let Some(copy) = Entry::new(event, reply) else {
        unreachable!()
    };
    Ok(copy)
}

/// Waits for readers that still read the other copy.
fn show<L: Law, R: Wait>(writer: Pair<L>, rt: &R) -> (Pair<L>, ())
    requires { IsPublishable L.holds writer.desk.shown.value (drop writer.behind writer.log.items) }
    ensures copy { result.0.desk.shown.value ≡ fold absorbed writer.desk.shown.value (drop writer.behind writer.log.items) }
    ensures pending { drop result.0.behind result.0.log.items ≡ [] }
    ensures sees { Sees L.holds (known writer.desk.place) writer.desk.shown.value result.0.desk.shown.value (known result.0.desk.place) }
{
    let (writer, shown) = writer.publish_as::<ReadStep<L>, R>(rt);
    let Ok(()) = shown else { unreachable!() };
    (writer, ())
}

fn pair<L: Law, R: Wait>(
    rt: &R,
    alloc: Global,
    copy: &RegisterCopy,
    readers: usize,
) -> Result<Pair<L>, AllocError>
    requires readers { (0 < readers) × (readers < 2 ^ 32) }
    requires sound { IsSound L.holds copy.now }
    ensures { IfOk result (λ w. (w.desk.shown.value ≡ copy.now) × (drop w.behind w.log.items ≡ []) × (known w.desk.place ≡ Some copy.now)) }
{
    let writer = Writer::new(alloc, copy.again(alloc)?, copy.again(alloc)?, readers)?;
    let (writer, ()) = show(writer, rt);
    Ok(writer)
}

impl<L: Law> Copies<L> {
    pub(crate) fn shown(&self) -> &RegisterCopy
        ensures { result.now ≡ shown_in self.now }
    {
        match self {
            Copies::One(lone) => &lone.copy,
            Copies::Two(writer) => writer.published(),
        }
    }

    /// Whether there was memory. One copy takes none.
    pub(crate) fn append(&mut self, entry: &Entry, front: u32, past: HistoryPrefix) -> bool
        requires none { pending_in self.old ≡ [] }
        requires last { posted past.seen.log ≡ entry.now ∷ [] }
        ensures shown { shown_in self.new ≡ shown_in self.old }
        ensures known { known_in self.new ≡ known_in self.old }
        ensures pending { Appends result (record { entry = entry.now; front = front; past = past }) (pending_in self.old) (pending_in self.new) }
    {
        match self {
            Copies::One(lone) => {
                lone.posted = Some(LonePost { front, past });
                true
            }
            Copies::Two(writer) => {
                let Ok(entry) = copied(entry) else {
                    return false;
                };
                writer.append(Posted { entry, front, past }).is_ok()
            }
        }
    }

    /// Waits for readers that still read the other copy.
    pub(crate) fn show<R: Wait>(&mut self, rt: &R, entry: &Entry)
        requires posted { entries_of (pending_in self.old) ≡ entry.now ∷ [] }
        requires ready { IsPublishable L.holds (shown_in self.old) (pending_in self.old) }
        requires sound { IsSound L.holds (shown_in self.old) }
        ensures copy { shown_in self.new ≡ fold absorbed (shown_in self.old) (pending_in self.old) }
        ensures pending { pending_in self.new ≡ [] }
        ensures sees { Sees L.holds (known_in self.old) (shown_in self.old) (shown_in self.new) (known_in self.new) }
    {
        match self {
            Copies::One(lone) => lone.show(entry),
            Copies::Two(writer) => replace_with(writer, rt, show::<L, R>),
        }
    }

    /// Makes the second copy, if there is none. Whether there was memory; if not nothing has changed.
    pub(crate) fn share<R: Wait>(&mut self, rt: &R, alloc: Global, readers: usize) -> bool
        requires readers { (0 < readers) × (readers < 2 ^ 32) }
        requires sound { IsSound L.holds (shown_in self.old) }
        requires none { pending_in self.old ≡ [] }
        ensures shown { shown_in self.new ≡ shown_in self.old }
        ensures known { known_in self.new ≡ known_in self.old }
        ensures pending { pending_in self.new ≡ [] }
    {
        let Copies::One(lone) = self else {
            return true;
        };
        let Ok(writer) = pair(rt, alloc, &lone.copy, readers) else {
            return false;
        };
        replace(self, Copies::Two(writer)).end(rt);
        true
    }

    pub(crate) fn seat(&mut self) -> Result<SeatAt<L>, NoPlace>
        ensures shown { shown_in self.new ≡ shown_in self.old }
        ensures known { known_in self.new ≡ known_in self.old }
        ensures pending { pending_in self.new ≡ pending_in self.old }
        ensures seat { IfOk result (λ seat. known seat.place ≡ known_in self.old) }
    {
        let Copies::Two(writer) = self else {
            return Err(NoPlace);
        };
        let Ok(mut seat) = writer.factory().reader() else {
            return Err(NoPlace);
        };
        seat.learn::<Learn>(writer.tell::<Tell>());
        Ok(seat)
    }

    /// Waits for readers that are looking; afterwards each reader sees nothing.
    pub(crate) fn end<R: Wait>(self, rt: &R) {
        match self {
            Copies::One(_lone) => {}
            Copies::Two(writer) => {
                writer.take(rt);
            }
        }
    }
}
