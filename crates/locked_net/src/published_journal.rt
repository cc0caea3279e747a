//! What a network's lock guards.

ghost use Rattle.std.specs.Prelude.{◌≡◌, ◌+◌, ◌<◌, ◌++◌, ◌∷◌, ◌↔◌, [], length, IfOk, None, IfSome, OnOk, OnErr, IsErrOf, IsTrue, vec_capacity};
ghost use Rattle.round_laws.specs.RoundCounts.{next_counting};
ghost use Rattle.rule_engine.specs.RoundsLeft.{LeavesIfCounted, rounds_left};
ghost use Rattle.step_log.specs.declared.fault.RecordFault.TheVariants.{LogFull};
ghost use Rattle.step_log.specs.JournalViews.{IsNextReceipt, kept_of};
ghost use Rattle.snapshots.specs.Row.{IsRun};
ghost use Rattle.step_log.specs.RetainedLogs.{IsRetainedRun, last_number, moment_in, kept_with, next_receipt};
ghost use Rattle.locked_net.specs.WholeLogs.{IsWholeLog};
ghost use Rattle.locked_net.specs.Calls.{AreVerdicts};
ghost use Rattle.locked_net.specs.CountedLogs.{CountsWholeLog};
ghost use Rattle.locked_net.specs.RetainedParts.{IsLogAboveBase, log_over};
ghost use Rattle.locked_net.specs.PublishedJournals.{IsPublishedJournal, based, counting_held, KeepsKey};

use rule_engine::{Event, Net, NodeBound, Reply, Rules, Verdict, Want};
use rule_machine::Base;
use snapshots::{Board, NoPlace, Note, Reader, Runs};
use std::alloc::{AllocError, Global};
use std::marker::Model;
use std::sync::Wait;
use step_log::{Journal, Prepared, Receipt, RecordFault};

/// How many readers of a network there may be at once.
const READERS: usize = 64;

/// A journal and the board that publishes all its entries. Cannot be dropped: `close` ends it.
/// Contracts see the whole published log from its beginning, dropped entries included; the journal's base;
/// the board's name; the count of rounds, if they are counted; and after which entry counting began.
pub(crate) struct PublishedJournal<R: Rules> {
    journal: Journal<R>,
    board: Board<Runs<R>>,
    counted_from: Option<u32>,
}

impl<R: Rules> Model for PublishedJournal<R> {
    ghost use Rattle.std.specs.Coded.{codes};
    ghost use Rattle.rule_machine.specs.State.{state_code};
    ghost use Rattle.logbook.specs.Pages.{book_coded};
    ghost use Rattle.step_log.specs.JournalViews.{kept_of};
    ghost use Rattle.locked_net.specs.RetainedParts.{log_over};
    ghost use Rattle.locked_net.specs.CountedLogs.{IsCountedLog};
    ghost use Rattle.locked_net.specs.PublishedJournals.{PublishedJournalView, IsPublishedJournal};

    ghost Value = { PublishedJournalView };

    ghost coded = { Prim.hlevel (codes, state_code, book_coded) };

    ghost view = { λ d. record {
      log = log_over (kept_of d.journal) d.board;
      base = d.journal.base;
      name = d.board.name;
      counting = d.journal.counting;
      counted_from = d.counted_from;
    } };

    ghost invariant = { λ d. IsPublishedJournal R.table (kept_of d.journal) d.board × IsCountedLog R.table (log_over (kept_of d.journal) d.board) d.counted_from d.journal.counting };
}

/// The reply to an event; the note ends with the event's entry.
#[derive(Drop)]
pub(crate) struct RecordedEvent {
    pub(crate) reply: Reply,
    pub(crate) note: Note,
}

impl<R: Rules> PublishedJournal<R> {
    /// The journal has no entry, and begins at `base`, if any; `present` nodes are there at its start.
    /// If its network counts rounds, it counts on: then counting began before the network's beginning.
    pub(crate) fn begin(
        alloc: Global,
        journal: Journal<R>,
        present: u32,
        base: &Option<Base>,
    ) -> Result<PublishedJournal<R>, AllocError>
        requires none { journal.entries ≡ [] }
        requires present { journal.present ≡ present }
        requires base { journal.base ≡ base.now }
        requires counted { IfSome base.now (λ b. present ≡ length b.nodes) }
        ensures log { IfOk result (λ published. published.log ≡ kept_of journal) }
        ensures counting { IfOk result (λ published. published.counting ≡ journal.counting) }
        ensures from { IfOk result (λ published. published.counted_from ≡ None) }
        ensures extent { IfOk result (λ published. published.name.extent ≡ record { places = journal.state.network.size + 1; present = present; base = base.now }) }
    {
        let places = journal.net().store().capacity() as usize + 1;
        let board = board_at(alloc, places, present, base)?;
        Ok(PublishedJournal {
            journal,
            board,
            counted_from: None,
        })
    }

    pub(crate) fn len(&self) -> u32
        ensures count { result ≡ last_number self.now.log }
        ensures run { IsWholeLog R.table self.now.log }
    {
        self.journal.len()
    }

    pub(crate) fn is_full(&self) -> bool
        ensures { IsTrue result ↔ (last_number self.now.log ≡ self.now.log.limit) }
    {
        self.journal.is_full()
    }

    pub(crate) fn net(&self) -> &Net<R>
        ensures state { result.now.state ≡ self.now.log.state }
        ensures spent { result.now.spent ≡ self.now.log.spent }
        ensures counting { result.now.counting ≡ self.now.counting }
        ensures counted { CountsWholeLog R.table self.now.log self.now.counted_from self.now.counting }
        ensures run { IsWholeLog R.table self.now.log }
    {
        self.journal.net()
    }

    pub(crate) fn count_rounds(&mut self) -> Result<(), Want>
        ensures ok { OnOk result (self.new ≡ counting_held R.table self.old) }
        ensures err { OnErr result (self.new ≡ self.old) }
    {
        let last = self.journal.len();
        self.journal.count_rounds()?;
        self.counted_from = Some(last);
        Ok(())
    }

    pub(crate) fn note(&self) -> Note
        ensures { (result.log ≡ self.now.log.entries) × (result.book ≡ self.now.name.book) × (result.base ≡ self.now.name.extent.base) }
    {
        self.board.note()
    }

    /// Appends the receipt; the list has room for it. After a fault nothing has changed.
    /// If the event is a step, `verdicts` may be those of its items; no guard is evaluated again then.
    pub(crate) fn record<W: Wait>(
        &mut self,
        rt: &W,
        event: Event,
        verdicts: Option<&[Verdict]>,
        receipts: &mut Vec<Receipt>,
    ) -> Result<RecordedEvent, RecordFault>
        requires judged { IfSome verdicts (λ verdicts. AreVerdicts R.table self.old.log.state event verdicts.now) }
        requires room { length receipts.old.items < vec_capacity receipts.old }
        ensures log { OnOk result (self.new.log ≡ kept_with R.table self.old.log event) }
        ensures receipt { OnOk result (receipts.new.items ≡ receipts.old.items ++ next_receipt R.table self.old.log event ∷ []) }
        ensures same_receipts { OnErr result (receipts.new.items ≡ receipts.old.items) }
        ensures reply { IfOk result (λ recorded. recorded.reply ≡ (next_receipt R.table self.old.log event).reply) }
        ensures note { IfOk result (λ recorded. (recorded.note.log ≡ self.new.log.entries) × (recorded.note.book ≡ self.old.name.book) × (recorded.note.base ≡ self.old.log.base)) }
        ensures full { IsErrOf result LogFull → last_number self.old.log ≡ self.old.log.limit }
        ensures kept { OnErr result (self.new ≡ self.old) }
        ensures key { KeepsKey self.old self.new }
        ensures counting { IfOk result (λ recorded. self.new.counting ≡ next_counting R.table recorded.reply self.new.log.state self.old.counting) }
    {
        let prepared = prepare(&mut self.journal, event, verdicts)?;
        Ok(finish(&mut self.journal, &mut self.board, rt, prepared, receipts)?)
    }

    /// Published entries stay published.
    pub(crate) fn checkpoint(&mut self) -> Result<u32, Want>
        ensures number { IfOk result (λ number. number ≡ last_number self.old.log) }
        ensures base { OnOk result (self.new ≡ based self.old) }
        ensures kept { OnErr result (self.new ≡ self.old) }
    {
        self.journal.checkpoint()
    }

    pub(crate) fn reader<W: Wait>(&mut self, rt: &W) -> Result<Reader<Runs<R>>, NoPlace>
        ensures kept { self.new ≡ self.old }
        ensures name { IfOk result (λ reader. reader.name ≡ self.old.name) }
        ensures seen { IfOk result (λ reader. (reader.list ≡ self.old.log.entries) × (reader.learnt ≡ self.old.log.entries)) }
        ensures run { IsWholeLog R.table self.old.log }
    {
        self.board.reader(rt)
    }

    pub(crate) fn close<W: Wait>(self, rt: &W) -> Journal<R>
        ensures kept { IsRetainedRun R.table R.NODE_WEIGHT (kept_of result) }
        ensures above { IsLogAboveBase R.table self.log (kept_of result) }
        ensures run { IsWholeLog R.table self.log }
    {
        let PublishedJournal {
            journal,
            board,
            counted_from: _,
        } = self;
        board.end(rt);
        prove!(journal.len() <= step_log::MAX_ENTRIES);
        journal
    }
}

impl<R: NodeBound> PublishedJournal<R> {
    pub(crate) fn rounds_left(&mut self) -> Option<u32>
        ensures value { result ≡ rounds_left R.table R.most R.rounds self.old.log.state self.old.counting }
        ensures left { LeavesIfCounted R.table (moment_in self.old.log) self.old.counting result }
        ensures kept { self.new ≡ self.old }
    {
        self.journal.rounds_left()
    }
}

fn board_at<R: Rules>(
    alloc: Global,
    places: usize,
    present: u32,
    base: &Option<Base>,
) -> Result<Board<Runs<R>>, AllocError>
    requires law { IsRun R.table (record { places = places; present = present; base = base.now }) [] }
    requires counted { IfSome base.now (λ b. present ≡ length b.nodes) }
    ensures { IfOk result (λ board. (board.list ≡ []) × (board.posted ≡ []) × (board.name.extent ≡ record { places = places; present = present; base = base.now })) }
{
    match base {
        Some(base) => Board::from_base(alloc, places, base, READERS),
        None => Board::new(alloc, places, present, READERS),
    }
}

fn prepare<R: Rules>(
    journal: &mut Journal<R>,
    event: Event,
    verdicts: Option<&[Verdict]>,
) -> Result<Prepared, RecordFault>
    requires { IfSome verdicts (λ verdicts. AreVerdicts R.table journal.old.state event verdicts.now) }
    ensures receipt { IfOk result (λ prepared. prepared ≡ next_receipt R.table (kept_of journal.old) event) }
    ensures ready { IfOk result (λ prepared. IsNextReceipt R.table journal.new prepared) }
    ensures full { IsErrOf result LogFull → last_number (kept_of journal.old) ≡ journal.old.limit }
    ensures kept { kept_of journal.new ≡ kept_of journal.old }
    ensures counting { journal.new.counting ≡ journal.old.counting }
{
    let Some(verdicts) = verdicts else {
        return journal.prepare(event);
    };
    match event {
        Event::Step(choice) => journal.prepare_step(choice, verdicts),
        event => journal.prepare(event),
    }
}

/// After the entry is posted nothing fails. The receipt goes from the journal to its place at once.
#[inline(always)]
fn finish<R: Rules, W: Wait>(
    journal: &mut Journal<R>,
    board: &mut Board<Runs<R>>,
    rt: &W,
    prepared: Prepared,
    receipts: &mut Vec<Receipt>,
) -> Result<RecordedEvent, AllocError>
    requires ready { IsNextReceipt R.table journal.old prepared }
    requires published { IsPublishedJournal R.table (kept_of journal.old) board.old }
    requires room { length receipts.old.items < vec_capacity receipts.old }
    ensures log { OnOk result (log_over (kept_of journal.new) board.new ≡ kept_with R.table (log_over (kept_of journal.old) board.old) prepared.event) }
    ensures base { journal.new.base ≡ journal.old.base }
    ensures published { IsPublishedJournal R.table (kept_of journal.new) board.new }
    ensures receipt { OnOk result (receipts.new.items ≡ receipts.old.items ++ next_receipt R.table (log_over (kept_of journal.old) board.old) prepared.event ∷ []) }
    ensures same_receipts { OnErr result (receipts.new.items ≡ receipts.old.items) }
    ensures reply { IfOk result (λ recorded. recorded.reply ≡ prepared.reply) }
    ensures note { IfOk result (λ recorded. (recorded.note.log ≡ board.new.list) × (recorded.note.book ≡ board.old.name.book) × (recorded.note.base ≡ board.old.name.extent.base)) }
    ensures name { board.new.name ≡ board.old.name }
    ensures kept { OnErr result ((kept_of journal.new ≡ kept_of journal.old) × (board.new.list ≡ board.old.list)) }
    ensures counting { OnOk result (journal.new.counting ≡ next_counting R.table prepared.reply journal.new.state journal.old.counting) }
    ensures kept_counting { OnErr result (journal.new.counting ≡ journal.old.counting) }
{
    let reply = prepared.receipt().reply.clone()?;
    let entry = prepared.entry();
    board.post(entry)?;
    let note = board.publish(rt, entry);
    receipts.push(journal.commit(prepared)).unwrap();
    Ok(RecordedEvent { reply, note })
}
