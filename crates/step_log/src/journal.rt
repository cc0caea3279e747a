//! A network with its log.

ghost use Rattle.std.specs.Prelude.{◌≡◌, ◌<◌, ◌≤◌, ◌+◌, ◌-◌, ◌⊎◌, ◌↔◌, All, length, min, IfOk, IfErr, OnOk, OnErr, IsErrOf, IsTrue, None, Some, slice_get, vec_capacity};
ghost use Rattle.graph_store.specs.Fault.{nodes_fault, ExplainsGraphFault};
ghost use Rattle.rule_machine.specs.declared.event.Event.TheVariants.{Step};
ghost use Rattle.rule_engine.specs.ChoiceMoves.{verdicts_of};
ghost use Rattle.rule_engine.specs.PreparedEvents.{net_moment};
ghost use Rattle.step_log.specs.BaseStarts.{resumed_log};
ghost use Rattle.step_log.specs.declared.fault.RecordFault.TheVariants.{LogFull};
ghost use Rattle.step_log.specs.declared.fault.NoEntry.TheVariants.{Forgotten, Beyond};
ghost use Rattle.round_laws.specs.RoundCounts.{next_counting};
ghost use Rattle.step_log.specs.Epochs.{AreEpochs, IsEpochWithinBound};
ghost use Rattle.rule_machine.specs.Base.{dropped};
ghost use Rattle.step_log.specs.Log.{max_entries, empty_log, empty_log_with};
ghost use Rattle.step_log.specs.RetainedLogs.{IsRetainedRun, last_number, whole, kept_with, next_receipt};
ghost use Rattle.step_log.specs.JournalViews.{IsNextReceipt, counting_journal, kept_of};
ghost use Rattle.step_log.specs.Headline.{Upholds};
ghost use Rattle.step_log.specs.JournalRounds.{AreEpochRounds, CountsKept};

use crate::epoch::Epochs;
use crate::{Epoch, MAX_ENTRIES, NoEntry, Prepared, Receipt, RecordFault};
use log_entry::Entry;
use rule_engine::{Choice, Event, GraphFault, Net, Node, Reply, Rules, Verdict, Want};
use rule_machine::{Base, EpochStart, MAX_NAME};
use std::alloc::Global;
use std::marker::Model;
use std::mem::size_of;

// The size of an entry in the log, without its lists.
const _: () = prove!(size_of::<Entry>() <= 80);

/// A network under the rules `R` with the log of its events and their replies.
/// The log is a run of the rule machine, from the opening state or a checkpoint's base to the network's
/// state.
/// Contracts also see the room left for neighbours, entries and epochs.
#[derive(Drop)]
pub struct Journal<R: Rules> {
    pub(crate) alloc: Global,
    pub(crate) net: Net<R>,
    pub(crate) base: Option<Base>,
    pub(crate) entries: Vec<Entry>,
    pub(crate) limit: u32,
    pub(crate) present: u32,
    pub(crate) epochs: Epochs,
    pub(crate) counted_from: Option<u32>,
}

impl<R: Rules> Model for Journal<R> {
    ghost use Rattle.std.specs.Prelude.{◌-◌, length, vec_capacity};
    ghost use Rattle.std.specs.Coded.{codes};
    ghost use Rattle.rule_machine.specs.State.{state_code};
    ghost use Rattle.step_log.specs.JournalRounds.{IsCountedJournal};
    ghost use Rattle.step_log.specs.JournalViews.{JournalView, kept_at};

    ghost Value = { JournalView };

    ghost coded = { Prim.hlevel (codes, state_code) };

    ghost view = { λ j. record {
      state = j.net.state;
      spent = j.net.spent;
      base = j.base;
      entries = j.entries.items;
      limit = j.limit;
      present = j.present;
      room = j.net.room;
      spare = vec_capacity j.entries - length j.entries.items;
      spare_epochs = vec_capacity j.epochs.over - length j.epochs.over.items;
      counting = j.net.counting;
      counted_from = j.counted_from;
    } };

    ghost invariant = { λ j. IsCountedJournal R.table R.NODE_WEIGHT (kept_at j.net j.base j.entries.items j.limit j.present) j.epochs.over.items j.epochs.begun j.counted_from j.net.counting };
}

impl<R: Rules> Journal<R> {
    /// The journal of a new network of the nodes 1 to `nodes`, with a limit of 16,777,216 entries.
    /// `TooManyNodes` above 65,535 nodes; `Memory` if memory runs out.
    pub fn new(alloc: Global, nodes: u32) -> Result<Journal<R>, GraphFault>
        ensures ok { IfOk result (λ journal. kept_of journal ≡ whole (empty_log nodes max_entries)) }
        ensures uncounted { IfOk result (λ journal. journal.counting ≡ None) }
        ensures small { OnOk result (nodes ≤ 65535) }
        ensures fault { IfErr result (λ fault. ExplainsGraphFault (nodes_fault nodes) fault) }
    {
        Journal::with_limit(alloc, nodes, MAX_ENTRIES)
    }

    /// Like `new`, with a limit of `limit` entries; a limit above 16,777,216 counts as 16,777,216.
    pub fn with_limit(alloc: Global, nodes: u32, limit: u32) -> Result<Journal<R>, GraphFault>
        ensures ok { IfOk result (λ journal. kept_of journal ≡ whole (empty_log nodes (min limit max_entries))) }
        ensures uncounted { IfOk result (λ journal. journal.counting ≡ None) }
        ensures small { OnOk result (nodes ≤ 65535) }
        ensures fault { IfErr result (λ fault. ExplainsGraphFault (nodes_fault nodes) fault) }
    {
        Journal::with_present(alloc, nodes, nodes, limit)
    }

    /// Like `with_limit`, but only the names 1 to `present` are nodes at the start.
    /// `TooManyNodes` above 65,535 names; `Memory` if memory runs out.
    pub fn with_present(
        alloc: Global,
        nodes: u32,
        present: u32,
        limit: u32,
    ) -> Result<Journal<R>, GraphFault>
        requires within { present ≤ nodes }
        ensures ok { IfOk result (λ journal. kept_of journal ≡ whole (empty_log_with nodes present (min limit max_entries))) }
        ensures uncounted { IfOk result (λ journal. journal.counting ≡ None) }
        ensures small { OnOk result (nodes ≤ 65535) }
        ensures fault { IfErr result (λ fault. ExplainsGraphFault (nodes_fault nodes) fault) }
    {
        Ok(Journal {
            alloc,
            net: Net::with_present(alloc, nodes, present)?,
            base: None,
            entries: Vec::new(alloc),
            limit: limit.min(MAX_ENTRIES),
            present,
            epochs: Epochs::new(alloc, EpochStart::At(0)),
            counted_from: None,
        })
    }

    /// The journal of a network that goes on after `number` entries: the base is the network's moment.
    /// The limit is that of `Recorder::of_net`. It counts rounds if the network does.
    /// `AllocError` if memory runs out. Costs what a checkpoint costs.
    pub fn of_net(alloc: Global, net: Net<R>, number: u32, limit: u32) -> Result<Journal<R>, Want>
        requires few { number ≤ max_entries }
        ensures kept { IfOk result (λ journal. kept_of journal ≡ resumed_log (net_moment net) number limit) }
        ensures counting { IfOk result (λ journal. journal.counting ≡ net.counting) }
    {
        let base = net.base(number)?;
        let present = net.store().nodes();
        prove!(net.store().capacity() <= MAX_NAME);
        Ok(Journal {
            alloc,
            net,
            base: Some(base),
            entries: Vec::new(alloc),
            limit: number.max(limit.min(MAX_ENTRIES)),
            present,
            epochs: Epochs::new(alloc, EpochStart::Forgotten),
            counted_from: None,
        })
    }

    /// The number of the last entry, kept or dropped; 0 before the first.
    pub fn len(&self) -> u32
        ensures number { result ≡ last_number (kept_of self.now) }
        ensures run { IsRetainedRun R.table R.NODE_WEIGHT (kept_of self.now) }
    {
        self.dropped() + self.entries.len() as u32
    }

    /// The greatest number that an entry may have, at most 16,777,216.
    pub fn limit(&self) -> u32
        ensures { result ≡ self.now.limit }
    {
        self.limit
    }

    /// The entry with this number.
    /// `Forgotten` if the number is from 1 to the base's; `Beyond` if the number is 0 or above `len`.
    pub fn entry(&self, number: u32) -> Result<&Entry, NoEntry>
        ensures found { IfOk result (λ entry. (dropped self.now.base < number) × (slice_get self.now.entries (number - dropped self.now.base - 1) ≡ Some entry.now)) }
        ensures forgotten { IsErrOf result Forgotten ↔ ((0 < number) × (number ≤ dropped self.now.base)) }
        ensures beyond { IsErrOf result Beyond ↔ ((number ≡ 0) ⊎ (last_number (kept_of self.now) < number)) }
    {
        if number == 0 {
            return Err(NoEntry::Beyond);
        }
        let Some(place) = number.checked_sub(self.dropped() + 1) else {
            return Err(NoEntry::Forgotten);
        };
        match self.entries.get(place as usize) {
            Some(entry) => Ok(entry),
            None => Err(NoEntry::Beyond),
        }
    }

    /// The network after all entries, for looks at it: `Net::spent`, `cost_of`, `silent_cost_of`, `is_at_rest`,
    /// `reach_of`, `rounds`.
    /// Clause `counted`: if counting began after a kept entry, or before a kept disturbance, the count is that
    /// of the kept entries since then.
    pub fn net(&self) -> &Net<R>
        ensures state { result.now.state ≡ self.now.state }
        ensures spent { result.now.spent ≡ self.now.spent }
        ensures room { result.now.room ≡ self.now.room }
        ensures counting { result.now.counting ≡ self.now.counting }
        ensures counted { CountsKept R.table R.NODE_WEIGHT (kept_of self.now) self.now.counted_from self.now.counting }
        ensures run { IsRetainedRun R.table R.NODE_WEIGHT (kept_of self.now) }
        ensures upheld { Upholds R.table R.NODE_WEIGHT (kept_of self.now) }
    {
        &self.net
    }

    /// Counts rounds from here on, or from here anew. See `Net::count_rounds`, also for the cost.
    /// `AllocError` if memory runs out; nothing has changed then.
    pub fn count_rounds(&mut self) -> Result<(), Want>
        ensures ok { OnOk result (self.new ≡ counting_journal R.table self.old) }
        ensures err { OnErr result (self.new ≡ self.old) }
    {
        let last = self.len();
        self.net.count_rounds()?;
        self.counted_from = Some(last);
        Ok(())
    }

    /// The epochs of the log, in order. The last epoch ends now.
    /// The first epoch begins at the start or contains the base. The moves of an epoch are at most twice its
    /// edges plus the rules' weight for each of its nodes.
    /// The rounds of an epoch are `net().rounds()` at its end, before the disturbance that ended it, or now.
    /// Clause `rounds`: if a count began at the epoch's start or within it, they are the rounds of the entries
    /// from there on. A count that begins anew leaves the rounds of earlier epochs unchanged.
    /// `AllocError` if memory runs out. The result is copied from a list that the journal keeps as the log
    /// grows.
    pub fn epochs(&self) -> Result<Vec<Epoch>, Want>
        ensures epochs { IfOk result (λ epochs. AreEpochs R.table R.NODE_WEIGHT (kept_of self.now) epochs.items) }
        ensures bound { IfOk result (λ epochs. All (IsEpochWithinBound R.NODE_WEIGHT) epochs.items) }
        ensures rounds { IfOk result (λ epochs. AreEpochRounds R.table R.NODE_WEIGHT (kept_of self.now) self.now.counted_from self.now.counting epochs.items) }
    {
        self.epochs.list(self.alloc, &self.net)
    }

    /// Whether the log has reached its limit.
    pub fn is_full(&self) -> bool
        ensures { IsTrue result ↔ (last_number (kept_of self.now) ≡ self.now.limit) }
    {
        self.len() >= self.limit
    }

    /// The entry that `record` would add for an event, with its receipt. Takes all memory for `commit`.
    /// `commit` then records the entry and cannot fail. The log and the network do not change, also if the
    /// prepared entry is dropped.
    /// Faults are those of `record`.
    pub fn prepare(&mut self, event: Event) -> Result<Prepared, RecordFault>
        ensures receipt { IfOk result (λ prepared. prepared ≡ next_receipt R.table (kept_of self.old) event) }
        ensures ready { IfOk result (λ prepared. IsNextReceipt R.table self.new prepared) }
        ensures full { IsErrOf result LogFull ↔ (last_number (kept_of self.old) ≡ self.old.limit) }
        ensures kept { kept_of self.new ≡ kept_of self.old }
        ensures counting { self.new.counting ≡ self.old.counting }
        ensures from { self.new.counted_from ≡ self.old.counted_from }
    {
        let seq = self.make_room()?;
        let reply = self.net.prepare(&event)?;
        self.epochs.make_room(&reply)?;
        Ok(Prepared::new(seq, event, reply)?)
    }

    /// Like `prepare`, for the entry that `record_step` would add. No guard is evaluated again.
    pub fn prepare_step(
        &mut self,
        choice: Choice,
        verdicts: &[Verdict],
    ) -> Result<Prepared, RecordFault>
        requires { verdicts.now ≡ verdicts_of R.table self.old.state choice }
        ensures receipt { IfOk result (λ prepared. prepared ≡ next_receipt R.table (kept_of self.old) (Step choice)) }
        ensures ready { IfOk result (λ prepared. IsNextReceipt R.table self.new prepared) }
        ensures full { IsErrOf result LogFull ↔ (last_number (kept_of self.old) ≡ self.old.limit) }
        ensures kept { kept_of self.new ≡ kept_of self.old }
        ensures counting { self.new.counting ≡ self.old.counting }
        ensures from { self.new.counted_from ≡ self.old.counted_from }
    {
        let seq = self.make_room()?;
        let reply = self.net.prepare_step(&choice, verdicts)?;
        self.epochs.make_room(&reply)?;
        Ok(Prepared::new(seq, Event::Step(choice), reply)?)
    }

    /// Carries out and records an entry that this journal prepared, and returns the receipt.
    /// Since the entry was prepared, the journal must have recorded nothing and made no checkpoint. Takes no
    /// memory.
    #[inline(always)]
    pub fn commit(&mut self, prepared: Prepared) -> Receipt
        requires { IsNextReceipt R.table self.old prepared }
        ensures receipt { result ≡ prepared }
        ensures log { kept_of self.new ≡ kept_with R.table (kept_of self.old) prepared.event }
        ensures counting { self.new.counting ≡ next_counting R.table prepared.reply self.new.state self.old.counting }
        ensures from { self.new.counted_from ≡ self.old.counted_from }
    {
        let (entry, receipt) = prepared.parts();
        self.epochs.turn(receipt.seq, entry.reply(), &self.net);
        self.net.commit(entry.event(), entry.reply());
        self.entries.push(entry).unwrap();
        receipt
    }

    /// Carries out an event, logs it with the reply as a new entry, and returns the entry's receipt.
    /// The receipt contains copies of the event and the reply.
    /// `LogFull` exactly if `len` is the limit, before any other fault; `Memory` if memory runs out.
    /// After a fault nothing has changed.
    pub fn record(&mut self, event: Event) -> Result<Receipt, RecordFault>
        ensures receipt { IfOk result (λ receipt. receipt ≡ next_receipt R.table (kept_of self.old) event) }
        ensures log { OnOk result (kept_of self.new ≡ kept_with R.table (kept_of self.old) event) }
        ensures full { IsErrOf result LogFull ↔ (last_number (kept_of self.old) ≡ self.old.limit) }
        ensures kept { OnErr result (kept_of self.new ≡ kept_of self.old) }
        ensures counting { IfOk result (λ receipt. self.new.counting ≡ next_counting R.table receipt.reply self.new.state self.old.counting) }
        ensures kept_counting { OnErr result (self.new.counting ≡ self.old.counting) }
        ensures from { self.new.counted_from ≡ self.old.counted_from }
    {
        let prepared = self.prepare(event)?;
        Ok(self.commit(prepared))
    }

    /// Carries out and logs a step from the verdicts of the step's items, with the result of `record`.
    /// Evaluates no guard again to find the reply. Faults are those of `record`.
    pub fn record_step(
        &mut self,
        choice: Choice,
        verdicts: &[Verdict],
    ) -> Result<Receipt, RecordFault>
        requires { verdicts.now ≡ verdicts_of R.table self.old.state choice }
        ensures receipt { IfOk result (λ receipt. receipt ≡ next_receipt R.table (kept_of self.old) (Step choice)) }
        ensures log { OnOk result (kept_of self.new ≡ kept_with R.table (kept_of self.old) (Step choice)) }
        ensures full { IsErrOf result LogFull ↔ (last_number (kept_of self.old) ≡ self.old.limit) }
        ensures kept { OnErr result (kept_of self.new ≡ kept_of self.old) }
        ensures counting { IfOk result (λ receipt. self.new.counting ≡ next_counting R.table receipt.reply self.new.state self.old.counting) }
        ensures kept_counting { OnErr result (self.new.counting ≡ self.old.counting) }
        ensures from { self.new.counted_from ≡ self.old.counted_from }
    {
        let prepared = self.prepare_step(choice, verdicts)?;
        Ok(self.commit(prepared))
    }

    fn make_room(&mut self) -> Result<u32, RecordFault>
        ensures number { IfOk result (λ number. number ≡ last_number (kept_of self.old) + 1) }
        ensures below { OnOk result (last_number (kept_of self.old) < self.old.limit) }
        ensures room { OnOk result (0 < self.new.spare) }
        ensures kept { kept_of self.new ≡ kept_of self.old }
        ensures net { self.new.room ≡ self.old.room }
        ensures epochs { self.new.spare_epochs ≡ self.old.spare_epochs }
        ensures counting { self.new.counting ≡ self.old.counting }
        ensures from { self.new.counted_from ≡ self.old.counted_from }
        ensures full { IsErrOf result LogFull ↔ (last_number (kept_of self.old) ≡ self.old.limit) }
    {
        let last = self.len();
        if last >= self.limit {
            return Err(RecordFault::LogFull);
        }
        self.entries.reserve(1)?;
        Ok(last + 1)
    }
}
