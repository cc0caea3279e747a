//! Looks at a network whose lock is held, and its rounds.

ghost use Rattle.std.specs.Prelude.{◌≡◌, IfOk, OnErr, OnOk};
ghost use Rattle.locked_net.specs.CountedLogs.{CountsWholeLog};
ghost use Rattle.rule_engine.specs.RoundsLeft.{LeavesIfCounted, rounds_left};
ghost use Rattle.step_log.specs.RetainedLogs.{moment_in};
ghost use Rattle.locked_net.specs.PublishedJournals.{counting_held};

use crate::HeldNet;
use rule_engine::{Net, NodeBound, Rules, Want};
use snapshots::{NoPlace, Note, Reader, Runs};
use std::sync::Wait;

impl<R: Rules> HeldNet<'_, R> {
    /// The network after the whole log, for looks at it: `Net::cost_of`, `is_at_rest`, `reach_of`, `rounds`.
    /// Clause `counted`: if counting began after an entry, or before a disturbance, the count is that of the
    /// entries since then, also of those that a checkpoint dropped.
    pub fn net(&self) -> &Net<R>
        ensures state { result.now.state ≡ self.now.log.state }
        ensures spent { result.now.spent ≡ self.now.log.spent }
        ensures counting { result.now.counting ≡ self.now.counting }
        ensures counted { CountsWholeLog R.table self.now.log self.now.counted_from self.now.counting }
    {
        self.published.net()
    }

    /// A note of what is published: the whole log under the lock. Takes no memory.
    pub fn note(&self) -> Note
        ensures { (result.log ≡ self.now.log.entries) × (result.book ≡ self.now.name.book) }
    {
        self.published.note()
    }

    pub(crate) fn reader<W: Wait>(&mut self, rt: &W) -> Result<Reader<Runs<R>>, NoPlace>
        ensures kept { self.new ≡ self.old }
        ensures name { IfOk result (λ reader. reader.name ≡ self.old.name) }
        ensures seen { IfOk result (λ reader. (reader.list ≡ self.old.log.entries) × (reader.learnt ≡ self.old.log.entries)) }
    {
        self.published.reader(rt)
    }

    /// Counts rounds from here on, or from here anew; then `net().rounds()` is the count.
    /// Later holders of the lock count on. See `Net::count_rounds`, also for the cost.
    /// `AllocError` if memory runs out; nothing has changed then.
    pub fn count_rounds(&mut self) -> Result<(), Want>
        ensures ok { OnOk result (self.new ≡ counting_held R.table self.old) }
        ensures err { OnErr result (self.new ≡ self.old) }
    {
        self.published.count_rounds()
    }
}

impl<R: NodeBound> HeldNet<'_, R> {
    /// The most rounds that can still be completed before the next accepted disturbance; `None` if rounds are
    /// not counted, 0 in silence. See `Net::rounds_left`, also for the cost.
    pub fn rounds_left(&mut self) -> Option<u32>
        ensures value { result ≡ rounds_left R.table R.most R.rounds self.old.log.state self.old.counting }
        ensures left { LeavesIfCounted R.table (moment_in self.old.log) self.old.counting result }
        ensures kept { self.new ≡ self.old }
    {
        self.published.rounds_left()
    }
}
