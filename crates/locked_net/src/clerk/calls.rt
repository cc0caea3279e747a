//! How a clerk that may call records an event and keeps the receipt.

ghost use Rattle.std.specs.Prelude.{◌≡◌, ◌<◌, ◌≤◌, None, Some, IfOk, IfErr, IfSome, OnOk};
ghost use Rattle.round_laws.specs.RoundCounts.{next_counting};
ghost use Rattle.step_log.specs.RetainedLogs.{last_number};
ghost use Rattle.locked_net.specs.WholeLogs.{IsWholeLog};
ghost use Rattle.locked_net.specs.Receipts.{seen_by};
ghost use Rattle.locked_net.specs.Calls.{AreVerdicts, call_fault, RecordsEvent};
ghost use Rattle.locked_net.specs.ClerkCalls.{each, HeldCall};
ghost use Rattle.locked_net.specs.declared.fault.CallFault.TheVariants.{Behind, Memory};

use super::Clerk;
use crate::CallFault;
use crate::published_journal::{PublishedJournal, RecordedEvent};
use rule_engine::{Event, Reply, Rules, Verdict};
use std::sync::Wait;

impl Clerk {
    /// The number of the last entry, if the clerk has seen no greater number.
    pub(crate) fn keeps_up<R: Rules>(
        &self,
        published: &PublishedJournal<R>,
    ) -> Result<u32, CallFault>
        ensures run { IsWholeLog R.table published.now.log }
        ensures front { IfOk result (λ front. front ≡ last_number published.now.log) }
        ensures all { OnOk result (seen_by self.now ≤ last_number published.now.log) }
        ensures fault { IfErr result (λ fault. (last_number published.now.log < seen_by self.now) × (fault ≡ Behind (last_number published.now.log) (seen_by self.now))) }
    {
        let (front, seen) = (published.len(), self.seen());
        if front < seen {
            return Err(CallFault::Behind { front, seen });
        }
        Ok(front)
    }

    pub(crate) fn may_call<R: Rules>(
        &self,
        published: &PublishedJournal<R>,
    ) -> Result<(), CallFault>
        ensures run { IsWholeLog R.table published.now.log }
        ensures free { OnOk result (call_fault (seen_by self.now) published.now.log ≡ None) }
        ensures fault { IfErr result (λ fault. call_fault (seen_by self.now) published.now.log ≡ Some fault) }
    {
        self.keeps_up(published)?;
        if published.is_full() {
            return Err(CallFault::LogFull);
        }
        Ok(())
    }

    pub(crate) fn record_on<R: Rules, W: Wait>(
        &mut self,
        rt: &W,
        published: &mut PublishedJournal<R>,
        event: Event,
        verdicts: Option<&[Verdict]>,
    ) -> Result<Reply, CallFault>
        requires free { call_fault (seen_by self.old) published.old.log ≡ None }
        requires judged { IfSome verdicts (λ verdicts. AreVerdicts R.table published.old.log.state event verdicts.now) }
        ensures recorded { IfOk result (RecordsEvent R.table published.old.log published.new.log self.old.receipts self.new.receipts event) }
        ensures call { HeldCall each published.old published.new self.old self.new result }
        ensures counting { IfOk result (λ reply. published.new.counting ≡ next_counting R.table reply published.new.log.state published.old.counting) }
        ensures fault { IfErr result (λ fault. fault ≡ Memory) }
    {
        self.receipts.reserve(1)?;
        let recorded = published.record(rt, event, verdicts, &mut self.receipts)?;
        let RecordedEvent { reply, note } = recorded;
        self.note = Some(note);
        Ok(reply)
    }
}
