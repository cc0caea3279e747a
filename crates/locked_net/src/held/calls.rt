//! Calls of a network whose lock is held.

ghost use Rattle.std.specs.Prelude.{◌≡◌, IfOk, ◌≢◌, ◌↔◌, IsNone, IfErr, IfSome, MatchOption, ◌++◌, None, OnOk, Some, OnErr};
ghost use Rattle.round_laws.specs.RoundCounts.{next_counting};
ghost use Rattle.locked_net.specs.Receipts.{seen_by, greater_base};
ghost use Rattle.locked_net.specs.Calls.{call_fault, RecordsEvent, Drives, Breaks, checkpoint_fault};
ghost use Rattle.locked_net.specs.ClerkCalls.{each, Admits, HeldCall, AdmitsStep, some_of};
ghost use Rattle.rule_machine.specs.declared.event.Event.TheVariants.{Step};
ghost use Rattle.rule_machine.specs.Network.{node_count};
ghost use Rattle.locked_net.specs.ChosenEvents.{ByDaemon, ByInjector, ChoosesOn};
ghost use Rattle.locked_net.specs.declared.fault.CallFault.TheVariants.{Memory};
ghost use Rattle.locked_net.specs.WholeLogs.{IsWholeLog};
ghost use Rattle.locked_net.specs.RoamTurns.{mover, log_after_turn, receipts_of_turn, fault_of_turn, FaultInTurn};
ghost use Rattle.step_log.specs.RetainedLogs.{last_number};
ghost use Rattle.locked_net.specs.PublishedJournals.{based};

use crate::published_journal::PublishedJournal;
use crate::{CallFault, Clerk, HeldNet, StepFault};
use daemon::Daemon;
use fault_injector::Injector;
use rand_core::Rng;
use rule_engine::{Choice, Event, Item, Node, Reply, Rules};
use std::sync::Wait;
use std::thread::Threads;
use steal_pool::{Gate, evaluate};

impl<R: Rules> HeldNet<'_, R> {
    /// Whether the clerk may call now; the error is the fault that each call finds before it takes memory.
    pub fn may_call(&self, clerk: &Clerk) -> Result<(), CallFault>
        ensures free { OnOk result (call_fault (seen_by clerk.now) self.now.log ≡ None) }
        ensures fault { IfErr result (λ fault. call_fault (seen_by clerk.now) self.now.log ≡ Some fault) }
    {
        clerk.may_call(&self.published)
    }

    /// Carries out an event: `Clerk::call` under a held lock, with the same faults in the same order.
    pub fn call<W: Wait>(
        &mut self,
        rt: &W,
        clerk: &mut Clerk,
        event: Event,
    ) -> Result<Reply, CallFault>
        ensures recorded { IfOk result (RecordsEvent R.table self.old.log self.new.log clerk.old.receipts clerk.new.receipts event) }
        ensures call { HeldCall each self.old self.new clerk.old clerk.new result }
        ensures counting { IfOk result (λ reply. self.new.counting ≡ next_counting R.table reply self.new.log.state self.old.counting) }
        ensures admitted { Admits (call_fault (seen_by clerk.old) self.old.log) result }
    {
        self.may_call(clerk)?;
        self.record(rt, clerk, event)
    }

    fn record<W: Wait>(
        &mut self,
        rt: &W,
        clerk: &mut Clerk,
        event: Event,
    ) -> Result<Reply, CallFault>
        requires { call_fault (seen_by clerk.old) self.old.log ≡ None }
        ensures recorded { IfOk result (RecordsEvent R.table self.old.log self.new.log clerk.old.receipts clerk.new.receipts event) }
        ensures call { HeldCall each self.old self.new clerk.old clerk.new result }
        ensures counting { IfOk result (λ reply. self.new.counting ≡ next_counting R.table reply self.new.log.state self.old.counting) }
        ensures fault { IfErr result (λ fault. fault ≡ Memory) }
    {
        clerk.record_on(rt, &mut self.published, event, None)
    }

    /// Lets a daemon choose a step among the enabled nodes: `Clerk::drive_with` under a held lock.
    pub fn drive<W: Wait, D: Daemon>(
        &mut self,
        rt: &W,
        clerk: &mut Clerk,
        daemon: &mut D,
    ) -> Result<Option<Reply>, CallFault>
        ensures step { IfOk result (λ answer. MatchOption answer
            ((clerk.new ≡ clerk.old) × (self.new ≡ self.old))
            (λ reply. Drives R.table self.old.log self.new.log clerk.old.receipts clerk.new.receipts reply)) }
        ensures chosen { IfOk result (ChoosesOn R.table self.old.log (ByDaemon D.chooses R.table daemon.old daemon.new) clerk.old.receipts clerk.new.receipts) }
        ensures call { HeldCall some_of self.old self.new clerk.old clerk.new result }
        ensures counting { IfOk result (λ answer. IfSome answer (λ reply. self.new.counting ≡ next_counting R.table reply self.new.log.state self.old.counting)) }
        ensures admitted { Admits (call_fault (seen_by clerk.old) self.old.log) result }
        ensures unasked { IfErr result (λ fault. (fault ≢ Memory) → daemon.new ≡ daemon.old) }
    {
        self.may_call(clerk)?;
        match daemon.choose(self.net().enabled(), R::CENTRAL)? {
            Some(choice) => Ok(Some(self.record(rt, clerk, Event::Step(choice))?)),
            None => Ok(None),
        }
    }

    /// Lets an injector draw a register fault: `Clerk::fault_with` under a held lock.
    pub fn fault<W: Wait, G: Rng>(
        &mut self,
        rt: &W,
        clerk: &mut Clerk,
        injector: &mut Injector<G>,
    ) -> Result<Option<Reply>, CallFault>
        ensures register { IfOk result (λ answer. MatchOption answer
            ((clerk.new ≡ clerk.old) × (self.new ≡ self.old))
            (λ reply. Breaks R.table self.old.log self.new.log clerk.old.receipts clerk.new.receipts reply)) }
        ensures drawn { IfOk result (ChoosesOn R.table self.old.log (ByInjector G.stream R.table injector.old injector.new) clerk.old.receipts clerk.new.receipts) }
        ensures none { IfOk result (λ answer. IsNone answer ↔ (node_count self.old.log.state.network ≡ 0)) }
        ensures call { HeldCall some_of self.old self.new clerk.old clerk.new result }
        ensures counting { IfOk result (λ answer. IfSome answer (λ reply. self.new.counting ≡ next_counting R.table reply self.new.log.state self.old.counting)) }
        ensures admitted { Admits (call_fault (seen_by clerk.old) self.old.log) result }
        ensures unasked { IfErr result (λ fault. (fault ≢ Memory) → injector.new ≡ injector.old) }
    {
        self.may_call(clerk)?;
        match injector.draw(self.net()) {
            Some(event) => Ok(Some(self.record(rt, clerk, event)?)),
            None => Ok(None),
        }
    }

    /// Lets the node whose turn it is move alone, if any is enabled; `None` if none is.
    /// `Behind` comes in both cases, other faults only if a node is enabled.
    pub(crate) fn roam<W: Wait>(
        &mut self,
        rt: &W,
        clerk: &mut Clerk,
        turn: u32,
    ) -> Result<Option<Reply>, CallFault>
        ensures log { OnOk result (self.new.log ≡ log_after_turn R.table self.old.log turn) }
        ensures receipt { OnOk result (clerk.new.receipts ≡ clerk.old.receipts ++ receipts_of_turn R.table self.old.log turn) }
        ensures call { HeldCall some_of self.old self.new clerk.old clerk.new result }
        ensures free { OnOk result (fault_of_turn R.table (seen_by clerk.old) self.old.log turn ≡ None) }
        ensures fault { IfErr result (λ fault. FaultInTurn R.table (seen_by clerk.old) self.old.log turn fault) }
    {
        match next_mover(&self.published, turn) {
            Some(node) => {
                let choice = Choice::one(Item { node, wish: None });
                Ok(Some(self.call(rt, clerk, Event::Step(choice))?))
            }
            None => {
                clerk.keeps_up(&self.published)?;
                Ok(None)
            }
        }
    }

    /// Makes the present state the base of the log: `Clerk::checkpoint` under a held lock, with its faults.
    pub fn checkpoint(&mut self, clerk: &mut Clerk) -> Result<u32, CallFault>
        ensures number { IfOk result (λ number. number ≡ last_number self.old.log) }
        ensures held { OnOk result (self.new ≡ based self.old) }
        ensures base { IfOk result (λ number. clerk.new ≡ record clerk.old { base = greater_base clerk.old.base (Some number) }) }
        ensures admitted { Admits (checkpoint_fault (seen_by clerk.old) self.old.log) result }
        ensures kept { OnErr result ((clerk.new ≡ clerk.old) × (self.new ≡ self.old)) }
    {
        clerk.keeps_up(&self.published)?;
        let number = self.published.checkpoint()?;
        clerk.take_base(number);
        Ok(number)
    }
}

impl<R: Rules + Sync> HeldNet<'_, R> {
    /// Carries out a step that workers judge: `Clerk::step_with` under a held lock.
    pub fn step<G: Gate + Sync, T: Threads + Wait + Sync>(
        &mut self,
        rt: &T,
        clerk: &mut Clerk,
        choice: Choice,
        workers: u32,
        gate: &G,
    ) -> Result<Reply, StepFault>
        ensures recorded { IfOk result (RecordsEvent R.table self.old.log self.new.log clerk.old.receipts clerk.new.receipts (Step choice)) }
        ensures call { HeldCall each self.old self.new clerk.old clerk.new result }
        ensures counting { IfOk result (λ reply. self.new.counting ≡ next_counting R.table reply self.new.log.state self.old.counting) }
        ensures admitted { AdmitsStep (call_fault (seen_by clerk.old) self.old.log) workers result }
    {
        self.may_call(clerk)?;
        let verdicts = evaluate(
            rt,
            self.net.alloc(),
            self.published.net(),
            &choice,
            workers,
            gate,
        )?;
        let event = Event::Step(choice);
        Ok(clerk.record_on(rt, &mut self.published, event, Some(&verdicts))?)
    }
}

fn next_mover<R: Rules>(published: &PublishedJournal<R>, turn: u32) -> Option<Node>
    ensures mover { result ≡ mover R.table published.now.log.state turn }
    ensures run { IsWholeLog R.table published.now.log }
{
    let enabled = published.net().enabled();
    match enabled.count() {
        0 => None,
        count => enabled.nth(turn % count),
    }
}
