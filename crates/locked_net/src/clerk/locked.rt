//! A clerk's calls: each takes the network's lock, and frees it when it is done.

ghost use Rattle.std.specs.Prelude.{◌≡◌, ◌≢◌, ◌<◌, IfOk, IfErr, OnOk, MatchOption, Some, OnErr};
ghost use Rattle.rule_machine.specs.declared.event.Event.TheVariants.{Step};
ghost use Rattle.locked_net.specs.Nets.{book_of, setting_of};
ghost use Rattle.locked_net.specs.Receipts.{seen_by, greater_base};
ghost use Rattle.locked_net.specs.Calls.{Keeps, KeepsStep, KeepsFault};
ghost use Rattle.locked_net.specs.ClerkCalls.{each, some_of, ClerkCall};
ghost use Rattle.locked_net.specs.ChosenEvents.{ByDaemon, ByInjector, ClerkTakes, NoneIfEmpty, Refuses, RefusesStep, HoldsAll, RefusesCheckpoint};
ghost use Rattle.locked_net.specs.declared.fault.CallFault.TheVariants.{Memory};

use super::Clerk;
use crate::{CallFault, LockedNet, StepFault};
use daemon::Daemon;
use fault_injector::Injector;
use rand_core::Rng;
use rule_engine::{Choice, Event, Reply, Rules};
use std::sync::Wait;
use std::thread::Threads;
use steal_pool::Gate;

impl Clerk {
    /// Carries out an event on the network, keeps the receipt, and returns the reply.
    /// Waits for the network's lock, and for readers that still look at the previous copy.
    ///
    /// `Behind` if the number of the log's last entry is less than what this clerk has seen; otherwise
    /// `LogFull` if the log is full; otherwise `Memory` if memory runs out. After a fault nothing has changed.
    /// Takes the memory of a reply and what the journal takes; once the network has had a reader, also that
    /// of a copy of the entry.
    pub fn call<R: Rules, W: Wait>(
        &mut self,
        rt: &W,
        net: &LockedNet<R>,
        event: Event,
    ) -> Result<Reply, CallFault>
        ensures receipt { IfOk result (λ reply. Keeps self.old.receipts self.new.receipts event reply) }
        ensures call { ClerkCall each (book_of net.now) self.old self.new result }
        ensures refused { IfErr result (Refuses (setting_of R.table net.now) (seen_by self.old)) }
    {
        let mut held = net.hold(rt);
        let answer = held.call(rt, self, event);
        held.free();
        answer
    }

    /// Carries out a step, as `call` does; `workers` workers, at most 64, judge the step's items first.
    /// The workers work under the network's lock, which is kept until all have joined. Each worker passes
    /// the gate before each item.
    ///
    /// `Behind` and `LogFull` are checked before any item is judged; then `Pool(ZeroWorkers)` if `workers`
    /// is 0; then `Memory` if memory runs out. After a fault nothing has changed.
    pub fn step_with<R: Rules + Sync, G: Gate + Sync, T: Threads + Wait + Sync>(
        &mut self,
        rt: &T,
        net: &LockedNet<R>,
        choice: Choice,
        workers: u32,
        gate: &G,
    ) -> Result<Reply, StepFault>
        ensures receipt { IfOk result (λ reply. Keeps self.old.receipts self.new.receipts (Step choice) reply) }
        ensures call { ClerkCall each (book_of net.now) self.old self.new result }
        ensures some { OnOk result (0 < workers) }
        ensures refused { IfErr result (RefusesStep (setting_of R.table net.now) (seen_by self.old) workers) }
    {
        let mut held = net.hold(rt);
        let answer = held.step(rt, self, choice, workers, gate);
        held.free();
        answer
    }

    /// Lets a daemon choose among the enabled nodes, carries out that step, and returns its moves.
    /// The clerk keeps the receipt. Returns `None`, and records no entry, if the daemon chose nothing. Waits
    /// for the network's lock, and keeps the lock from the choice until the step is recorded.
    ///
    /// Faults are those of `call`. `Behind` and `LogFull` are checked before the daemon is asked. After
    /// `Memory` the daemon may have advanced; log and clerk are unchanged.
    pub fn drive_with<R: Rules, W: Wait, D: Daemon>(
        &mut self,
        rt: &W,
        net: &LockedNet<R>,
        daemon: &mut D,
    ) -> Result<Option<Reply>, CallFault>
        ensures step { IfOk result (λ answer. MatchOption answer (self.new ≡ self.old) (KeepsStep R.table.central self.old.receipts self.new.receipts)) }
        ensures chosen { IfOk result (ClerkTakes (setting_of R.table net.now) (ByDaemon D.chooses R.table daemon.old daemon.new) self.old self.new) }
        ensures call { ClerkCall some_of (book_of net.now) self.old self.new result }
        ensures refused { IfErr result (Refuses (setting_of R.table net.now) (seen_by self.old)) }
        ensures unasked { IfErr result (λ fault. (fault ≢ Memory) → daemon.new ≡ daemon.old) }
    {
        let mut held = net.hold(rt);
        let answer = held.drive(rt, self, daemon);
        held.free();
        answer
    }

    /// Lets an injector draw a register fault, carries out the fault, and returns the reply `Accepted`.
    /// The clerk keeps the receipt. Returns `None`, and records no entry, exactly if the network has no node
    /// then. Waits for the network's lock, and keeps the lock from the draw until the fault is recorded.
    ///
    /// Faults are those of `call`. `Behind` and `LogFull` are checked before a fault is drawn.
    pub fn fault_with<R: Rules, W: Wait, G: Rng>(
        &mut self,
        rt: &W,
        net: &LockedNet<R>,
        injector: &mut Injector<G>,
    ) -> Result<Option<Reply>, CallFault>
        ensures none { IfOk result (λ answer. ClerkTakes (setting_of R.table net.now) (NoneIfEmpty answer) self.old self.new answer) }
        ensures register { IfOk result (λ answer. MatchOption answer (self.new ≡ self.old) (KeepsFault self.old.receipts self.new.receipts)) }
        ensures drawn { IfOk result (ClerkTakes (setting_of R.table net.now) (ByInjector G.stream R.table injector.old injector.new) self.old self.new) }
        ensures call { ClerkCall some_of (book_of net.now) self.old self.new result }
        ensures refused { IfErr result (Refuses (setting_of R.table net.now) (seen_by self.old)) }
        ensures unasked { IfErr result (λ fault. (fault ≢ Memory) → injector.new ≡ injector.old) }
    {
        let mut held = net.hold(rt);
        let answer = held.fault(rt, self, injector);
        held.free();
        answer
    }

    /// Makes the present state the base of the network's log, and returns the base's number.
    /// All entries are dropped. The base's number is that of the last entry, dropped now or earlier; if there
    /// was no entry, that of the network's beginning, or 0. Later entries continue the numbers. A checkpoint
    /// is no event: it gives no receipt, and published entries stay published.
    ///
    /// `Behind` if the number of the log's last entry is less than what this clerk has seen; otherwise
    /// `Memory` if memory runs out. A full log is no fault. After a fault nothing has changed.
    /// Waits for the network's lock. Takes the memory and time of `Journal::checkpoint`.
    pub fn checkpoint<R: Rules, W: Wait>(
        &mut self,
        rt: &W,
        net: &LockedNet<R>,
    ) -> Result<u32, CallFault>
        ensures number { IfOk result (HoldsAll (setting_of R.table net.now) (seen_by self.old)) }
        ensures base { IfOk result (λ number. self.new ≡ record self.old { base = greater_base self.old.base (Some number) }) }
        ensures refused { IfErr result (RefusesCheckpoint (setting_of R.table net.now) (seen_by self.old)) }
        ensures kept { OnErr result (self.new ≡ self.old) }
    {
        let mut held = net.hold(rt);
        let answer = held.checkpoint(self);
        held.free();
        answer
    }

    pub(crate) fn take_base(&mut self, number: u32)
        ensures { self.new ≡ record self.old { base = greater_base self.old.base (Some number) } }
    {
        self.base = self.base.max(Some(number));
    }
}
