//! Wait-free readers of a network.

ghost use Rattle.std.specs.Prelude.{◌≡◌, ◌+◌, false, length, IsTrue, IfOk, IfSome, OnOk, OnErr, IsErrOf};
ghost use mathlib.Core.List.{IsPrefix};
ghost use Rattle.rule_machine.specs.Base.{dropped};
ghost use Rattle.rule_machine.specs.Network.{present};
ghost use Rattle.rule_machine.specs.State.{pointer};
ghost use Rattle.snapshots.specs.History.{IsOneLog, AreOneLog, AreComparable};
ghost use Rattle.snapshots.specs.Row.{partner_in};
ghost use Rattle.locked_net.specs.Receipts.{StandsLast};
ghost use Rattle.locked_net.specs.ReaderAnswers.{Shows, OnView, IfUnknown};
ghost use Rattle.locked_net.specs.declared.fault.ReadFault.TheVariants.{NoView as NoLook};

use crate::{Clerk, NoView, ReadFault};
use rule_engine::{Node, Rules};
use snapshots::{Reader, Runs, Snapshot};
use std::marker::Model;

/// A node's pointer at one moment.
#[derive(Clone, Copy, Debug, PartialEq, Eq)]
pub struct SeenPointer {
    /// The number of the last entry published then; 0 if there was none.
    pub front: u32,
    /// The node's target, if any.
    pub pointer: Option<Node>,
}

/// A node's partner at one moment.
#[derive(Clone, Copy, Debug, PartialEq, Eq)]
pub struct SeenPartner {
    /// The number of the last entry published then; 0 if there was none.
    pub front: u32,
    /// The node's target, if the target pointed back.
    pub partner: Option<Node>,
}

/// A wait-free reader of a network. Takes no memory.
/// Contracts see the reader's view, which is the entries that the reader saw last; the entries that each
/// later view includes; and the network's name. A view is a prefix of the network's whole log, and grows. It
/// begins at the network's base, if the network began at one. A reader does not see a checkpoint.
#[derive(Drop)]
pub struct BoardReader<R: Rules> {
    reader: Reader<Runs<R>>,
}

impl<R: Rules> Model for BoardReader<R> {
    ghost use Rattle.std.specs.Coded.{codes};
    ghost use Rattle.logbook.specs.Pages.{book_coded};
    ghost use Rattle.snapshots.specs.Views.{ReaderView};

    ghost Value = { ReaderView };

    ghost coded = { Prim.hlevel (codes, book_coded) };

    ghost view = { λ r. r.reader };
}

impl<R: Rules> BoardReader<R> {
    pub(crate) fn over(reader: Reader<Runs<R>>) -> BoardReader<R>
        ensures { result ≡ reader }
    {
        BoardReader { reader }
    }

    /// The number of the last published entry, and the pointer and the partner of `v` then.
    fn look(&mut self, v: Node) -> Result<(u32, (Option<Node>, Option<Node>)), ReadFault>
        ensures view { IsPrefix self.old.list self.new.list }
        ensures kept { (self.new.learnt ≡ self.old.learnt) × (self.new.name ≡ self.old.name) }
        ensures learnt { OnView result (IsPrefix self.old.learnt self.new.list) }
        ensures run { OnView result (Shows R.table self.old.name.extent self.new.list (λ _. Unit {0})) }
        ensures present { OnOk result (Shows R.table self.old.name.extent self.new.list (λ s. IsTrue (present s.network v))) }
        ensures front { IfOk result (λ answer. answer.0 ≡ dropped self.old.name.extent.base + length self.new.list) }
        ensures pointer { IfOk result (λ answer. Shows R.table self.old.name.extent self.new.list (λ s. answer.1.0 ≡ pointer s v)) }
        ensures partner { IfOk result (λ answer. Shows R.table self.old.name.extent self.new.list (λ s. answer.1.1 ≡ partner_in s.registers.pointers v)) }
        ensures unknown { IfUnknown result (λ front. Shows R.table self.old.name.extent self.new.list (λ s. present s.network v ≡ false)) }
        ensures unknown_front { IfUnknown result (λ front. front ≡ dropped self.old.name.extent.base + length self.new.list) }
        ensures no_view { IsErrOf result NoLook → self.new.list ≡ self.old.list }
    {
        let Some(Snapshot { front, found }) = self.reader.look(v.place()) else {
            return Err(ReadFault::NoView);
        };
        let Some(registers) = found else {
            return Err(ReadFault::UnknownNode { front });
        };
        Ok((front, registers))
    }

    /// A node's pointer after the log's entries up to the number `front`. Costs a few steps.
    /// These entries are the reader's view: a run of the rules that includes all this reader has seen or
    /// learnt.
    /// `NoView` if the network has ended, or if the published entries lack some that the reader learnt,
    /// which never happens. The view does not change then.
    /// Otherwise `UnknownNode` exactly if no node has this name in the view; the fault has the number
    /// of the view's last entry.
    pub fn pointer(&mut self, v: Node) -> Result<SeenPointer, ReadFault>
        ensures view { IsPrefix self.old.list self.new.list }
        ensures kept { (self.new.learnt ≡ self.old.learnt) × (self.new.name ≡ self.old.name) }
        ensures learnt { OnView result (IsPrefix self.old.learnt self.new.list) }
        ensures run { OnView result (Shows R.table self.old.name.extent self.new.list (λ _. Unit {0})) }
        ensures present { OnOk result (Shows R.table self.old.name.extent self.new.list (λ s. IsTrue (present s.network v))) }
        ensures front { IfOk result (λ answer. answer.front ≡ dropped self.old.name.extent.base + length self.new.list) }
        ensures found { IfOk result (λ answer. Shows R.table self.old.name.extent self.new.list (λ s. answer.pointer ≡ pointer s v)) }
        ensures unknown { IfUnknown result (λ front. Shows R.table self.old.name.extent self.new.list (λ s. present s.network v ≡ false)) }
        ensures unknown_front { IfUnknown result (λ front. front ≡ dropped self.old.name.extent.base + length self.new.list) }
        ensures no_view { IsErrOf result NoLook → self.new.list ≡ self.old.list }
    {
        let (front, (pointer, _)) = self.look(v)?;
        Ok(SeenPointer { front, pointer })
    }

    /// A node's partner after the log's entries up to the number `front`: its target, if the target points back.
    /// Views, faults and cost are those of `pointer`.
    pub fn partner(&mut self, v: Node) -> Result<SeenPartner, ReadFault>
        ensures view { IsPrefix self.old.list self.new.list }
        ensures kept { (self.new.learnt ≡ self.old.learnt) × (self.new.name ≡ self.old.name) }
        ensures learnt { OnView result (IsPrefix self.old.learnt self.new.list) }
        ensures run { OnView result (Shows R.table self.old.name.extent self.new.list (λ _. Unit {0})) }
        ensures present { OnOk result (Shows R.table self.old.name.extent self.new.list (λ s. IsTrue (present s.network v))) }
        ensures front { IfOk result (λ answer. answer.front ≡ dropped self.old.name.extent.base + length self.new.list) }
        ensures found { IfOk result (λ answer. Shows R.table self.old.name.extent self.new.list (λ s. answer.partner ≡ partner_in s.registers.pointers v)) }
        ensures unknown { IfUnknown result (λ front. Shows R.table self.old.name.extent self.new.list (λ s. present s.network v ≡ false)) }
        ensures unknown_front { IfUnknown result (λ front. front ≡ dropped self.old.name.extent.base + length self.new.list) }
        ensures no_view { IsErrOf result NoLook → self.new.list ≡ self.old.list }
    {
        let (front, (_, partner)) = self.look(v)?;
        Ok(SeenPartner { front, partner })
    }

    /// The number of the last published entry; 0 if there is none. Views and cost are those of `pointer`.
    /// `NoView` as in `pointer`.
    pub fn front(&mut self) -> Result<u32, NoView>
        ensures view { IsPrefix self.old.list self.new.list }
        ensures kept { (self.new.learnt ≡ self.old.learnt) × (self.new.name ≡ self.old.name) }
        ensures learnt { OnOk result (IsPrefix self.old.learnt self.new.list) }
        ensures front { IfOk result (λ front. front ≡ dropped self.old.name.extent.base + length self.new.list) }
        ensures found { OnOk result (Shows R.table self.old.name.extent self.new.list (λ _. Unit {0})) }
        ensures no_view { OnErr result (self.new.list ≡ self.old.list) }
    {
        let Some(front) = self.reader.front() else {
            return Err(NoView);
        };
        Ok(front)
    }

    /// What two readers of one network have seen is of one log, and so is what they have learnt.
    /// Runs no code.
    pub fn agrees_with(&self, other: &BoardReader<R>)
        requires { other.now.name.book ≡ self.now.name.book }
        ensures views { AreOneLog self.now.list other.now.list }
        ensures learnt { AreComparable self.now.learnt other.now.learnt }
        ensures both { IsOneLog self.now.learnt other.now.list }
    {
        self.reader.agrees_with(&other.reader);
    }

    /// Takes in a clerk's note: later views include all that was published at the clerk's last receipt.
    /// So later views include the entry of that receipt. The note's log and the view are of one log.
    /// The clerk must have called only the reader's network, or none. The clerk does not change.
    #[tactic(auto, using(crate::proofs::BoardReads::noted_last))]
    pub fn learn(&mut self, clerk: &mut Clerk)
        requires { IfSome clerk.old.note (λ note. note.book ≡ self.old.name.book) }
        ensures clerk { clerk.new ≡ clerk.old }
        ensures kept { (self.new.list ≡ self.old.list) × (self.new.name ≡ self.old.name) }
        ensures learnt { IsPrefix self.old.learnt self.new.learnt }
        ensures note { IfSome clerk.old.note (λ note. IsPrefix note.log self.new.learnt) }
        ensures one_log { IfSome clerk.old.note (λ note. IsOneLog note.log self.old.list) }
        ensures last { StandsLast (dropped self.old.name.extent.base) self.new.learnt clerk.old.receipts }
    {
        if let Some(note) = clerk.note() {
            self.reader.learn(note);
        }
    }
}
