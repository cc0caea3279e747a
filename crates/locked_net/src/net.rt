//! A network that many callers share.

ghost use Rattle.std.specs.Prelude.{◌≡◌, ◌≤◌, [], None, min, IfOk, IfErr, OnOk};
ghost use Rattle.rule_machine.specs.Network.{node_count};
ghost use Rattle.keyed_lock.specs.Locks.{key_of};
ghost use Rattle.locked_net.specs.PublishedJournals.{IsOfKey};
ghost use Rattle.locked_net.specs.Receipts.{base_number};
ghost use Rattle.step_log.specs.Log.{max_entries};
ghost use Rattle.graph_store.specs.Fault.{nodes_fault, ExplainsGraphFault};

use crate::net_key::{KeyInvariant, NetKey};
use crate::published_journal::PublishedJournal;
use crate::sharing::{copy_base, share};
use crate::{BoardReader, Clerk, ReaderFault};
use keyed_lock::KeyedLock;
use rule_engine::{GraphFault, Rules};
use rule_machine::{Base, Want};
use snapshots::Note;
use std::alloc::{AllocError, AllocFailed, Global};
use std::sync::Wait;
use step_log::{Journal, MAX_ENTRIES};

/// A network under the rules `R` with its log, behind one lock, for callers in any threads.
///
/// A copy of the network's pointers and present nodes is published for wait-free readers. Whoever has the
/// lock has the journal and the board. Whenever the lock is free, the log is a run of the rule machine and
/// exactly this log is published. The run begins at the opening state or at a base. A checkpoint drops only
/// the journal's entries, not published ones. A network cannot be dropped: `into_journal` ends it.
pub struct LockedNet<R: Rules> {
    alloc: Global,
    pub(crate) lock: KeyedLock<Box<PublishedJournal<R>>, NetKey, KeyInvariant>,
    start: Option<u32>,
    ghost start_is: { start ≡ base_number (key_of lock).beginning },
}

impl<R: Rules> LockedNet<R> {
    ghost use Rattle.locked_net.specs.RetainedParts.{IsPartOfLog};
    ghost use Rattle.locked_net.specs.Looks.{IsPublished};
    ghost use Rattle.step_log.specs.JournalViews.{kept_of};
    ghost use Rattle.locked_net.specs.Nets.{net_key_of, name_count_of, first_nodes_of, beginning_of, log_limit_of, start_number_of, book_of, name_of, setting_of, HasSeenLog};
    ghost use Rattle.locked_net.specs.Receipts.{fresh};
    ghost use Rattle.locked_net.specs.declared.fault.ReaderFault.TheVariants.{NoPlace};
    ghost use Rattle.step_log.specs.RetainedLogs.{IsRetainedRun};

    /// A new network of the nodes 1 to `nodes`, with a limit of 16,777,216 entries.
    /// `TooManyNodes` above 65,535 nodes; `Memory` if memory runs out.
    pub fn new<W: Wait>(alloc: Global, rt: &W, nodes: u32) -> Result<LockedNet<R>, GraphFault>
        ensures nodes { IfOk result (λ net. name_count_of net ≡ nodes) }
        ensures present { IfOk result (λ net. first_nodes_of net ≡ nodes) }
        ensures beginning { IfOk result (λ net. beginning_of net ≡ None) }
        ensures limit { IfOk result (λ net. log_limit_of net ≡ max_entries) }
        ensures small { OnOk result (nodes ≤ 65535) }
        ensures fault { IfErr result (λ fault. ExplainsGraphFault (nodes_fault nodes) fault) }
    {
        LockedNet::with_limit(alloc, rt, nodes, MAX_ENTRIES)
    }

    /// Like `new`, with a limit of `limit` entries; a limit above 16,777,216 counts as 16,777,216.
    pub fn with_limit<W: Wait>(
        alloc: Global,
        rt: &W,
        nodes: u32,
        limit: u32,
    ) -> Result<LockedNet<R>, GraphFault>
        ensures nodes { IfOk result (λ net. name_count_of net ≡ nodes) }
        ensures present { IfOk result (λ net. first_nodes_of net ≡ nodes) }
        ensures beginning { IfOk result (λ net. beginning_of net ≡ None) }
        ensures limit { IfOk result (λ net. log_limit_of net ≡ min limit max_entries) }
        ensures small { OnOk result (nodes ≤ 65535) }
        ensures fault { IfErr result (λ fault. ExplainsGraphFault (nodes_fault nodes) fault) }
    {
        LockedNet::with_present(alloc, rt, nodes, nodes, limit)
    }

    /// Like `with_limit`, but only the names 1 to `present` are nodes; the others are absent.
    /// `TooManyNodes` above 65,535 names; `Memory` if memory runs out.
    pub fn with_present<W: Wait>(
        alloc: Global,
        rt: &W,
        nodes: u32,
        present: u32,
        limit: u32,
    ) -> Result<LockedNet<R>, GraphFault>
        requires within { present ≤ nodes }
        ensures nodes { IfOk result (λ net. name_count_of net ≡ nodes) }
        ensures present { IfOk result (λ net. first_nodes_of net ≡ present) }
        ensures beginning { IfOk result (λ net. beginning_of net ≡ None) }
        ensures limit { IfOk result (λ net. log_limit_of net ≡ min limit max_entries) }
        ensures small { OnOk result (nodes ≤ 65535) }
        ensures fault { IfErr result (λ fault. ExplainsGraphFault (nodes_fault nodes) fault) }
    {
        let journal = Journal::with_present(alloc, nodes, present, limit)?;
        match share(alloc, rt, journal, present, None) {
            Ok(net) => Ok(net),
            Err(_) => Err(GraphFault::Memory),
        }
    }

    /// The network of a journal without entries: its log begins at the journal's base, if any.
    /// If the journal counts rounds, the network counts on.
    /// New journals, and those of `of_net`, have as many nodes as at their beginning. A journal
    /// with a checkpoint after joins or leaves may not.
    /// `AllocError` if memory runs out. Costs a board, and what a checkpoint costs if there is a base.
    pub fn of_journal<W: Wait>(
        alloc: Global,
        rt: &W,
        journal: Journal<R>,
    ) -> Result<LockedNet<R>, Want>
        requires none { journal.entries ≡ [] }
        requires present { journal.present ≡ node_count journal.state.network }
        ensures nodes { IfOk result (λ net. name_count_of net ≡ journal.state.network.size) }
        ensures present { IfOk result (λ net. first_nodes_of net ≡ journal.present) }
        ensures limit { IfOk result (λ net. log_limit_of net ≡ journal.limit) }
        ensures beginning { IfOk result (λ net. beginning_of net ≡ journal.base) }
    {
        let base = copy_base(&journal)?;
        let present = journal.net().store().nodes();
        share(alloc, rt, journal, present, base)
    }

    /// A new clerk, without receipts.
    pub fn clerk(&self) -> Result<Clerk, Want>
        ensures { IfOk result (λ clerk. clerk ≡ fresh) }
    {
        Ok(Clerk::new(self.alloc))
    }

    /// A reader of this network that has seen the present log. Waits for the network's lock.
    /// At most 64 readers have a place at once; a reader keeps its place until the reader is dropped.
    /// `NoPlace` if no place is found; when that happens is unspecified. The first reader takes the memory of
    /// two copies of the pointers; from then on a call takes that of a copy of its entry.
    pub fn reader<W: Wait>(&self, rt: &W) -> Result<BoardReader<R>, ReaderFault>
        ensures name { IfOk result (λ reader. reader.name ≡ name_of self.now) }
        ensures seen { IfOk result (λ reader. HasSeenLog R.table self.now reader) }
        ensures fault { IfErr result (λ fault. fault ≡ NoPlace) }
    {
        let mut held = self.hold(rt);
        let place = held.reader(rt);
        held.free();
        match place {
            Ok(reader) => Ok(BoardReader::over(reader)),
            Err(_) => Err(ReaderFault::NoPlace),
        }
    }

    pub(crate) fn alloc(&self) -> Global {
        self.alloc
    }

    pub(crate) fn start(&self) -> Option<u32>
        ensures { result ≡ start_number_of self.now }
    {
        self.start
    }

    /// The journal of a network that no thread shares; the log is a run of the rule machine.
    /// After a checkpoint the journal keeps only the part of the whole published log above the base. The
    /// base is the moment after the entries below.
    /// This would wait for a call under the lock; a network that no thread shares has no such call.
    pub fn into_journal<W: Wait>(self, rt: &W) -> Journal<R>
        ensures run { IsRetainedRun R.table R.NODE_WEIGHT (kept_of result) }
        ensures whole { IsPartOfLog (setting_of R.table self) (kept_of result) }
        ensures nodes { result.state.network.size ≡ name_count_of self }
        ensures present { result.present ≡ first_nodes_of self }
        ensures limit { result.limit ≡ log_limit_of self }
    {
        self.into_published(rt).close(rt)
    }

    /// The journal of a network that no thread shares, with a note of the published log.
    /// The journal keeps exactly the part of this log above its base.
    pub fn into_noted<W: Wait>(self, rt: &W) -> (Journal<R>, Note)
        ensures published { IsPublished (setting_of R.table self) (book_of self) (kept_of result.0) result.1 }
        ensures run { IsRetainedRun R.table R.NODE_WEIGHT (kept_of result.0) }
        ensures nodes { result.0.state.network.size ≡ name_count_of self }
        ensures present { result.0.present ≡ first_nodes_of self }
        ensures limit { result.0.limit ≡ log_limit_of self }
    {
        let published = self.into_published(rt);
        let last = published.note();
        (published.close(rt), last)
    }

    fn into_published<W: Wait>(self, rt: &W) -> PublishedJournal<R>
        ensures { IsOfKey (net_key_of self) result }
    {
        let LockedNet {
            alloc: _,
            lock,
            start: _,
        } = self;
        Box::into_inner(lock.into_inner(rt))
    }
}

/// The network of this journal. The journal is boxed, so that taking the lock moves an address.
pub(crate) fn lock<R: Rules, W: Wait>(
    alloc: Global,
    rt: &W,
    published: PublishedJournal<R>,
    key: &NetKey,
) -> Result<LockedNet<R>, AllocError>
    requires { IsOfKey key.now published }
    ensures { IfOk result (λ net. key_of net.lock ≡ key.now) }
{
    let start = number_of(&key.beginning);
    let published = boxed(alloc, rt, published)?;
    match KeyedLock::new(alloc, published, key) {
        Ok(lock) => Ok(LockedNet { alloc, lock, start }),
        Err(AllocFailed { value: published }) => {
            Box::into_inner(published).close(rt);
            Err(AllocError)
        }
    }
}

fn number_of(base: &Option<Base>) -> Option<u32>
    ensures { result ≡ base_number base.now }
{
    match base {
        Some(base) => Some(base.number),
        None => None,
    }
}

fn boxed<R: Rules, W: Wait>(
    alloc: Global,
    rt: &W,
    published: PublishedJournal<R>,
) -> Result<Box<PublishedJournal<R>>, AllocError>
    ensures { IfOk result (λ boxed. boxed.value ≡ published) }
{
    match Box::new(alloc, published) {
        Ok(boxed) => Ok(boxed),
        Err(AllocFailed { value: published }) => {
            published.close(rt);
            Err(AllocError)
        }
    }
}
