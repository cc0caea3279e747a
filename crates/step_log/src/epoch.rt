//! The entries between two accepted disturbances.

ghost use Rattle.std.specs.Prelude.{◌≡◌, ◌<◌, ◌++◌, [], ◌∷◌, IfOk, OnOk, length, map, vec_capacity};
ghost use Rattle.rule_engine.specs.PreparedEvents.{net_moment};
ghost use Rattle.rule_machine.specs.declared.reply.Reply.TheVariants.{Accepted};
ghost use Rattle.rule_machine.specs.Run.{open_at};
ghost use Rattle.step_log.specs.Epochs.{begun_by, ended_by, epoch_now, of_run, over_after};

use rule_engine::{Net, Reply, Rules, Want};
use rule_machine::EpochStart;
use std::alloc::Global;

/// How many moves and rounds came in one epoch, and the network's size then.
/// An epoch lasts from an accepted disturbance, or the start, up to the next accepted disturbance, or the
/// end.
/// The moves are at most twice the edges plus the rules' weight for each node.
#[derive(Clone, Copy, Debug, PartialEq, Eq)]
pub struct Epoch {
    /// Where the epoch began: an accepted disturbance, the start, or dropped entries before the base.
    pub start: EpochStart,
    /// How many moves there were, including those before a base.
    pub moves: u32,
    /// How many edges there were after the disturbance.
    pub edges: u32,
    /// How many nodes there were.
    pub nodes: u32,
    /// How many rounds were complete in the epoch, or since counting began, if it began within the epoch.
    /// Taken at the epoch's end: before the disturbance that ended it, or now. `None` if rounds were not
    /// counted then.
    pub rounds: Option<u32>,
}

impl Epoch {
    fn up_to_now<R: Rules>(start: EpochStart, net: &Net<R>) -> Epoch
        ensures run { of_run result ≡ open_at start (net_moment net.now) }
        ensures now { result ≡ epoch_now start net.now }
    {
        let store = net.store();
        Epoch {
            start,
            moves: net.spent(),
            edges: store.edges(),
            nodes: store.nodes(),
            rounds: net.rounds(),
        }
    }
}

/// The moves, the rounds and the size of the current epoch come from the network.
#[derive(Drop)]
pub(crate) struct Epochs {
    pub over: Vec<Epoch>,
    pub begun: EpochStart,
}

impl Epochs {
    pub fn new(alloc: Global, begun: EpochStart) -> Epochs
        ensures over { result.over.items ≡ [] }
        ensures room { vec_capacity result.over ≡ 0 }
        ensures begun { result.begun ≡ begun }
    {
        Epochs {
            over: Vec::new(alloc),
            begun,
        }
    }

    pub fn make_room(&mut self, reply: &Reply) -> Result<(), Want>
        ensures room { OnOk result (reply.now ≡ Accepted → length self.new.over.items < vec_capacity self.new.over) }
        ensures over { self.new.over.items ≡ self.old.over.items }
        ensures begun { self.new.begun ≡ self.old.begun }
    {
        if let Reply::Accepted = reply {
            self.over.reserve(1)?;
        }
        Ok(())
    }

    /// `net` is the network before the entry. Takes no memory.
    pub fn turn<R: Rules>(&mut self, number: u32, reply: &Reply, net: &Net<R>)
        requires { reply.now ≡ Accepted → length self.old.over.items < vec_capacity self.old.over }
        ensures over { map of_run self.new.over.items ≡ map of_run self.old.over.items ++ ended_by reply.now (open_at self.old.begun (net_moment net.now)) }
        ensures list { self.new.over.items ≡ over_after reply.now (epoch_now self.old.begun net.now) self.old.over.items }
        ensures begun { self.new.begun ≡ begun_by reply.now number self.old.begun }
    {
        if let Reply::Accepted = reply {
            self.over.push(Epoch::up_to_now(self.begun, net)).unwrap();
            self.begun = EpochStart::At(number);
        }
    }

    pub fn list<R: Rules>(&self, alloc: Global, net: &Net<R>) -> Result<Vec<Epoch>, Want>
        ensures epochs { IfOk result (λ epochs. map of_run epochs.items ≡ map of_run self.now.over.items ++ open_at self.now.begun (net_moment net.now) ∷ []) }
        ensures list { IfOk result (λ epochs. epochs.items ≡ self.now.over.items ++ epoch_now self.now.begun net.now ∷ []) }
    {
        let mut epochs = Vec::with_capacity(alloc, self.over.len() + 1)?;
        epochs.extend_from_slice(&self.over)?;
        epochs.push(Epoch::up_to_now(self.begun, net)).unwrap();
        Ok(epochs)
    }
}
