//! An epoch of a run.

ghost use Rattle.std.specs.Prelude.{◌≡◌, ◌+◌, ◌*◌, ◌<◌, ◌^◌};
ghost use Rattle.auditor.specs.Epochs.{bound_of};

use rule_machine::{EpochStart, RuleSet};
use std::marker::Model;

/// An epoch: the entries from one accepted disturbance (or the start) up to the next (or the end).
#[derive(Clone, Copy, Debug, PartialEq, Eq)]
pub struct Epoch {
    start: EpochStart,
    moves: u64,
    edges: u32,
    nodes: u32,
}

/// An epoch, the cost of the disturbance that began it, and its rounds.
#[derive(Clone, Copy)]
pub struct CostedEpoch {
    /// The epoch.
    pub epoch: Epoch,
    /// A bound on what the disturbance added to the charge; `None` for the first epoch.
    ///
    /// The bound is computed from the state before the disturbance, by the degrees of the nodes it touched.
    pub cost: Option<u32>,
    /// The complete rounds of the epoch; if it began before the base that opens the transcript, since that base.
    ///
    /// An accepted disturbance cuts a round off.
    pub rounds: u32,
}

impl Model for Epoch {
    ghost use Rattle.rule_machine.specs.Run as run;

    ghost Value = { run.Epoch };

    ghost view = { λ e. record { start = e.start; moves = e.moves; edges = e.edges; nodes = e.nodes } };

    ghost inverse = { λ e. record { start = e.start; moves = e.moves; edges = e.edges; nodes = e.nodes } };
}

impl Epoch {
    pub(crate) fn new(start: EpochStart, moves: u64, edges: u32, nodes: u32) -> Epoch
        ensures { result ≡ record { start = start; moves = moves; edges = edges; nodes = nodes } }
    {
        Epoch {
            start,
            moves,
            edges,
            nodes,
        }
    }

    pub(crate) fn with_moves(self, moves: u64) -> Epoch
        requires { self.moves + moves < 2 ^ 64 }
        ensures { result ≡ record self { moves = self.moves + moves } }
    {
        Epoch {
            moves: self.moves + moves,
            ..self
        }
    }

    /// What began the epoch: the number of an accepted disturbance, or 0 for the start of the run.
    ///
    /// `Forgotten` if the epoch began before the base that opens the transcript.
    pub fn start(self) -> EpochStart
        ensures { result ≡ self.start }
    {
        self.start
    }

    /// The moves made in the epoch.
    pub fn moves(self) -> u64
        ensures { result ≡ self.moves }
    {
        self.moves
    }

    /// The edges of the network during the epoch.
    pub fn edges(self) -> u32
        ensures { result ≡ self.edges }
    {
        self.edges
    }

    /// The nodes of the network during the epoch.
    pub fn nodes(self) -> u32
        ensures { result ≡ self.nodes }
    {
        self.nodes
    }

    /// The bound on the moves of an epoch with these edges and nodes.
    ///
    /// 2 for each edge, and 1 (Hsu and Huang) or 3 (Manne and others) for each node.
    pub fn bound(self, rules: RuleSet) -> u64
        ensures { result ≡ bound_of rules self }
    {
        2 * u64::from(self.edges) + rules.node_weight() * u64::from(self.nodes)
    }
}
