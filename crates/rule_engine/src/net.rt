//! A network under a rule set.

ghost use Rattle.std.specs.Prelude.{◌≡◌, ◌<◌, ◌≤◌, ◌+◌, ◌*◌, ◌↔◌, ℕ, List, [], IfOk, IfErr, IfSome, OnOk, IsTrue, None, false, length, slice_get};
ghost use Rattle.enabled_set.specs.Members.{members};
ghost use Rattle.graph_store.specs.Fault.{nodes_fault, ExplainsGraphFault};
ghost use Rattle.machine_laws.specs.ChargeWords.{charge_bound};
ghost use Rattle.machine_laws.specs.HalfMatchings.{IsMatching};
ghost use Rattle.containment_laws.specs.Rest.{is_at_rest};
ghost use Rattle.rule_machine.specs.Base.{base_of};
ghost use Rattle.rule_machine.specs.Network.{node_count, edge_count};
ghost use Rattle.rule_machine.specs.State.{IsState, flag};
ghost use Rattle.rule_machine.specs.RuleTable.{enabled_names, rule_at};
ghost use Rattle.rule_machine.specs.Stable.{IsStable, IsMaximalMatching, mutual_pairs};
ghost use Rattle.rule_machine.specs.Run.{beginning, beginning_with};
ghost use Rattle.rule_engine.specs.ChoiceMoves.{verdict_of};
ghost use Rattle.rule_engine.specs.DisturbanceReach.{StaysAtRest};
ghost use Rattle.rule_engine.specs.EngineStates.{guard_at, IsAnswered, moment};
ghost use Rattle.rule_engine.specs.EventReplies.{IsWithinBudget};
ghost use Rattle.rule_engine.specs.PreparedEvents.{net_moment};

use crate::Derived;
use crate::charge::totals_of;
use crate::guard::{outcome, rule_enabled};
use enabled_set::{EnabledSet, Marks};
use graph_store::{EdgeStore, GraphFault};
use net_state::{NetState, Observer};
use registers::Registers;
use round_counter::RoundCounter;
use rule_machine::{Act, Base, Choice, Listing, Node, Rules, Verdict, Want};
use std::alloc::Global;
use std::marker::Model;
use suitor_index::IndexedNet;

/// A network under the rules `R`.
/// Contracts see the network's state, the number of moves since the last accepted disturbance or the start,
/// each name's room for more neighbours, and the count of rounds.
#[derive(Drop)]
pub struct Net<R: Rules> {
    pub(crate) alloc: Global,
    pub(crate) net: NetState,
    pub(crate) derived: Derived<R>,
    pub(crate) chosen: Marks,
    pub(crate) spent: u32,
    pub(crate) rounds: Option<RoundCounter>,
}

impl<R: Rules> Model for Net<R> {
    ghost use Rattle.rule_engine.specs.DerivedValues.{IsDerived};
    ghost use Rattle.rule_engine.specs.EngineStates.{moment};
    ghost use Rattle.rule_engine.specs.Marks.{HasMarks};
    ghost use Rattle.rule_engine.specs.PreparedEvents.{NetView, net_code};
    ghost use Rattle.rule_engine.specs.Rounds.{IsCountedMoment, counting_in};

    ghost Value = { NetView };

    ghost coded = { net_code };

    ghost view = { λ n. record { state = n.net.state; spent = n.spent; room = n.net.room; counting = counting_in R.table n.net.state n.rounds } };

    ghost invariant = { λ n. IsCountedMoment R.table R.NODE_WEIGHT (moment n.net.state n.spent) n.rounds × (IsDerived R.COURTS_HIGHER_ONLY R.COURTED_PAIR_CLOSES_EDGE R.table R.closes R.adds n.net n.derived.suitors.tallies.items n.derived.contributions.open_edges n.derived.contributions.each.items n.derived.contributions.lower_ends n.derived.contributions.stale n.derived.enabled × HasMarks n.net.state n.chosen) };
}

impl<R: Rules> Net<R> {
    /// A network of the nodes 1 to `nodes`: no edges, all pointers null, all flags false, no move spent.
    /// `TooManyNodes` above 65,535 nodes; `Memory` if memory runs out.
    /// Takes about fifty bytes a node.
    pub fn new(alloc: Global, nodes: u32) -> Result<Net<R>, GraphFault>
        ensures ok { IfOk result (λ net. net_moment net ≡ beginning nodes) }
        ensures uncounted { IfOk result (λ net. net.counting ≡ None) }
        ensures small { OnOk result (nodes ≤ 65535) }
        ensures fault { IfErr result (λ fault. ExplainsGraphFault (nodes_fault nodes) fault) }
    {
        Net::with_present(alloc, nodes, nodes)
    }

    /// Like `new`, but only the names 1 to `present` are nodes.
    /// `TooManyNodes` above 65,535 names; `Memory` if memory runs out.
    /// Takes about fifty bytes a name.
    pub fn with_present(alloc: Global, nodes: u32, present: u32) -> Result<Net<R>, GraphFault>
        requires within { present ≤ nodes }
        ensures ok { IfOk result (λ net. net_moment net ≡ beginning_with nodes present) }
        ensures uncounted { IfOk result (λ net. net.counting ≡ None) }
        ensures small { OnOk result (nodes ≤ 65535) }
        ensures fault { IfErr result (λ fault. ExplainsGraphFault (nodes_fault nodes) fault) }
    {
        let net = NetState::with_present(alloc, nodes, present)?;
        match Net::of_state(alloc, net, 0) {
            Ok(net) => Ok(net),
            Err(_) => Err(GraphFault::Memory),
        }
    }

    /// The network in a given state, after `spent` moves since the last accepted disturbance.
    ///
    /// `Want` if memory runs out. Cost: one pass over each node's neighbours, and a guard a node. Takes about
    /// thirty bytes a name.
    pub fn of_state(alloc: Global, net: NetState, spent: u32) -> Result<Net<R>, Want>
        requires within { spent + R.table.charge net.state ≤ charge_bound R.NODE_WEIGHT net.state.network }
        requires unflagged { R.table.flags ≡ false → (v : ℕ) → flag net.state v ≡ false }
        ensures moment { IfOk result (λ made. net_moment made ≡ record { state = net.state; spent = spent }) }
        ensures uncounted { IfOk result (λ made. made.counting ≡ None) }
    {
        // Gives the prover `IsState`.
        let _ = net.registers();
        let derived = Derived::of(alloc, &net)?;
        Net::with_derived(alloc, net, derived, spent)
    }

    pub(crate) fn with_derived(
        alloc: Global,
        net: NetState,
        derived: Derived<R>,
        spent: u32,
    ) -> Result<Net<R>, Want>
        requires budget { IsWithinBudget R.table R.NODE_WEIGHT (moment net.state spent) }
        requires derived { ⟦<Derived<R> as Observer>⟧.fits net derived }
        ensures moment { IfOk result (λ made. net_moment made ≡ moment net.state spent) }
        ensures uncounted { IfOk result (λ made. made.counting ≡ None) }
    {
        let chosen = Marks::new(alloc, net.capacity())?;
        Ok(Net {
            alloc,
            net,
            derived,
            chosen,
            spent,
            rounds: None,
        })
    }

    /// The network with its counts, for look-ups.
    #[inline(always)]
    pub(crate) fn index(&self) -> IndexedNet<'_, R>
        ensures state { result.state ≡ self.now.state }
        ensures sound { IsState self.now.state }
    {
        IndexedNet::new(&self.net, &self.derived.suitors)
    }

    /// The edges.
    pub fn store(&self) -> &EdgeStore
        ensures network { result.now.network ≡ self.now.state.network }
        ensures room { result.now.room ≡ self.now.room }
    {
        self.net.store()
    }

    /// The registers.
    pub fn registers(&self) -> &Registers
        ensures value { result.now ≡ self.now.state.registers }
        ensures state { IsState self.now.state }
    {
        self.net.registers()
    }

    /// The enabled nodes.
    pub fn enabled(&self) -> &EnabledSet
        ensures { members result.now ≡ enabled_names R.table self.now.state }
    {
        &self.derived.enabled
    }

    /// Whether the network is silent: no rule is enabled. Constant time.
    ///
    /// A network is silent exactly if it is stable. The mutual pairs of a silent network are a maximal
    /// matching, with at least half as many edges as any other matching. Conversely, the network is silent
    /// if the mutual pairs are a maximal matching, every pointer is null or answered, and the flags are
    /// right.
    pub fn is_quiet(&self) -> bool
        ensures quiet { IsTrue result ↔ (enabled_names R.table self.now.state ≡ []) }
        ensures stable { IsTrue result ↔ IsStable R.table.flags self.now.state }
        ensures matching { IsTrue result → IsMaximalMatching self.now.state.network (mutual_pairs self.now.state) }
        ensures half { IsTrue result → (other : List (ℕ × ℕ)) → IsMatching self.now.state.network other → length other ≤ 2 * length (mutual_pairs self.now.state) }
        ensures only_stable { IsAnswered R.table.flags self.now.state → IsMaximalMatching self.now.state.network (mutual_pairs self.now.state) → IsTrue result }
    {
        self.derived.enabled.count() == 0
    }

    /// The rule enabled at a node, if any; none at an absent node.
    /// Reads counts stored for the node, not the list of the node's neighbours.
    pub fn guard(&self, v: Node) -> Option<Act>
        ensures { result ≡ guard_at R.table self.now.state v }
    {
        rule_enabled(&self.index(), v)
    }

    /// What the item at index `place` of a choice, from 0, would do alone.
    /// Searches the neighbours of the item's node only if a target must be found.
    pub fn verdict(&self, choice: &Choice, place: u32) -> Verdict
        requires { place < length choice.now }
        ensures { IfSome (slice_get choice.now place) (λ item. result ≡ verdict_of R.table self.now.state place item) }
    {
        let item = choice.items()[place as usize];
        Verdict {
            place,
            node: item.node,
            outcome: outcome(&self.index(), item),
        }
    }

    /// The charge, which is the potential, at most 2,293,757.
    /// At most this many moves can come before the next accepted disturbance. If the charge is 0, the
    /// network is stable.
    /// Takes no memory. Looks at what changed since the last `charge` or `Status`.
    pub fn charge(&mut self) -> u32
        ensures charge { result ≡ R.table.charge self.old.state }
        ensures settled { result ≡ 0 → IsStable R.table.flags self.old.state }
        ensures kept { self.new ≡ self.old }
    {
        totals_of(&self.net, &mut self.derived).charge
    }

    /// Whether `v` is at rest: no rule is enabled at `v`, and none will be until a disturbance reaches `v`.
    /// This is so for any daemon.
    /// This means: `v` is married, or points nowhere and all neighbours of `v` are married. If the rules use
    /// flags, the flag of `v` is right too.
    /// Goes through the neighbours only if `v` points nowhere.
    pub fn is_at_rest(&self, v: Node) -> bool
        ensures rests { result ≡ is_at_rest R.table.flags self.now.state v }
        ensures idle { IsTrue result → rule_at R.table self.now.state v ≡ None }
        ensures stays { IsTrue result → StaysAtRest R.table (net_moment self.now) v }
    {
        containment::is_at_rest(&self.net, R::FLAGS, v)
    }

    /// The base of the network after `number` entries: spent moves, each node's registers, and the edges.
    /// `AllocError` if memory runs out. Takes about eight bytes for each node and four for each edge.
    /// Looks at every name and at both ends of every edge.
    pub fn base(&self, number: u32) -> Result<Base, Want>
        ensures base { IfOk result (λ base. base ≡ base_of number (net_moment self.now)) }
        ensures few { IfOk result (λ base. (length base.nodes ≤ 65535) × (length base.edges ≤ 1048576)) }
    {
        let nodes = self.net.list_places(self.alloc)?;
        let edges = self.net.list_edges()?;
        Ok(Base {
            number,
            spent: self.spent,
            nodes: Listing::from_vec(nodes),
            edges: Listing::from_vec(edges),
        })
    }

    /// The number of moves since the last accepted disturbance, or since the start. Constant time.
    /// These moves plus the charge are at most twice the edges plus the rules' weight for each node.
    pub fn spent(&self) -> u32
        ensures count { result ≡ self.now.spent }
        ensures bound { self.now.spent + R.table.charge self.now.state ≤ 2 * edge_count self.now.state.network + R.NODE_WEIGHT * node_count self.now.state.network }
    {
        self.spent
    }
}
