//! A network with its registers.

ghost use Rattle.std.specs.Prelude.{◌≡◌, ◌≤◌, ◌&&◌, All, IfOk, IfErr, IsTrue, None, OnErr, OnOk, length, nat_le};
ghost use Rattle.rule_machine.specs.Disturbance.{after_link};
ghost use Rattle.rule_machine.specs.Network as network;
ghost use Rattle.rule_machine.specs.State as state;
ghost use Rattle.graph_store.specs.Fault.{link_fault, nodes_fault, ExplainsGraphFault};
ghost use Rattle.graph_store.specs.Graph.{HasRoomFor};

use graph_store::{EdgeStore, GraphFault};
use registers::Registers;
use rule_machine::{Edge, Node, Want};
use std::alloc::Global;
use std::marker::Model;

/// The neighbour lists and the registers of a network.
///
/// Contracts see the state, and how many more neighbours each name has room for.
#[derive(Drop)]
pub struct NetState {
    pub(crate) store: EdgeStore,
    pub(crate) registers: Registers,
}

impl Model for NetState {
    ghost use Rattle.rule_machine.specs.State.{IsState};
    ghost use Rattle.net_state.specs.StateViews.{StateView, held_code, state_of};

    ghost Value = { StateView };

    ghost coded = { held_code };

    ghost view = { λ n. record { state = state_of n.store.network n.registers; room = n.store.room } };

    ghost invariant = { λ n. IsState (state_of n.store.network n.registers) };
}

impl NetState {
    /// A state with names 1 to `nodes`, of which 1 to `present` are nodes.
    ///
    /// There is no edge; all pointers are null and all flags false.
    ///
    /// Errors: `TooManyNodes` above 65,535 names; `Memory` if memory runs out.
    pub fn with_present(alloc: Global, nodes: u32, present: u32) -> Result<NetState, GraphFault>
        requires within { present ≤ nodes }
        ensures ok { IfOk result (λ net. net.state ≡ state.opening_with nodes present) }
        ensures small { OnOk result (nodes ≤ 65535) }
        ensures fault { IfErr result (λ fault. ExplainsGraphFault (nodes_fault nodes) fault) }
    {
        let store = EdgeStore::with_present(alloc, nodes, present)?;
        let Ok(registers) = Registers::new(alloc, nodes) else {
            return Err(GraphFault::Memory);
        };
        Ok(NetState { store, registers })
    }

    /// The edges.
    #[inline(always)]
    pub fn store(&self) -> &EdgeStore
        ensures network { result.now.network ≡ self.now.state.network }
        ensures room { result.now.room ≡ self.now.room }
        ensures sound { state.IsState self.now.state }
    {
        &self.store
    }

    /// The registers.
    #[inline(always)]
    pub fn registers(&self) -> &Registers
        ensures value { result.now ≡ self.now.state.registers }
        ensures sound { state.IsState self.now.state }
    {
        &self.registers
    }

    /// The number of nodes, at most 65,535.
    pub fn nodes(&self) -> u32
        ensures count { result ≡ network.node_count self.now.state.network }
        ensures few { result ≤ 65535 }
    {
        self.store.nodes()
    }

    /// The greatest name that a node may have, at most 65,535.
    #[inline(always)]
    pub fn capacity(&self) -> u32
        ensures size { result ≡ self.now.state.network.size }
        ensures few { result ≤ 65535 }
        ensures sound { state.IsState self.now.state }
    {
        self.store.capacity()
    }

    /// The number of edges, at most 1,048,576.
    pub fn edges(&self) -> u32
        ensures count { result ≡ network.edge_count self.now.state.network }
        ensures few { result ≤ 1048576 }
    {
        self.store.edges()
    }

    /// The edges, by ascending lower end, then higher end.
    ///
    /// Takes four bytes an edge; fails only if memory runs out.
    pub fn list_edges(&self) -> Result<Vec<Edge>, Want>
        ensures list { IfOk result (λ edges. edges.items ≡ network.edge_list self.now.state.network) }
        ensures few { IfOk result (λ edges. length edges.items ≤ 1048576) }
    {
        self.store.list()
    }

    /// Whether a node has this name. One look.
    #[inline(always)]
    pub fn has(&self, v: Node) -> bool
        ensures { result ≡ network.present self.now.state.network v }
    {
        self.store.has(v)
    }

    /// Whether the name is at most the capacity; it may be absent.
    pub fn is_name(&self, v: Node) -> bool
        ensures { result ≡ (nat_le 1 v && nat_le v self.now.state.network.size) }
    {
        prove!(v.name() >= 1);
        v.name() <= self.capacity()
    }

    /// Whether there is an edge between two names. A binary search.
    pub fn linked(&self, a: Node, b: Node) -> bool
        ensures value { result ≡ network.linked self.now.state.network a b }
        ensures present { IsTrue result → IsTrue (network.present self.now.state.network a) × IsTrue (network.present self.now.state.network b) }
    {
        self.store.linked(a, b)
    }

    /// A node's neighbours, ascending.
    #[inline(always)]
    pub fn neighbours(&self, v: Node) -> &[Node]
        requires { IsTrue (network.present self.now.state.network v) }
        ensures all { result.now ≡ network.neighbours self.now.state.network v }
        ensures present { All (λ w. IsTrue (network.present self.now.state.network w)) result.now }
        ensures linked { All (λ w. IsTrue (network.linked self.now.state.network v w)) result.now }
    {
        self.store.neighbours(v)
    }

    /// A node's pointer; `None` if it is null or the name is absent. One look.
    #[inline(always)]
    pub fn pointer(&self, v: Node) -> Option<Node>
        requires { v ≤ self.now.state.network.size }
        ensures { result ≡ state.pointer self.now.state v }
    {
        self.registers.pointer(v)
    }

    /// A node's flag; false if the name is absent. One look.
    #[inline(always)]
    pub fn flag(&self, v: Node) -> bool
        requires { v ≤ self.now.state.network.size }
        ensures { result ≡ state.flag self.now.state v }
    {
        self.registers.flag(v)
    }

    /// Whether `v` points at `w`. One look.
    #[inline(always)]
    pub fn points(&self, v: Node, w: Node) -> bool
        ensures { result ≡ state.points self.now.state.registers v w }
    {
        self.registers.points_at(v, w)
    }

    /// Whether a node is in a mutual pair. Two looks.
    pub fn married(&self, v: Node) -> bool
        requires { IsTrue (network.present self.now.state.network v) }
        ensures { result ≡ state.married self.now.state v }
    {
        self.registers.married(v)
    }

    /// Adds the edge between two nodes.
    ///
    /// Errors, checked in this order: `UnknownNode`, `SelfLoop`, `AlreadyLinked`, `TooManyEdges`, `Memory`.
    /// An error changes nothing.
    ///
    /// Cost: a binary search and a shift in two neighbour lists.
    pub fn link(&mut self, a: Node, b: Node) -> Result<(), GraphFault>
        ensures ok { OnOk result ((link_fault self.old.state.network a b ≡ None) × (self.new.state ≡ after_link self.old.state a b)) }
        ensures fault { IfErr result (λ fault. ExplainsGraphFault (link_fault self.old.state.network a b) fault) }
        ensures kept { OnErr result (self.new.state ≡ self.old.state) }
        ensures sound { state.IsState self.new.state }
    {
        self.store.link(a, b)
    }

    /// Makes room for the edge between two nodes, so that `link_reserved` takes no memory.
    ///
    /// Errors: as for `link`. The state never changes.
    ///
    /// Cost: a binary search, and the growth of at most two neighbour lists.
    pub fn reserve_link(&mut self, a: Node, b: Node) -> Result<(), GraphFault>
        ensures ok { OnOk result ((link_fault self.old.state.network a b ≡ None) × HasRoomFor self.new.room a b) }
        ensures fault { IfErr result (λ fault. ExplainsGraphFault (link_fault self.old.state.network a b) fault) }
        ensures kept { self.new.state ≡ self.old.state }
    {
        self.store.reserve_link(a, b)
    }
}
