//! The store of edges.

ghost use Rattle.std.specs.Prelude.{◌≡◌, ◌≢◌, ◌≤◌, ℕ, true, false, length, [], slice_get, slice_set, IfOk, IfErr, OnOk, OnErr, MatchOption, IsTrue, All, None, Some};
ghost use Rattle.std.specs.List.Sorted.{IsStrictlyIncreasing};
ghost use Rattle.rule_machine.specs.Network.{edgeless, edgeless_with, with_node, without_node, names, first_names, node_count, edge_count, edge_list, present, linked, neighbours, with_edge, without_edge};
ghost use Rattle.graph_store.specs.Fault.{nodes_fault, ends_fault, join_fault, leave_fault, link_fault, unlink_fault, ExplainsGraphFault};
ghost use Rattle.graph_store.specs.Graph.{HasRoomFor};
ghost use Rattle.graph_store.specs.Rows.{has, IsGapFor, IsPlaceOf};
ghost use Rattle.graph_store.specs.declared.fault.GraphFault.TheVariants.{Memory};

use crate::GraphFault;
use crate::row_pool::Rows;
use crate::rows::{find_index, find_place, guess_gap};
use enabled_set::EnabledSet;
use rule_machine::{Edge, MAX_EDGES, MAX_NAME, Node, Want};
use std::alloc::Global;
use std::marker::Model;

/// A network of nodes named 1 to a fixed capacity, as sorted neighbour lists.
///
/// Contracts see the network and the room in each list.
/// Memory, for each name: 8 bytes, a bit (present) and a block of 16, 32, 48 or 64 neighbours, two bytes each.
/// A longer list has a vector of its own.
/// An absent name has no neighbours.
#[derive(Drop)]
pub struct EdgeStore {
    rows: Rows,
    nodes: u32,
    here: EnabledSet,
    edges: u32,
    // A guess, checked before use: the last reserved edge's index in the row of the edge's first end.
    last_gap: usize,
}

impl Model for EdgeStore {
    ghost use Rattle.graph_store.specs.Graph.{Graph, graph_code, graph_of};
    ghost use Rattle.graph_store.specs.Rows.{IsStore};

    ghost Value = { Graph };

    ghost coded = { graph_code };

    ghost view = { λ s. graph_of s.nodes s.here s.rows };

    ghost invariant = { λ s. IsStore s.nodes s.here s.edges s.rows.lists };
}

impl EdgeStore {
    /// The graph of the nodes 1 to `nodes`, all present, without edges. No further node can join.
    /// Takes 8 bytes and a bit for each node.
    /// Errors: `TooManyNodes` if `nodes` is above 65,535; `Memory` if memory runs out.
    pub fn new(alloc: Global, nodes: u32) -> Result<EdgeStore, GraphFault>
        ensures ok { IfOk result (λ store. store.network ≡ edgeless nodes) }
        ensures small { OnOk result (nodes ≤ 65535) }
        ensures fault { IfErr result (λ fault. ExplainsGraphFault (nodes_fault nodes) fault) }
    {
        EdgeStore::with_present(alloc, nodes, nodes)
    }

    /// The graph of the names 1 to `nodes` without edges. Nodes 1 to `present` are present.
    /// Memory and errors are those of `new`.
    pub fn with_present(alloc: Global, nodes: u32, present: u32) -> Result<EdgeStore, GraphFault>
        requires within { present ≤ nodes }
        ensures ok { IfOk result (λ store. store.network ≡ edgeless_with nodes present) }
        ensures small { OnOk result (nodes ≤ 65535) }
        ensures fault { IfErr result (λ fault. ExplainsGraphFault (nodes_fault nodes) fault) }
    {
        if nodes > MAX_NAME {
            return Err(GraphFault::TooManyNodes);
        }
        let rows = Rows::new(alloc, nodes as usize + 1).map_err(|_| GraphFault::Memory)?;
        let here = first_names(alloc, nodes, present).map_err(|_| GraphFault::Memory)?;
        Ok(EdgeStore {
            rows,
            nodes,
            here,
            edges: 0,
            last_gap: 0,
        })
    }

    /// The number of names that are present, at most 65,535. One look.
    pub fn nodes(&self) -> u32
        ensures count { result ≡ node_count self.now.network }
        ensures few { result ≤ 65535 }
    {
        self.here.count()
    }

    /// The capacity: the greatest name that a node may have, at most 65,535. It never changes.
    pub fn capacity(&self) -> u32
        ensures size { result ≡ self.now.network.size }
        ensures few { result ≤ 65535 }
    {
        self.nodes
    }

    /// The node at index `k` by ascending name, from 0; `None` if `k` is at least `nodes()`.
    /// Looks at most at 24 counts and eight words.
    pub fn nth(&self, k: u32) -> Option<Node>
        ensures { result ≡ slice_get (names self.now.network) k }
    {
        self.here.nth(k)
    }

    /// Whether the graph has a node of this name. One look at one bit.
    #[inline(always)]
    pub fn has(&self, node: Node) -> bool
        ensures { result ≡ present self.now.network node }
    {
        self.here.contains(node)
    }

    /// The number of edges, at most 1,048,576.
    pub fn edges(&self) -> u32
        ensures count { result ≡ edge_count self.now.network }
        ensures few { result ≤ 1048576 }
    {
        self.edges
    }

    /// Whether an edge joins two nodes; `false` if either is not a node of the graph.
    /// Costs a binary search among the neighbours of `a`.
    pub fn linked(&self, a: Node, b: Node) -> bool
        ensures value { result ≡ linked self.now.network a b }
        ensures present { IsTrue result → IsTrue (present self.now.network a) × IsTrue (present self.now.network b) }
        ensures apart { IsTrue result → a ≢ b }
    {
        if a.name() > self.nodes {
            return false;
        }
        find_place(self.rows.row(a), b).is_ok()
    }

    /// The neighbours of a node, ascending.
    pub fn neighbours(&self, node: Node) -> &[Node]
        requires { IsTrue (present self.now.network node) }
        ensures all { result.now ≡ neighbours self.now.network node }
        ensures present { All (λ w. IsTrue (present self.now.network w)) result.now }
        ensures linked { All (λ w. IsTrue (linked self.now.network node w)) result.now }
        ensures rising { IsStrictlyIncreasing result.now }
        ensures found { (w : ℕ) → has result.now w ≡ linked self.now.network node w }
    {
        self.rows.row(node)
    }

    /// The edges, ascending by lower end, then by higher end.
    /// Looks at every name and at both ends of every edge; takes four bytes for each edge.
    /// Error: out of memory.
    pub fn list(&self) -> Result<Vec<Edge>, Want>
        ensures list { IfOk result (λ edges. edges.items ≡ edge_list self.now.network) }
        ensures few { IfOk result (λ edges. length edges.items ≤ 1048576) }
    {
        self.rows.list_pairs(self.edges)
    }

    fn check_ends(&self, a: Node, b: Node) -> Result<(), GraphFault>
        ensures ok { OnOk result (ends_fault self.now.network a b ≡ None) }
        ensures fault { IfErr result (λ fault. ends_fault self.now.network a b ≡ Some fault) }
    {
        if !self.has(a) || !self.has(b) {
            return Err(GraphFault::UnknownNode);
        }
        if a == b {
            return Err(GraphFault::SelfLoop);
        }
        Ok(())
    }

    // The index where `b` belongs among the neighbours of `a`. Errors: those of `link`, except `Memory`.
    fn check_link(&self, a: Node, b: Node) -> Result<usize, GraphFault>
        ensures free { OnOk result (link_fault self.now.network a b ≡ None) }
        ensures gap { IfOk result (λ place. IsGapFor (neighbours self.now.network a) b place) }
        ensures fault { IfErr result (λ fault. link_fault self.now.network a b ≡ Some fault) }
    {
        self.check_ends(a, b)?;
        let Err(place) = find_place(self.neighbours(a), b) else {
            return Err(GraphFault::AlreadyLinked);
        };
        if self.edges >= MAX_EDGES {
            return Err(GraphFault::TooManyEdges);
        }
        Ok(place)
    }

    /// Why `link` would refuse an edge, apart from a lack of memory; `None` if it would not refuse.
    /// Costs a binary search.
    pub fn link_fault(&self, a: Node, b: Node) -> Option<GraphFault>
        ensures { result ≡ link_fault self.now.network a b }
    {
        self.check_link(a, b).err()
    }

    // The index of `w` among the neighbours of `v`, or where `w` belongs.
    fn find_index(&self, v: Node, w: Node) -> usize
        requires { IsTrue (present self.now.network v) }
        ensures gap { linked self.now.network v w ≡ false → IsGapFor (neighbours self.now.network v) w result }
        ensures place { linked self.now.network v w ≡ true → IsPlaceOf (neighbours self.now.network v) w result }
    {
        find_index(self.neighbours(v), w)
    }

    fn make_room(&mut self, a: Node, b: Node) -> Result<(), GraphFault>
        requires present_a { IsTrue (present self.old.network a) }
        requires present_b { IsTrue (present self.old.network b) }
        ensures room { OnOk result (HasRoomFor self.new.room a b) }
        ensures fault { IfErr result (λ fault. fault ≡ Memory) }
        ensures unchanged { self.new.network ≡ self.old.network }
    {
        self.rows.reserve_both(a, b).map_err(|_| GraphFault::Memory)
    }

    /// Inserts the edge between two nodes: a binary search and a shift in both rows.
    /// Errors, in this order: `UnknownNode` if an end is not a node of the graph, `SelfLoop`,
    /// `AlreadyLinked`, `TooManyEdges` at 1,048,576 edges, `Memory`.
    pub fn link(&mut self, a: Node, b: Node) -> Result<(), GraphFault>
        ensures ok { OnOk result ((link_fault self.old.network a b ≡ None) × (self.new.network ≡ with_edge self.old.network a b)) }
        ensures fault { IfErr result (λ fault. ExplainsGraphFault (link_fault self.old.network a b) fault) }
        ensures unchanged { OnErr result (self.new.network ≡ self.old.network) }
    {
        self.reserve_link(a, b)?;
        self.link_reserved(a, b);
        Ok(())
    }

    /// Makes room for an edge, so that `link_reserved` can insert the edge.
    /// Costs a binary search among the neighbours of `a`, and the growth of at most two rows.
    /// Errors: those of `link`, in the same order. No edge changes.
    pub fn reserve_link(&mut self, a: Node, b: Node) -> Result<(), GraphFault>
        ensures ok { OnOk result ((link_fault self.old.network a b ≡ None) × HasRoomFor self.new.room a b) }
        ensures fault { IfErr result (λ fault. ExplainsGraphFault (link_fault self.old.network a b) fault) }
        ensures unchanged { self.new.network ≡ self.old.network }
    {
        self.last_gap = self.check_link(a, b)?;
        self.make_room(a, b)
    }

    /// Inserts an edge after room was made for the edge.
    /// Costs a binary search in the row of `b`, another in the row of `a` unless the last `reserve_link` was
    /// for this edge, and a shift in both rows.
    pub fn link_reserved(&mut self, a: Node, b: Node)
        requires free { link_fault self.old.network a b ≡ None }
        requires room { HasRoomFor self.old.room a b }
        ensures network { self.new.network ≡ with_edge self.old.network a b }
    {
        let place_in_a = guess_gap(self.neighbours(a), self.last_gap, b);
        let place_in_b = self.find_index(b, a);
        self.rows.put_both(a, place_in_a, b, place_in_b);
        self.edges += 1;
    }

    /// Removes an edge: a binary search and a shift in both rows.
    pub fn remove_edge(&mut self, a: Node, b: Node)
        requires { IsTrue (linked self.old.network a b) }
        ensures network { self.new.network ≡ without_edge self.old.network a b }
    {
        let place_in_a = self.find_index(a, b);
        let place_in_b = self.find_index(b, a);
        self.rows.take_both(a, place_in_a, b, place_in_b);
        self.edges -= 1;
    }

    /// Removes the edge between two nodes: binary searches and a shift in both rows.
    /// Errors, in this order: `UnknownNode` if an end is not a node of the graph, `SelfLoop`, `NotLinked`.
    pub fn unlink(&mut self, a: Node, b: Node) -> Result<(), GraphFault>
        ensures ok { OnOk result ((unlink_fault self.old.network a b ≡ None) × (self.new.network ≡ without_edge self.old.network a b)) }
        ensures fault { IfErr result (λ fault. unlink_fault self.old.network a b ≡ Some fault) }
        ensures unchanged { OnErr result (self.new.network ≡ self.old.network) }
    {
        self.check_ends(a, b)?;
        if !self.linked(a, b) {
            return Err(GraphFault::NotLinked);
        }
        self.remove_edge(a, b);
        Ok(())
    }

    /// Adds a node without neighbours: writes a bit and the counts of nodes.
    /// Errors, in this order: `UnknownNode` if the name is above the capacity, `AlreadyPresent`.
    pub fn join(&mut self, v: Node) -> Result<(), GraphFault>
        ensures ok { OnOk result ((join_fault self.old.network v ≡ None) × (self.new.network ≡ with_node self.old.network v)) }
        ensures fault { IfErr result (λ fault. join_fault self.old.network v ≡ Some fault) }
        ensures unchanged { OnErr result (self.new.network ≡ self.old.network) }
    {
        if v.name() > self.nodes {
            return Err(GraphFault::UnknownNode);
        }
        if self.here.contains(v) {
            return Err(GraphFault::AlreadyPresent);
        }
        self.here.insert(v);
        Ok(())
    }

    fn last_neighbour(&self, v: Node) -> Option<Node>
        requires { IsTrue (present self.now.network v) }
        ensures { MatchOption result (neighbours self.now.network v ≡ []) (λ w. unlink_fault self.now.network v w ≡ None) }
    {
        self.rows.row(v).last().copied()
    }

    /// Removes a node and its edges.
    /// Costs, for each neighbour, a binary search in two rows and a shift in the neighbour's row.
    /// Error: `UnknownNode` if `v` is not a node of the graph.
    pub fn leave(&mut self, v: Node) -> Result<(), GraphFault>
        ensures ok { OnOk result ((leave_fault self.old.network v ≡ None) × (self.new.network ≡ without_node self.old.network v)) }
        ensures fault { IfErr result (λ fault. leave_fault self.old.network v ≡ Some fault) }
        ensures unchanged { OnErr result (self.new.network ≡ self.old.network) }
    {
        if !self.has(v) {
            return Err(GraphFault::UnknownNode);
        }
        // From the end, so that the node's own row never shifts.
        while let Some(w) = self.last_neighbour(v) {
            self.unlink(v, w).unwrap();
        }
        self.part(v);
        Ok(())
    }

    /// Removes a node without edges: writes a bit and the counts of nodes.
    pub fn part(&mut self, v: Node)
        requires present { IsTrue (present self.old.network v) }
        requires alone { neighbours self.old.network v ≡ [] }
        ensures place { self.new.network ≡ record self.old.network { here = slice_set self.old.network.here v false } }
        ensures node { self.new.network ≡ without_node self.old.network v }
    {
        self.here.remove(v);
    }
}

/// The set with the members 1 to `count`, for names up to `size`.
/// Memory and error are those of `EnabledSet::new`.
pub fn first_names(alloc: Global, size: u32, count: u32) -> Result<EnabledSet, Want>
    requires few { size ≤ 65535 }
    requires within { count ≤ size }
    ensures { IfOk result (λ set. set ≡ first_names size count) }
{
    let mut set = EnabledSet::new(alloc, size)?;
    for name in 1..count + 1 {
        set.insert(Node::new(name).unwrap());
    }
    Ok(set)
}
