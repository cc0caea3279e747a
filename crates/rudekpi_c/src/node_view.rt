//! Partner, registers, neighbours, nodes, edges, and the nodes not at rest. Asking makes no entry.

ghost use Rattle.std.specs.Prelude.{◌≡◌, IfOk, IsTrue, length};
ghost use Rattle.rule_machine.specs.Network.{names, neighbours};
ghost use Rattle.rule_machine.specs.State.{partner, pointer_of};
ghost use Rattle.rule_machine.specs.Tables.{table_of};
ghost use Rattle.rule_engine.specs.DisturbanceReach.{StaysAtRest};
ghost use Rattle.rudekpi_c.specs.ReachCalls.{rests_at, AnswersRest};
ghost use Rattle.rudekpi_c.specs.Session.{stands, rules_of};
ghost use Rattle.rudekpi_c.specs.SessionQuestions.{ArePut};
ghost use Rattle.rudekpi_c.specs.StateViews.{node_view, state_at, network_at, restless_at, AnswersPartner, AnswersRegisters, AnswersNeighbours, AnswersNodes, AnswersRestless, AnswersEdges};

use crate::call_result::{Row, number_told, put_rows};
use crate::session::{Machine, Session, with_run};
use crate::slot::{Slot, look};
use crate::status::{BAD_ARGUMENT, DONE, MEMORY, NO_SESSION, ok_or, some_or};
use registers::Registers;
use rule_machine::{Node, Want};
use std::alloc::Global;

/// A node's pointer, or 0 for null, its flag, and whether the node is present.
#[repr(C)]
#[derive(Clone, Copy, Default)]
pub struct NodeView {
    pub pointer: u32,
    pub flag: bool,
    pub present: bool,
}

/// A node's pointer; `None` for a name above the capacity.
fn pointer(registers: &Registers, v: Node) -> Option<Node>
    ensures { result ≡ pointer_of registers.now v }
{
    if v.place() < registers.pointers().len() {
        return registers.pointer(v);
    }
    None
}

impl Session {
    fn is_at_rest(&self, v: Node) -> bool
        ensures rests { result ≡ rests_at self.now v }
        ensures stays { IsTrue result → StaysAtRest (table_of (rules_of self.now)) (stands self.now).moment v }
    {
        with_run!(&self.machine, run => run.recorder.net().is_at_rest(v))
    }

    fn partner(&self, v: Node) -> Option<Node>
        ensures { result ≡ partner (state_at self.now) v }
    {
        let registers = self.registers();
        let w = some_or!(pointer(registers, v), None);
        if registers.points_at(w, v) {
            return Some(w);
        }
        None
    }

    fn node_view(&self, v: Node) -> NodeView
        ensures { result ≡ node_view (state_at self.now) v }
    {
        let registers = self.registers();
        if !self.store().has(v) {
            return NodeView::default();
        }
        NodeView {
            pointer: number_told(registers.pointer(v)),
            flag: registers.flag(v),
            present: true,
        }
    }

    fn neighbours(&self, v: Node) -> &[Node]
        ensures { result.now ≡ neighbours (network_at self.now) v }
    {
        // Gives the prover `IsState`.
        let _ = self.registers();
        let store = self.store();
        if !store.has(v) {
            return &[];
        }
        store.neighbours(v)
    }

    fn nodes(&self, alloc: Global) -> Result<Vec<Node>, Want>
        ensures { IfOk result (λ list. list.items ≡ names (network_at self.now)) }
    {
        let store = self.store();
        let mut list = Vec::with_capacity(alloc, store.nodes() as usize)?;
        for below in 0..store.capacity() {
            let v = Node::new(below + 1).unwrap();
            if store.has(v) {
                list.push(v)?;
            }
        }
        Ok(list)
    }

    fn restless(&self, alloc: Global) -> Result<Vec<Node>, Want>
        ensures { IfOk result (λ list. list.items ≡ restless_at self.now) }
    {
        let nodes = self.nodes(alloc)?;
        let all = nodes.as_slice();
        let mut list = Vec::new(alloc);
        for &v in all {
            if !self.is_at_rest(v) {
                list.push(v)?;
            }
        }
        Ok(list)
    }
}

/// Copies the names if all fit; returns how many there are.
pub(crate) fn put_names(out: &mut [u32], nodes: &[Node]) -> usize
    ensures count { result ≡ length nodes.now }
    ensures put { ArePut nodes.now out.old out.new }
{
    if nodes.len() > out.len() {
        return nodes.len();
    }
    for at in 0..nodes.len() {
        out[at] = nodes[at].name();
    }
    nodes.len()
}

/// Writes whether a node is at rest.
///
/// A node at rest does not move until a disturbance reaches it, whatever the daemon chooses. Returns 4 if
/// there is no session, and 5 if the name is 0 or above 65,535.
#[unsafe(no_mangle)]
pub extern "C" fn rudekpi_is_at_rest(
    alloc: Global,
    slot: &mut Slot,
    node: u32,
    rests: &mut bool,
) -> u32
    ensures rests { AnswersRest node result rests.new slot.old.handle.value }
    ensures kept { slot.new.handle.value ≡ slot.old.handle.value }
{
    *rests = false;
    let node = some_or!(Node::new(node), BAD_ARGUMENT);
    *rests = look!(alloc, slot, NO_SESSION, session => session.is_at_rest(node));
    DONE
}

/// Writes the partner of a node, or 0 if it has none.
///
/// Returns 4 if there is no session, and 5 for a name that is 0 or above 65,535.
#[unsafe(no_mangle)]
pub extern "C" fn rudekpi_partner(
    alloc: Global,
    slot: &mut Slot,
    node: u32,
    partner: &mut u32,
) -> u32
    ensures found { AnswersPartner node result partner.new slot.old.handle.value }
    ensures kept { slot.new.handle.value ≡ slot.old.handle.value }
{
    *partner = 0;
    let node = some_or!(Node::new(node), BAD_ARGUMENT);
    *partner = look!(alloc, slot, NO_SESSION, session => number_told(session.partner(node)));
    DONE
}

/// Writes a node's pointer, or 0 for null, its flag, and whether the node is present.
///
/// The registers of an absent node are 0 and false. Returns 4 if there is no session, and 5 if the name is 0
/// or above 65,535; then 0 and false are written.
#[unsafe(no_mangle)]
pub extern "C" fn rudekpi_registers(
    alloc: Global,
    slot: &mut Slot,
    node: u32,
    view: &mut NodeView,
) -> u32
    ensures found { AnswersRegisters node result view.new slot.old.handle.value }
    ensures kept { slot.new.handle.value ≡ slot.old.handle.value }
{
    *view = NodeView::default();
    let node = some_or!(Node::new(node), BAD_ARGUMENT);
    *view = look!(alloc, slot, NO_SESSION, session => session.node_view(node));
    DONE
}

/// Copies the names of a node's neighbours, ascending, to the start of `out`, if all fit.
///
/// `count` becomes the number of neighbours; an absent node has none. Returns 4 if there is no session, and 5
/// if the name is 0 or above 65,535; then `count` is 0. Takes no memory.
#[unsafe(no_mangle)]
pub extern "C" fn rudekpi_neighbours(
    alloc: Global,
    slot: &mut Slot,
    node: u32,
    out: &mut [u32],
    count: &mut usize,
) -> u32
    ensures listed { AnswersNeighbours node result count.new out.old out.new slot.old.handle.value }
    ensures kept { slot.new.handle.value ≡ slot.old.handle.value }
{
    *count = 0;
    let node = some_or!(Node::new(node), BAD_ARGUMENT);
    *count = look!(alloc, slot, NO_SESSION, session => put_names(out, session.neighbours(node)));
    DONE
}

/// Copies the names of the nodes that are present, ascending, to the start of `out`, if all fit.
///
/// `count` becomes the number of nodes. Returns 3 if memory runs out and 4 if there is no session; then
/// `count` is 0. `rudekpi_restless` and `rudekpi_edges` return the same statuses.
#[unsafe(no_mangle)]
pub extern "C" fn rudekpi_nodes(
    alloc: Global,
    slot: &mut Slot,
    out: &mut [u32],
    count: &mut usize,
) -> u32
    ensures listed { AnswersNodes result count.new out.old out.new slot.old.handle.value }
    ensures kept { slot.new.handle.value ≡ slot.old.handle.value }
{
    *count = 0;
    let list = look!(alloc, slot, NO_SESSION, session => session.nodes(alloc));
    let nodes = ok_or!(list, MEMORY);
    *count = put_names(out, &nodes);
    DONE
}

/// Copies the names of the nodes that are not at rest, ascending, to the start of `out`, if all fit.
///
/// `count` becomes the number of these nodes.
#[unsafe(no_mangle)]
pub extern "C" fn rudekpi_restless(
    alloc: Global,
    slot: &mut Slot,
    out: &mut [u32],
    count: &mut usize,
) -> u32
    ensures listed { AnswersRestless result count.new out.old out.new slot.old.handle.value }
    ensures kept { slot.new.handle.value ≡ slot.old.handle.value }
{
    *count = 0;
    let list = look!(alloc, slot, NO_SESSION, session => session.restless(alloc));
    let nodes = ok_or!(list, MEMORY);
    *count = put_names(out, &nodes);
    DONE
}

/// Copies the rows of the edges, ascending by lower, then by higher end, to the start of `out`, if all fit.
///
/// A row has the lower end as `node`, the higher end as `other`, and 0 as `rule`. `count` becomes the number
/// of edges.
#[unsafe(no_mangle)]
pub extern "C" fn rudekpi_edges(
    alloc: Global,
    slot: &mut Slot,
    out: &mut [Row],
    count: &mut usize,
) -> u32
    ensures listed { AnswersEdges result count.new out.old out.new slot.old.handle.value }
    ensures kept { slot.new.handle.value ≡ slot.old.handle.value }
{
    *count = 0;
    let list = look!(alloc, slot, NO_SESSION, session => session.store().list());
    let edges = ok_or!(list, MEMORY);
    *count = put_rows(out, &edges);
    DONE
}
