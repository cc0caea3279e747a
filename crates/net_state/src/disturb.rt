//! Edits that an observer follows, and the disturbances and moves that consist of several of them.

ghost use Rattle.std.specs.Prelude.{◌≡◌, ◌≤◌, All, Bool, IfSome, IsTrue, List, MatchOption, None, [], false, fold};
ghost use Rattle.graph_store.specs.Fault.{link_fault};
ghost use Rattle.graph_store.specs.Graph.{HasRoomFor};
ghost use Rattle.rule_machine.specs.Network.{present, linked, neighbours, without_edge};
ghost use Rattle.rule_machine.specs.State.{IsState, flag, points};
ghost use Rattle.rule_machine.specs.Disturbance.{after_link, after_join, after_unlink, after_point, after_flag, after_leave, without_pointer};
ghost use Rattle.rule_machine.specs.Refuse.{unlink_refusal};
ghost use Rattle.rule_machine.specs.Step.{after_moves};
ghost use Rattle.machine_laws.specs.TwoPasses.{IsMoveIn, flag_read, pointer_written};
ghost use Rattle.net_state.specs.StateViews.{without_place};

use crate::{Change, NetState, Observer};
use rule_machine::{Act, Moved, Node};

/// Adds the edge between two nodes that have room for it. Takes no memory.
pub fn link_reserved<O: Observer>(net: &mut NetState, observer: &mut O, a: Node, b: Node)
    requires free { link_fault net.old.state.network a b ≡ None }
    requires room { HasRoomFor net.old.room a b }
    requires fits { O.fits net.old observer.old }
    ensures state { net.new.state ≡ after_link net.old.state a b }
    ensures fits { O.fits net.new observer.new }
{
    net.store.link_reserved(a, b);
    observer.saw(net, Change::Linked(a, b));
}

/// Writes a node's pointer, to null or to a neighbour. Takes no memory.
#[inline(always)]
pub fn set_pointer<O: Observer>(net: &mut NetState, observer: &mut O, v: Node, target: Option<Node>)
    requires present { IsTrue (present net.old.state.network v) }
    requires near { IfSome target (λ w. IsTrue (linked net.old.state.network v w)) }
    requires fits { O.fits net.old observer.old }
    ensures value { net.new.state ≡ after_point net.old.state v target }
    ensures fits { O.fits net.new observer.new }
    ensures stays { (names : List Bool) → O.stays names observer.old → O.stays names observer.new }
{
    let was = net.registers.pointer(v);
    let is = target;
    net.registers.set_pointer(v, target);
    observer.saw(net, Change::Pointed(v, was, is));
}

/// Writes a node's flag. Takes no memory. If the flag has the value already, there is no change to observe.
#[inline(always)]
pub fn set_flag<O: Observer>(net: &mut NetState, observer: &mut O, v: Node, value: bool)
    requires present { IsTrue (present net.old.state.network v) }
    requires fits { O.fits net.old observer.old }
    ensures value { net.new.state ≡ after_flag net.old.state v value }
    ensures sound { IsState net.new.state }
    ensures fits { O.fits net.new observer.new }
    ensures stays { (names : List Bool) → O.stays names observer.old → O.stays names observer.new }
{
    let was = net.registers.flag(v);
    if was == value {
        return;
    }
    net.registers.set_flag(v, value);
    observer.saw(net, Change::Flagged(v, was, value));
}

/// Removes an edge that no pointer crosses. Takes no memory.
pub fn remove_edge<O: Observer>(net: &mut NetState, observer: &mut O, a: Node, b: Node)
    requires linked { IsTrue (linked net.old.state.network a b) }
    requires not_there { points net.old.state.registers a b ≡ false }
    requires not_back { points net.old.state.registers b a ≡ false }
    requires fits { O.fits net.old observer.old }
    ensures value { net.new.state ≡ record net.old.state { network = without_edge net.old.state.network a b } }
    ensures fits { O.fits net.new observer.new }
{
    net.store.remove_edge(a, b);
    observer.saw(net, Change::Unlinked(a, b));
}

/// Frees the name of a node that has no edge and whose flag is false. Takes no memory.
pub fn remove_node<O: Observer>(net: &mut NetState, observer: &mut O, v: Node)
    requires present { IsTrue (present net.old.state.network v) }
    requires alone { neighbours net.old.state.network v ≡ [] }
    requires unflagged { flag net.old.state v ≡ false }
    requires fits { O.fits net.old observer.old }
    ensures value { net.new.state ≡ without_place net.old.state v }
    ensures fits { O.fits net.new observer.new }
{
    net.store.part(v);
    observer.saw(net, Change::Removed(v));
}

/// Adds a node without an edge; its pointer is null and its flag false. Takes no memory.
pub fn join<O: Observer>(net: &mut NetState, observer: &mut O, v: Node)
    requires within { v ≤ net.old.state.network.size }
    requires absent { present net.old.state.network v ≡ false }
    requires fits { O.fits net.old observer.old }
    ensures state { net.new.state ≡ after_join net.old.state v }
    ensures fits { O.fits net.new observer.new }
{
    prove!(v.name() >= 1);
    net.store.join(v).unwrap();
    observer.saw(net, Change::Joined(v));
}

fn last_neighbour(net: &NetState, v: Node) -> Option<Node>
    requires { IsTrue (present net.now.state.network v) }
    ensures last { MatchOption result (neighbours net.now.state.network v ≡ []) (λ w. IsTrue (linked net.now.state.network v w)) }
    ensures sound { IsState net.now.state }
{
    // Gives the prover `IsState`.
    let _ = net.registers();
    net.neighbours(v).last().copied()
}

fn clear_pointer<O: Observer>(net: &mut NetState, observer: &mut O, v: Node, w: Node)
    requires present { IsTrue (present net.old.state.network v) }
    requires fits { O.fits net.old observer.old }
    ensures value { net.new.state ≡ record net.old.state { registers = without_pointer net.old.state.registers v w } }
    ensures fits { O.fits net.new observer.new }
{
    if net.points(v, w) {
        set_pointer(net, observer, v, None);
    }
}

/// Removes the edge between two nodes, and sets to null the pointers that crossed it.
///
/// Cost: a shift in two neighbour lists; no memory.
pub fn unlink<O: Observer>(net: &mut NetState, observer: &mut O, a: Node, b: Node)
    requires accepted { unlink_refusal net.old.state.network a b ≡ None }
    requires fits { O.fits net.old observer.old }
    ensures value { net.new.state ≡ after_unlink net.old.state a b }
    ensures fits { O.fits net.new observer.new }
{
    // Gives the prover `IsState`.
    let _ = net.registers();
    clear_pointer(net, observer, a, b);
    clear_pointer(net, observer, b, a);
    remove_edge(net, observer, a, b);
}

fn unlink_all<O: Observer>(net: &mut NetState, observer: &mut O, v: Node)
    requires present { IsTrue (present net.old.state.network v) }
    requires fits { O.fits net.old observer.old }
    ensures left { after_leave net.new.state v ≡ after_leave net.old.state v }
    ensures present { IsTrue (present net.new.state.network v) }
    ensures alone { neighbours net.new.state.network v ≡ [] }
    ensures fits { O.fits net.new observer.new }
{
    // From the end, so that the node's own list never shifts.
    while let Some(w) = last_neighbour(net, v) {
        unlink(net, observer, v, w);
    }
}

/// Makes a node absent: removes its edges, resets its registers, and sets pointers at it to null.
///
/// Cost: for each neighbour a look-up and a shift in the neighbour's list; no memory.
pub fn leave<O: Observer>(net: &mut NetState, observer: &mut O, v: Node)
    requires present { IsTrue (present net.old.state.network v) }
    requires fits { O.fits net.old observer.old }
    ensures value { net.new.state ≡ after_leave net.old.state v }
    ensures fits { O.fits net.new observer.new }
{
    unlink_all(net, observer, v);
    set_flag(net, observer, v, false);
    remove_node(net, observer, v);
}

fn write_flags<O: Observer>(net: &mut NetState, observer: &mut O, moves: &[Moved])
    requires moves { All (IsMoveIn net.old.state.network) moves.now }
    requires fits { O.fits net.old observer.old }
    ensures registers { net.new.state.registers ≡ fold flag_read net.old.state.registers moves.now }
    ensures network { net.new.state.network ≡ net.old.state.network }
    ensures fits { O.fits net.new observer.new }
    ensures stays { (names : List Bool) → O.stays names observer.old → O.stays names observer.new }
{
    for moved in moves {
        match moved.act {
            Act::Update => {
                let married = net.registers().married(moved.node);
                set_flag(net, observer, moved.node, married);
            }
            Act::Marry | Act::Seduce | Act::Abandon => {}
        }
    }
}

fn write_pointers<O: Observer>(net: &mut NetState, observer: &mut O, moves: &[Moved])
    requires moves { All (IsMoveIn net.old.state.network) moves.now }
    requires fits { O.fits net.old observer.old }
    ensures registers { net.new.state.registers ≡ fold pointer_written net.old.state.registers moves.now }
    ensures network { net.new.state.network ≡ net.old.state.network }
    ensures fits { O.fits net.new observer.new }
    ensures stays { (names : List Bool) → O.stays names observer.old → O.stays names observer.new }
{
    for moved in moves {
        match moved.act {
            Act::Update => {}
            Act::Marry | Act::Seduce => set_pointer(net, observer, moved.node, moved.target),
            Act::Abandon => set_pointer(net, observer, moved.node, None),
        }
    }
}

/// Carries out the moves of one step. Each new flag is computed from the pointers before the step.
pub fn make_moves<O: Observer>(net: &mut NetState, observer: &mut O, moves: &[Moved])
    requires moves { All (IsMoveIn net.old.state.network) moves.now }
    requires fits { O.fits net.old observer.old }
    ensures value { net.new.state ≡ after_moves net.old.state moves.now }
    ensures fits { O.fits net.new observer.new }
    ensures stays { (names : List Bool) → O.stays names observer.old → O.stays names observer.new }
{
    // Gives the prover `IsState`.
    let _ = net.registers();
    write_flags(net, observer, moves);
    write_pointers(net, observer, moves);
}
