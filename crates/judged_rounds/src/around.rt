//! Marks the names whose rules an entry may enable or disable.

ghost use Rattle.std.specs.Prelude.{◌≡◌, ◌+◌, ◌&&◌, ◌||◌, length, nat_eq, IsTrue};
ghost use Rattle.std.specs.List.{list_any};
ghost use Rattle.rule_machine.specs.Network.{linked, present};
ghost use Rattle.reply_checker.specs.Witnesses.{depends_on};
ghost use Rattle.graph_store.specs.Rows.{has};
ghost use Rattle.rule_machine.specs.State.{points};
ghost use Rattle.judged_rounds.specs.Around.{MarksAll, is_affected, is_affected_by, is_near, is_near_leaver, is_near_suitor, is_touched, witness_at};

use enabled_set::Marks;
use net_state::NetState;
use reply_checker::{Judge, Witness};
use rule_machine::{Event, Moved, Node, Reply};

#[tactic(auto, using(crate::proofs::Sets::marked_one, crate::proofs::Sets::marked_none))]
fn mark(due: &mut Marks, size: u32, v: Node)
    requires { length due.old ≡ size + 1 }
    ensures { MarksAll size (λ u. nat_eq u v) due.old due.new }
{
    if v.name() <= size {
        due.mark(v);
    }
}

fn mark_row(due: &mut Marks, size: u32, row: &[Node])
    requires { length due.old ≡ size + 1 }
    ensures { MarksAll size (has row.now) due.old due.new }
{
    for &w in row {
        mark(due, size, w);
    }
}

fn mark_near(due: &mut Marks, size: u32, net: &NetState, v: Node)
    requires { length due.old ≡ size + 1 }
    ensures { MarksAll size (is_near net.now.state v) due.old due.new }
{
    mark(due, size, v);
    let store = net.store();
    if store.has(v) {
        mark_row(due, size, store.neighbours(v));
    }
}

#[tactic(auto, using(crate::proofs::Sets::witness_is))]
fn mark_dependant(due: &mut Marks, size: u32, witnesses: &[Witness], v: Node, w: Node)
    requires places { length due.old ≡ size + 1 }
    requires witness_places { length witnesses.now ≡ size + 1 }
    ensures { MarksAll size (λ u. nat_eq u w && depends_on (witness_at witnesses.now u) v) due.old due.new }
{
    if w.name() <= size && witnesses[w.place()].depends_on(v) {
        mark(due, size, w);
    }
}

fn mark_dependants(due: &mut Marks, size: u32, witnesses: &[Witness], net: &NetState, v: Node)
    requires places { length due.old ≡ size + 1 }
    requires witness_places { length witnesses.now ≡ size + 1 }
    requires present { IsTrue (present net.now.state.network v) }
    ensures { MarksAll size (λ u. linked net.now.state.network v u && depends_on (witness_at witnesses.now u) v) due.old due.new }
{
    for &w in net.store().neighbours(v) {
        mark_dependant(due, size, witnesses, v, w);
    }
}

fn mark_touched(due: &mut Marks, size: u32, witnesses: &[Witness], net: &NetState, v: Node)
    requires places { length due.old ≡ size + 1 }
    requires witness_places { length witnesses.now ≡ size + 1 }
    ensures { MarksAll size (is_touched net.now.state witnesses.now v) due.old due.new }
{
    mark(due, size, v);
    if net.has(v) {
        mark_dependants(due, size, witnesses, net, v);
    }
}

/// Marks the names near those of a list that point at `v`.
fn mark_suitors(due: &mut Marks, size: u32, net: &NetState, v: Node, row: &[Node])
    requires { length due.old ≡ size + 1 }
    ensures { MarksAll size (λ u. list_any (λ w. is_near_suitor net.now.state v w u) row.now) due.old due.new }
{
    for &w in row {
        if net.points(w, v) {
            mark_near(due, size, net, w);
        }
    }
}

fn mark_leaving(due: &mut Marks, size: u32, net: &NetState, v: Node)
    requires { length due.old ≡ size + 1 }
    ensures { MarksAll size (is_near_leaver net.now.state v) due.old due.new }
{
    mark_near(due, size, net, v);
    let store = net.store();
    if store.has(v) {
        mark_suitors(due, size, net, v, store.neighbours(v));
    }
}

fn mark_disturbed(due: &mut Marks, size: u32, witnesses: &[Witness], net: &NetState, event: &Event)
    requires places { length due.old ≡ size + 1 }
    requires witness_places { length witnesses.now ≡ size + 1 }
    ensures { MarksAll size (is_affected_by net.now.state witnesses.now event.now) due.old due.new }
{
    match event {
        Event::Link(a, b) => {
            mark(due, size, *a);
            mark(due, size, *b);
        }
        Event::Unlink(a, b) => {
            mark_near(due, size, net, *a);
            mark_near(due, size, net, *b);
        }
        Event::Point(v, _) | Event::Flag(v, _) => mark_touched(due, size, witnesses, net, *v),
        Event::Join(v) => mark(due, size, *v),
        Event::Leave(v) => mark_leaving(due, size, net, *v),
        _ => {}
    }
}

fn mark_moved(due: &mut Marks, size: u32, witnesses: &[Witness], net: &NetState, moves: &[Moved])
    requires places { length due.old ≡ size + 1 }
    requires witness_places { length witnesses.now ≡ size + 1 }
    ensures { MarksAll size (λ u. list_any (λ m. is_touched net.now.state witnesses.now m.node u) moves.now) due.old due.new }
{
    for moved in moves {
        mark_touched(due, size, witnesses, net, moved.node);
    }
}

/// Marks the names whose rules an event with this reply may enable or disable in the judge's state.
pub(crate) fn mark_affected(
    due: &mut Marks,
    size: u32,
    witnesses: &[Witness],
    judge: &Judge,
    event: &Event,
    reply: &Reply,
)
    requires places { length due.old ≡ size + 1 }
    requires witness_places { length witnesses.now ≡ size + 1 }
    ensures { MarksAll size (is_affected judge.now witnesses.now event.now reply.now) due.old due.new }
{
    let net = judge.net();
    match reply {
        Reply::Accepted => mark_disturbed(due, size, witnesses, net, event),
        Reply::Moves(moves) => mark_moved(due, size, witnesses, net, moves.as_slice()),
        _ => {}
    }
}
