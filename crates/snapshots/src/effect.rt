//! The effect of an entry on the pointers and on the present nodes.

ghost use Rattle.std.specs.Prelude.{◌≡◌, None, fold, map, slice_set};
ghost use Rattle.rule_machine.specs.State.{is_at};
ghost use Rattle.rule_machine.specs.Disturbance.{unless_at};
ghost use Rattle.snapshots.specs.Row.{pointer_in, without_pointer_at, moved, disturbed_row, row_effect, presence_after, here_by, with_target, with_present};

use log_entry::Entry;
use rule_machine::{Act, Event, Moved, Node, NodeRecord, Reply};

fn write<T: Copy>(list: &mut [T], v: Node, value: T)
    ensures { list.new ≡ slice_set list.old v value }
{
    let place = v.place();
    if place < list.len() {
        list[place] = value;
    }
}

pub(crate) fn points_at(row: &[Option<Node>], v: Node, place: usize) -> bool
    ensures { result ≡ is_at (pointer_in row.now v) place }
{
    match row.get(v.place()) {
        Some(Some(target)) => target.place() == place,
        _ => false,
    }
}

fn clear(row: &mut [Option<Node>], v: Node, w: Node)
    ensures { row.new ≡ without_pointer_at row.old v w }
{
    if points_at(row, v, w.place()) {
        write(row, v, None);
    }
}

fn unless_at(pointer: Option<Node>, v: Node) -> Option<Node>
    ensures { result ≡ unless_at v pointer }
{
    if pointer == Some(v) { None } else { pointer }
}

fn drop_at(row: &mut [Option<Node>], v: Node)
    ensures { row.new ≡ map (unless_at v) row.old }
{
    for pointer in row.iter_mut() {
        *pointer = unless_at(*pointer, v);
    }
}

fn make_move(row: &mut [Option<Node>], m: &Moved)
    ensures { row.new ≡ moved row.old m.now }
{
    match m.act {
        Act::Update => {}
        Act::Marry | Act::Seduce => write(row, m.node, m.target),
        Act::Abandon => write(row, m.node, None),
    }
}

fn make_moves(row: &mut [Option<Node>], moves: &[Moved])
    ensures { row.new ≡ fold moved row.old moves.now }
{
    for m in moves {
        make_move(row, m);
    }
}

fn disturb(row: &mut [Option<Node>], event: &Event)
    ensures { row.new ≡ disturbed_row row.old event.now }
{
    match event {
        Event::Unlink(a, b) => {
            clear(row, *a, *b);
            clear(row, *b, *a);
        }
        Event::Point(v, target) => write(row, *v, *target),
        Event::Leave(v) => {
            drop_at(row, *v);
            write(row, *v, None);
        }
        _ => {}
    }
}

fn turn(here: &mut [bool], event: &Event)
    ensures { here.new ≡ presence_after here.old event.now }
{
    match event {
        Event::Join(v) => write(here, *v, true),
        Event::Leave(v) => write(here, *v, false),
        _ => {}
    }
}

pub(crate) fn take_in(row: &mut [Option<Node>], here: &mut [bool], entry: &Entry)
    ensures row { row.new ≡ row_effect row.old entry.now }
    ensures here { here.new ≡ here_by here.old entry.now }
{
    match entry.reply() {
        Reply::Accepted => {
            disturb(row, entry.event());
            turn(here, entry.event());
        }
        Reply::Moves(moves) => make_moves(row, moves.as_slice()),
        _ => {}
    }
}

pub(crate) fn put_nodes(row: &mut [Option<Node>], here: &mut [bool], nodes: &[NodeRecord])
    ensures row { row.new ≡ fold with_target row.old nodes.now }
    ensures here { here.new ≡ fold with_present here.old nodes.now }
{
    for at in nodes {
        write(row, at.node, at.target);
        write(here, at.node, true);
    }
}
