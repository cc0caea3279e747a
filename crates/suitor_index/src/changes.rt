//! The updates of the counts after a change of the network.

ghost use Rattle.std.specs.Prelude.{◌≡◌, ◌+◌, ◌<◌, ◌≤◌, ◌&&◌, IsTrue, Option, false, true, length, nat_eq};
ghost use Rattle.net_state.specs.Changes.{IsChange};
ghost use Rattle.net_state.specs.StateViews.{StateView};
ghost use Rattle.net_state.specs.declared.change.Change.TheVariants.{Pointed, Flagged, Linked, Unlinked, Joined};
ghost use Rattle.rule_machine.specs.Network.{present};
ghost use Rattle.rule_machine.specs.State.{pointer, flag};
ghost use Rattle.suitor_index.specs.PriorIndexes.{WasIndexed};
ghost use Rattle.rule_machine.specs.LocalViews.{asks_for};
ghost use Rattle.suitor_index.specs.Tallies.{tally_of, IsIndexed};
ghost use Rattle.suitor_index.specs.TallyChanges.{CanTurn, IsTurned};
ghost use Rattle.suitor_index.specs.TurnedGuards.{TurnsNone};

use crate::Suitors;
use crate::table::{aim, court, leave, turn, turn_at};
use crate::tally::{Tally, lone_tally};
use net_state::{Change, NetState, Observer};
use rule_machine::{Node, Rules, asks_for};

impl<R: Rules> Observer for Suitors<R> {
    ghost fits = { λ net it. IsIndexed R.COURTS_HIGHER_ONLY R.table.opens net.state it.tallies.items };

    ghost stays = { λ names it. Unit {0} };

    #[inline(always)]
    fn saw(&mut self, net: &NetState, change: Change) {
        let _ = self.follow(net, change);
    }
}

impl<R: Rules> Suitors<R> {
    /// Updates the counts as `saw` does, and returns whether a neighbour's guard may have turned.
    ///
    /// `false` only if the change did not open or close its node, or if each neighbour whose guard asks for
    /// the node points somewhere or has another open neighbour to ask for. Takes no memory.
    #[inline(always)]
    pub fn follow(&mut self, net: &NetState, change: Change) -> bool
        requires { (before : StateView) × (IsChange before change net.now × ⟦<Suitors<R> as Observer>⟧.fits before self.old) }
        ensures fits { ⟦<Suitors<R> as Observer>⟧.fits net.now self.new }
        ensures none { result ≡ false → TurnsNone R.COURTS_HIGHER_ONLY R.table.opens net.now.state change }
    {
        count_change::<R>(self.tallies.as_mut_slice(), net, change)
    }
}

#[inline(always)]
fn count_change<R: Rules>(tallies: &mut [Tally], net: &NetState, change: Change) -> bool
    requires { WasIndexed R.COURTS_HIGHER_ONLY R.table.opens tallies.old change net.now }
    ensures index { IsIndexed R.COURTS_HIGHER_ONLY R.table.opens net.now.state tallies.new }
    ensures none { result ≡ false → TurnsNone R.COURTS_HIGHER_ONLY R.table.opens net.now.state change }
{
    match change {
        Change::Pointed(v, was, is) => pointed::<R>(tallies, net, v, was, is),
        Change::Flagged(v, was, is) => flagged::<R>(tallies, net, v, was, is),
        Change::Linked(a, b) => {
            linked::<R>(tallies, net, a, b);
            false
        }
        Change::Unlinked(a, b) => {
            unlinked::<R>(tallies, net, a, b);
            false
        }
        Change::Joined(v) => {
            joined::<R>(tallies, net, v);
            false
        }
        Change::Removed(_) => false,
    }
}

/// Cost: a write at the old target and at the new target; if the node became open or ceased to be open,
/// also the writes of `flagged`.
fn pointed<R: Rules>(
    tallies: &mut [Tally],
    net: &NetState,
    v: Node,
    was: Option<Node>,
    is: Option<Node>,
) -> bool
    requires told { WasIndexed R.COURTS_HIGHER_ONLY R.table.opens tallies.old (Pointed v was is) net.now }
    requires places { length tallies.old ≡ net.now.state.network.size + 1 }
    requires here { IsTrue (present net.now.state.network v) }
    ensures index { IsIndexed R.COURTS_HIGHER_ONLY R.table.opens net.now.state tallies.new }
    ensures none { result ≡ false → TurnsNone R.COURTS_HIGHER_ONLY R.table.opens net.now.state (Pointed v was is) }
{
    // Copied: the prover drops facts about a moved value.
    let left = was;
    let courted = is;
    let target = is;
    let flag = net.flag(v);
    let was_open = R::opens(was, flag);
    let is_open = R::opens(is, flag);
    leave(tallies, left, v);
    court(tallies, courted, v);
    aim(tallies, v, target);
    turn::<R>(tallies, net.neighbours(v), v, was_open, is_open)
}

/// Cost: if the node became open or ceased to be open, a write at each neighbour whose guard asks for the
/// node; if guards ask for higher names alone, the scan stops at the first neighbour above the node.
fn flagged<R: Rules>(tallies: &mut [Tally], net: &NetState, v: Node, was: bool, is: bool) -> bool
    requires told { WasIndexed R.COURTS_HIGHER_ONLY R.table.opens tallies.old (Flagged v was is) net.now }
    requires places { length tallies.old ≡ net.now.state.network.size + 1 }
    requires here { IsTrue (present net.now.state.network v) }
    ensures index { IsIndexed R.COURTS_HIGHER_ONLY R.table.opens net.now.state tallies.new }
    ensures none { result ≡ false → TurnsNone R.COURTS_HIGHER_ONLY R.table.opens net.now.state (Flagged v was is) }
{
    let was_open = R::opens(net.pointer(v), was);
    let is_open = R::opens(net.pointer(v), is);
    turn::<R>(tallies, net.neighbours(v), v, was_open, is_open)
}

fn linked<R: Rules>(tallies: &mut [Tally], net: &NetState, a: Node, b: Node)
    requires told { WasIndexed R.COURTS_HIGHER_ONLY R.table.opens tallies.old (Linked a b) net.now }
    requires places { length tallies.old ≡ net.now.state.network.size + 1 }
    requires has_a { IsTrue (present net.now.state.network a) }
    requires has_b { IsTrue (present net.now.state.network b) }
    ensures { IsIndexed R.COURTS_HIGHER_ONLY R.table.opens net.now.state tallies.new }
{
    count_end::<R>(tallies, a, b, net, false, true);
    count_end::<R>(tallies, b, a, net, false, true);
}

fn unlinked<R: Rules>(tallies: &mut [Tally], net: &NetState, a: Node, b: Node)
    requires told { WasIndexed R.COURTS_HIGHER_ONLY R.table.opens tallies.old (Unlinked a b) net.now }
    requires places { length tallies.old ≡ net.now.state.network.size + 1 }
    requires has_a { IsTrue (present net.now.state.network a) }
    requires has_b { IsTrue (present net.now.state.network b) }
    ensures { IsIndexed R.COURTS_HIGHER_ONLY R.table.opens net.now.state tallies.new }
{
    count_end::<R>(tallies, a, b, net, true, false);
    count_end::<R>(tallies, b, a, net, true, false);
}

fn joined<R: Rules>(tallies: &mut [Tally], net: &NetState, v: Node)
    requires told { WasIndexed R.COURTS_HIGHER_ONLY R.table.opens tallies.old (Joined v) net.now }
    requires places { length tallies.old ≡ net.now.state.network.size + 1 }
    requires within { v ≤ net.now.state.network.size }
    ensures { IsIndexed R.COURTS_HIGHER_ONLY R.table.opens net.now.state tallies.new }
{
    tallies[v.place()] = lone_tally(None);
}

/// Updates the count of `w` for its edge to `v`: `was` and `is` are whether the edge was there and is there.
fn count_end<R: Rules>(tallies: &mut [Tally], w: Node, v: Node, net: &NetState, was: bool, is: bool)
    requires known { v ≤ net.now.state.network.size }
    requires within { w < length tallies.old }
    requires places { length tallies.old ≡ net.now.state.network.size + 1 }
    requires aimed { (tally_of tallies.old v).pointer ≡ pointer net.now.state v }
    requires turns { (asks_for R.COURTS_HIGHER_ONLY w v && R.table.opens (pointer net.now.state v) (flag net.now.state v)) ≡ true → CanTurn was is (tally_of tallies.old w) }
    ensures { IsTurned (λ k. (asks_for R.COURTS_HIGHER_ONLY w v && R.table.opens (pointer net.now.state v) (flag net.now.state v)) && nat_eq k w) was is tallies.old tallies.new }
{
    if asks_for::<R>(w, v) && R::opens(tallies[v.place()].pointer.target(), net.flag(v)) {
        turn_at(tallies, w, was, is);
    }
}
