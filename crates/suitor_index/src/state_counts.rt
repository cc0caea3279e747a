//! The counts of a given state.

ghost use Rattle.std.specs.Prelude.{◌≡◌, ◌+◌, ◌%◌, ◌<◌, ◌≤◌, ◌&&◌, IfOk, IsTrue, cond};
ghost use Rattle.rule_machine.specs.Network.{present};
ghost use Rattle.rule_machine.specs.State.{flag, pointer, points};
ghost use Rattle.rule_machine.specs.LocalViews.{asks_for};
ghost use Rattle.suitor_index.specs.Tallies.{reduced, tally_at};
ghost use Rattle.suitor_index.specs.TallyChanges.{HasTallyRoom, one_if};

use crate::Suitors;
use crate::tally::{Tally, lone_tally};
use net_state::{NetState, Observer};
use rule_machine::{Node, Rules, Want, asks_for};
use std::alloc::Global;

fn count_neighbour<R: Rules>(tally: &mut Tally, net: &NetState, v: Node, w: Node)
    requires known { w ≤ net.now.state.network.size }
    requires room { HasTallyRoom tally.old }
    requires few { tally.old.reached < 65535 }
    ensures suitors { tally.new.suitors ≡ tally.old.suitors + one_if (points net.now.state.registers w v) }
    ensures sum { tally.new.sum % 65536 ≡ (tally.old.sum + cond (points net.now.state.registers w v) w 0) % 65536 }
    ensures pointer { tally.new.pointer ≡ tally.old.pointer }
    ensures reached { tally.new.reached ≡ tally.old.reached + one_if (asks_for R.COURTS_HIGHER_ONLY v w && R.table.opens (pointer net.now.state w) (flag net.now.state w)) }
{
    if net.points(w, v) {
        tally.suitors += 1;
        tally.sum = tally.sum.wrapping_add(w.name() as u16);
    }
    if asks_for::<R>(v, w) && R::opens(net.pointer(w), net.flag(w)) {
        tally.reached += 1;
    }
}

fn count_at<R: Rules>(net: &NetState, v: Node) -> Tally
    requires { IsTrue (present net.now.state.network v) }
    ensures { reduced result ≡ tally_at R.COURTS_HIGHER_ONLY R.table.opens net.now.state v }
{
    // Gives the prover the greatest number of names.
    let _ = net.capacity();
    let mut tally = lone_tally(net.pointer(v));
    for &w in net.neighbours(v) {
        count_neighbour::<R>(&mut tally, net, v, w);
    }
    tally
}

impl<R: Rules> Suitors<R> {
    /// The counts of a state.
    ///
    /// Takes eight bytes a name; fails only if memory runs out.
    ///
    /// Cost: one pass over the neighbours of each node.
    pub fn of(alloc: Global, net: &NetState) -> Result<Suitors<R>, Want>
        ensures { IfOk result (λ it. ⟦<Suitors<R> as Observer>⟧.fits net.now it) }
    {
        let mut suitors = Suitors::new(alloc, net.capacity())?;
        for below in 0..net.capacity() {
            let v = Node::new(below + 1).unwrap();
            if net.has(v) {
                suitors.tallies[v.place()] = count_at::<R>(net, v);
            }
        }
        Ok(suitors)
    }
}
