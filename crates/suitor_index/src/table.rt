//! Updates of a table of tallies, one for each name, when one node changes.

ghost use Rattle.std.specs.Prelude.{◌≡◌, ℕ, ◌+◌, ◌<◌, ◌&&◌, cond, false, not, true, IfSome, length, nat_eq};
ghost use Rattle.std.specs.Bool.{beq};
ghost use Rattle.std.specs.List.{list_any};
ghost use Rattle.std.specs.List.Sorted.{IsStrictlyIncreasing};
ghost use Rattle.rule_machine.specs.LocalViews.{asks_for};
ghost use Rattle.suitor_index.specs.Tallies.{tally_of};
ghost use Rattle.suitor_index.specs.TallyChanges.{AddsSuitor, IsAimed, HasSuitor, HasTallyRoom, CanTurn, IsTurned, HasNoneAlone, is_null_with_none_but};

use crate::tally::Tally;
use registers::Pointer;
use rule_machine::{Node, Rules, asks_for};

/// Removes `v` from the suitors of `pointer`, its old target.
pub(crate) fn leave(tallies: &mut [Tally], pointer: Option<Node>, v: Node)
    requires within { IfSome pointer (λ w. w < length tallies.old) }
    requires counted { IfSome pointer (λ w. HasSuitor (tally_of tallies.old w)) }
    ensures { AddsSuitor pointer v tallies.new tallies.old }
{
    if let Some(w) = pointer {
        let mut tally = tallies[w.place()];
        tally.suitors -= 1;
        tally.sum = tally.sum.wrapping_sub(v.name() as u16);
        tallies[w.place()] = tally;
    }
}

/// Adds `v` to the suitors of `pointer`, its new target.
pub(crate) fn court(tallies: &mut [Tally], pointer: Option<Node>, v: Node)
    requires within { IfSome pointer (λ w. w < length tallies.old) }
    requires room { IfSome pointer (λ w. HasTallyRoom (tally_of tallies.old w)) }
    ensures { AddsSuitor pointer v tallies.old tallies.new }
{
    if let Some(w) = pointer {
        let mut tally = tallies[w.place()];
        tally.suitors += 1;
        tally.sum = tally.sum.wrapping_add(v.name() as u16);
        tallies[w.place()] = tally;
    }
}

pub(crate) fn aim(tallies: &mut [Tally], v: Node, target: Option<Node>)
    requires within { v < length tallies.old }
    ensures { IsAimed v target tallies.old tallies.new }
{
    let mut tally = tallies[v.place()];
    tally.pointer = Pointer::new(target);
    tallies[v.place()] = tally;
}

/// The tally of a node for which one neighbour `was` open and `is` open.
#[inline(always)]
fn turned(tally: Tally, was: bool, is: bool) -> Tally
    requires { CanTurn was is tally }
    ensures count { result.reached + cond was 1 0 ≡ tally.reached + cond is 1 0 }
    ensures rest { result ≡ record tally { reached = result.reached } }
{
    let mut tally = tally;
    match (was, is) {
        (false, true) => tally.reached += 1,
        (true, false) => tally.reached -= 1,
        _ => {}
    }
    tally
}

/// Updates the count of `w` for one neighbour: whether that neighbour `was` open and `is` open.
///
/// Returns whether `w` then points nowhere and counts no open node but that neighbour. Reads the tally
/// before the write alone: a read of all of it right after a write of a part waits for that write.
#[inline(always)]
pub(crate) fn turn_at(tallies: &mut [Tally], w: Node, was: bool, is: bool) -> bool
    requires within { w < length tallies.old }
    requires turns { CanTurn was is (tally_of tallies.old w) }
    ensures turned { IsTurned (λ k. nat_eq k w) was is tallies.old tallies.new }
    ensures alone { result ≡ is_null_with_none_but is (tally_of tallies.new w) }
{
    let tally = turned(tallies[w.place()], was, is);
    let written = tally;
    tallies[w.place()] = written;
    tally.is_null_with_none_but(is)
}

/// Updates the count of each of the ascending `nodes` whose guard asks for `v`.
///
/// `was` and `is` are whether `v` was open and is open. Returns whether they differ and one of those nodes
/// points nowhere and counts no open node but `v`.
pub(crate) fn turn<R: Rules>(
    tallies: &mut [Tally],
    nodes: &[Node],
    v: Node,
    was: bool,
    is: bool,
) -> bool
    requires rising { IsStrictlyIncreasing nodes.now }
    requires within { (k : ℕ) → list_any (nat_eq k) nodes.now ≡ true → k < length tallies.old }
    requires turns { (k : ℕ) → (list_any (nat_eq k) nodes.now && asks_for R.COURTS_HIGHER_ONLY k v) ≡ true → CanTurn was is (tally_of tallies.old k) }
    ensures turned { IsTurned (λ k. list_any (nat_eq k) nodes.now && asks_for R.COURTS_HIGHER_ONLY k v) was is tallies.old tallies.new }
    ensures none { result ≡ false → not (beq was is) ≡ true → HasNoneAlone (λ k. list_any (nat_eq k) nodes.now && asks_for R.COURTS_HIGHER_ONLY k v) is tallies.new }
{
    if was == is {
        return false;
    }
    let mut alone = false;
    for &w in nodes {
        if !asks_for::<R>(w, v) {
            return alone;
        }
        alone |= turn_at(tallies, w, was, is);
    }
    alone
}
