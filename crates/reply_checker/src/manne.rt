//! The rules of Manne, Mjelde, Pilard and Tixeuil: any set of nodes moves at once, and flags show who is
//! married.

ghost use Rattle.std.specs.Prelude.{◌≡◌, ◌<◌, ◌≤◌, ◌&&◌, IsTrue, Some, find, is_some, nat_lt};
ghost use Rattle.rule_machine.specs.Charge.{manne_node_charge};
ghost use Rattle.rule_machine.specs.Network.{neighbours, present};
ghost use Rattle.rule_machine.specs.State as state;
ghost use Rattle.rule_machine.specs.RuleTable as table;
ghost use Rattle.rule_machine.specs.Manne.{manne, manne_allowed, may_court};
ghost use Rattle.machine_laws.specs.ClosedByPointers.{manne_closes};
ghost use Rattle.machine_laws.specs.Costs as costs;
ghost use Rattle.reply_checker.specs.Witnesses.{RestsOn};

use crate::callers::{calls_any, first_caller};
use crate::reads::{degree, first_suitor, flag, has_suitor, pointer, points_back};
use crate::witness::Witness;
use net_state::NetState;
use rule_machine::{Act, Event, Node, RuleSet};

#[tactic(auto, using(crate::proofs::EnabledNodes::manne_null_settled))]
#[inline(always)]
pub(crate) fn rule_at(net: &NetState, v: Node) -> Option<Act>
    requires { IsTrue (present net.now.state.network v) }
    ensures { result ≡ table.rule_at manne net.now.state v }
{
    if net.flag(v) != net.married(v) {
        return Some(Act::Update);
    }
    match net.pointer(v) {
        Some(w) if !points_back(net, v, w) && (flag(net, w) || w <= v) => Some(Act::Abandon),
        Some(_) => None,
        None if first_caller(net, RuleSet::Manne, net.neighbours(v), v).is_none() => None,
        None if first_suitor(net, v).is_some() => Some(Act::Marry),
        None => Some(Act::Seduce),
    }
}

pub(crate) fn is_enabled(net: &NetState, v: Node, witness: &mut Witness) -> bool
    requires { IsTrue (present net.now.state.network v) }
    ensures value { result ≡ is_some (table.rule_at manne net.now.state v) }
    ensures rests { RestsOn manne net.now.state v witness.new.node }
{
    match net.pointer(v) {
        Some(w) => {
            witness.node = Some(w);
            updates_or_abandons(net, v, w)
        }
        None if net.flag(v) => {
            witness.node = Some(v);
            true
        }
        None => calls_any(net, RuleSet::Manne, v, witness),
    }
}

/// Whether a rule is enabled at `v`, which points at `w`.
fn updates_or_abandons(net: &NetState, v: Node, w: Node) -> bool
    requires present { IsTrue (present net.now.state.network v) }
    requires at { state.pointer net.now.state v ≡ Some w }
    ensures value { result ≡ is_some (table.rule_at manne net.now.state v) }
    ensures sound { state.IsState net.now.state }
{
    // Gives the prover `IsState`.
    let _ = net.registers();
    net.flag(v) != net.married(v) || (!points_back(net, v, w) && (flag(net, w) || w <= v))
}

pub(crate) fn is_allowed(net: &NetState, v: Node, act: Act, w: Node) -> bool
    ensures { result ≡ manne_allowed net.now.state v act w }
{
    match act {
        Act::Marry => net.linked(v, w) && net.points(w, v),
        Act::Seduce => {
            net.linked(v, w) && may_court(net, v, w) && first_to_court_above(net, v, w).is_none()
        }
        Act::Update | Act::Abandon => false,
    }
}

#[inline(always)]
pub(crate) fn flag_charge(net: &NetState, v: Node) -> u8
    requires { IsTrue (present net.now.state.network v) }
    ensures value { result ≡ manne_node_charge net.now.state v }
    ensures few { result ≤ 2 }
{
    if net.married(v) {
        u8::from(!net.flag(v))
    } else {
        1 + u8::from(net.flag(v))
    }
}

#[inline(always)]
pub(crate) fn closes(net: &NetState, v: Node) -> bool
    requires { IsTrue (present net.now.state.network v) }
    ensures { result ≡ manne_closes net.now.state v }
{
    // Gives the prover `IsState`.
    let _ = net.registers();
    match net.pointer(v) {
        Some(w) => closes_at(net, v, w),
        None => false,
    }
}

#[inline(always)]
fn closes_at(net: &NetState, v: Node, w: Node) -> bool
    requires at { state.pointer net.now.state v ≡ Some w }
    requires sound { state.IsState net.now.state }
    ensures { result ≡ manne_closes net.now.state v }
{
    v < w && !net.flag(w) && !net.married(w)
}

fn may_court(net: &NetState, v: Node, w: Node) -> bool
    ensures { result ≡ may_court net.now.state v w }
{
    v < w && pointer(net, w).is_none() && !flag(net, w)
}

fn first_to_court_above(net: &NetState, v: Node, w: Node) -> Option<Node>
    requires { IsTrue (present net.now.state.network v) }
    ensures { result ≡ find (λ x. may_court net.now.state v x && nat_lt w x) (neighbours net.now.state.network v) }
{
    for &x in net.neighbours(v) {
        if w < x && may_court(net, v, x) {
            return Some(x);
        }
    }
    None
}

pub(crate) fn cost_of(net: &NetState, event: &Event) -> u32
    ensures { result ≡ costs.manne_cost net.now.state event.now }
{
    match event {
        Event::Link(_, _) => 2,
        Event::Unlink(a, b) if net.points(*a, *b) && net.points(*b, *a) => {
            2 * (degree(net, *a).saturating_sub(1) + degree(net, *b).saturating_sub(1)) + 4
        }
        Event::Unlink(_, _) => 0,
        Event::Point(v, _) => point_cost(net, *v),
        Event::Flag(v, true) if has_suitor(net, *v) => 1 + 2 * degree(net, *v),
        Event::Flag(_, _) => 1,
        Event::Join(_) => 1,
        Event::Leave(v) => leave_cost(net, *v),
        Event::Step(_) | Event::Show(_) => 0,
        Event::Enabled | Event::Matching | Event::Status => 0,
    }
}

fn point_cost(net: &NetState, v: Node) -> u32
    ensures { let s = net.now.state in result ≡ costs.manne_point_cost s.network v (state.is_unanswered s v) (state.pointer s v) }
{
    match pointer(net, v) {
        Some(u) if net.points(u, v) => 2 * (degree(net, v) + degree(net, u)) + 4,
        Some(_) => 2,
        None => 1,
    }
}

fn leave_cost(net: &NetState, v: Node) -> u32
    ensures { result ≡ costs.manne_cost net.now.state (Event.Leave v) }
{
    match pointer(net, v) {
        Some(u) if net.points(u, v) => 2 * degree(net, u).saturating_sub(1) + 2,
        Some(_) | None => 0,
    }
}
