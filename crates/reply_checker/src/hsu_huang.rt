//! Hsu and Huang's rules: one node moves at a time, and no flag is used.

ghost use Rattle.std.specs.Prelude.{◌≡◌, ◌<◌, ◌≤◌, IsTrue, is_some};
ghost use Rattle.rule_machine.specs.Network.{present};
ghost use Rattle.rule_machine.specs.State as state;
ghost use Rattle.rule_machine.specs.RuleTable as table;
ghost use Rattle.rule_machine.specs.HsuHuang.{hsu_huang, hsu_huang_allowed};
ghost use Rattle.machine_laws.specs.ClosedByPointers.{hsu_huang_closes};
ghost use Rattle.machine_laws.specs.Costs as costs;
ghost use Rattle.machine_laws.specs.Degrees as degrees;
ghost use Rattle.reply_checker.specs.Witnesses.{RestsOn};

use crate::callers::{calls_any, first_caller};
use crate::reads::{degree, first_suitor, freed_edges, has_suitor, pointer, points_back};
use crate::witness::Witness;
use net_state::NetState;
use rule_machine::{Act, Event, Node, RuleSet};

#[tactic(auto, using(crate::proofs::EnabledNodes::hsu_huang_null))]
#[inline(always)]
pub(crate) fn rule_at(net: &NetState, v: Node) -> Option<Act>
    requires { IsTrue (present net.now.state.network v) }
    ensures { result ≡ table.rule_at hsu_huang net.now.state v }
{
    match net.pointer(v) {
        Some(w) if !points_back(net, v, w) && pointer(net, w).is_some() => Some(Act::Abandon),
        Some(_) => None,
        None if first_caller(net, RuleSet::Hh, net.neighbours(v), v).is_none() => None,
        None if first_suitor(net, v).is_some() => Some(Act::Marry),
        None => Some(Act::Seduce),
    }
}

pub(crate) fn is_enabled(net: &NetState, v: Node, witness: &mut Witness) -> bool
    requires { IsTrue (present net.now.state.network v) }
    ensures value { result ≡ is_some (table.rule_at hsu_huang net.now.state v) }
    ensures rests { RestsOn hsu_huang net.now.state v witness.new.node }
{
    match net.pointer(v) {
        Some(w) => {
            witness.node = Some(w);
            !points_back(net, v, w) && pointer(net, w).is_some()
        }
        None => calls_any(net, RuleSet::Hh, v, witness),
    }
}

pub(crate) fn is_allowed(net: &NetState, v: Node, act: Act, w: Node) -> bool
    ensures { result ≡ hsu_huang_allowed net.now.state v act w }
{
    match act {
        Act::Marry => net.linked(v, w) && net.points(w, v),
        Act::Seduce => net.linked(v, w) && pointer(net, w).is_none(),
        Act::Update | Act::Abandon => false,
    }
}

#[inline(always)]
pub(crate) fn closes(net: &NetState, v: Node) -> bool
    requires { IsTrue (present net.now.state.network v) }
    ensures { result ≡ hsu_huang_closes net.now.state v }
{
    // Gives the prover `IsState`.
    let _ = net.registers();
    match net.pointer(v) {
        Some(w) => net.pointer(w).is_none(),
        None => false,
    }
}

pub(crate) fn cost_of(net: &NetState, event: &Event) -> u32
    ensures { result ≡ costs.hsu_huang_cost net.now.state event.now }
{
    match event {
        Event::Link(_, _) => 2,
        Event::Unlink(a, b) => 2 * (freed_edges(net, *a, *b) + freed_edges(net, *b, *a)),
        Event::Point(v, _) => point_cost(net, *v),
        Event::Leave(v) => 2 * edges_of_target(net, *v).saturating_sub(1),
        Event::Flag(_, _) | Event::Join(_) | Event::Step(_) => 0,
        Event::Show(_) | Event::Enabled | Event::Matching | Event::Status => 0,
    }
}

fn point_cost(net: &NetState, v: Node) -> u32
    ensures { let s = net.now.state in result ≡ costs.hsu_huang_point_cost s.network v (state.is_unanswered s v) (state.has_suitor s v) (state.pointer s v) }
{
    match pointer(net, v) {
        Some(u) if net.points(u, v) => 2 * (degree(net, v) + degree(net, u)),
        Some(u) => 2 * degree(net, u),
        None if has_suitor(net, v) => 2 * degree(net, v),
        None => 1,
    }
}

fn edges_of_target(net: &NetState, v: Node) -> u32
    ensures value { result ≡ degrees.degree_at net.now.state.network (state.pointer net.now.state v) }
    ensures few { result ≤ 65535 }
{
    match pointer(net, v) {
        Some(u) => degree(net, u),
        None => 0,
    }
}
