//! The rules of Manne, Mjelde, Pilard and Tixeuil.

ghost use Rattle.std.specs.Prelude.{◌≡◌, ◌&&◌, ◌||◌, is_none};
ghost use Rattle.std.specs.Option.{option_or};
ghost use Rattle.rule_machine.specs.Network.{linked};
ghost use Rattle.rule_machine.specs.State.{IsState, is_at, suits, first_suitor};
ghost use Rattle.rule_machine.specs.RuleTable.{last_open_above};
ghost use Rattle.rules_manne.specs.Target.{is_free_node};

use crate::cost::{flag_cost, leave_cost, point_cost, unlink_cost};
use rule_machine::{Act, BadTarget, ChargeInput, Event, Local, Node, Rules, Touched};

/// The algorithm of Manne, Mjelde, Pilard and Tixeuil of 2009.
///
/// Any set of enabled nodes moves at once. A node's flag shows its neighbours whether it is married.
#[derive(Clone, Copy, Debug, PartialEq, Eq)]
pub struct Manne;

impl Rules for Manne {
    ghost use Rattle.std.specs.Prelude.{true, false};
    ghost use Rattle.machine_laws.specs.ClosedByPointers.{manne_closes};
    ghost use Rattle.machine_laws.specs.Costs.{manne_cost};
    ghost use Rattle.rule_machine.specs.Manne.{manne};
    ghost use Rattle.rule_machine.specs.Charge.{manne_node_charge};
    ghost use Rattle.rules_manne.specs.Laws.{manne_laws};

    ghost table = { manne };

    ghost CENTRAL = { false };

    ghost FLAGS = { true };

    ghost COURTS_HIGHER_ONLY = { true };

    ghost NODE_WEIGHT = { 3 };

    ghost COURTED_PAIR_CLOSES_EDGE = { false };

    ghost closes = { manne_closes };

    ghost adds = { manne_node_charge };

    ghost cost = { manne_cost };

    ghost laws = { manne_laws };

    const CENTRAL: bool = false;

    const FLAGS: bool = true;

    const COURTS_HIGHER_ONLY: bool = true;

    const NODE_WEIGHT: u64 = 3;

    const COURTED_PAIR_CLOSES_EDGE: bool = false;

    fn opens(pointer: Option<Node>, flag: bool) -> bool {
        pointer.is_none() && !flag
    }

    fn guard<L: Local>(local: &L, v: Node) -> Option<Act> {
        if local.flag(v) != local.married() {
            return Some(Act::Update);
        }
        match local.pointer(v) {
            None if local.has_suitor() => Some(Act::Marry),
            None if local.has_open_above() => Some(Act::Seduce),
            None => None,
            Some(w) => match local.pointer(w) {
                Some(x) if x == v => None,
                _ if local.flag(w) || w <= v => Some(Act::Abandon),
                _ => None,
            },
        }
    }

    fn target<L: Local>(local: &L, v: Node, wish: Option<Node>) -> Result<Option<Node>, BadTarget> {
        let free = is_free(local, v);
        match wish {
            None if free => Ok(least_target(local)),
            None => Ok(None),
            Some(_) if !free => Err(BadTarget),
            Some(w) if is_allowed(local, w) => Ok(Some(w)),
            Some(_) => Err(BadTarget),
        }
    }

    fn closes(node: Node, target: &ChargeInput) -> bool {
        if target.flag || target.is_married {
            return false;
        }
        node < target.node
    }

    fn node_charge(node: &ChargeInput) -> u8 {
        match (node.is_married, node.flag) {
            (true, true) => 0,
            (true, false) | (false, false) => 1,
            (false, true) => 2,
        }
    }

    #[tactic(auto, using(machine_laws::proofs::PresentNodes::first_present, machine_laws::proofs::PresentNodes::second_present, machine_laws::proofs::PresentNodes::pointer_present, machine_laws::proofs::PresentNodes::flagged_present, machine_laws::proofs::PresentNodes::leaver_present))]
    fn cost<T: Touched>(touched: &T, event: &Event) -> u32 {
        match event {
            Event::Link(_, _) => 2,
            Event::Unlink(a, b) => unlink_cost(touched, *a, *b),
            Event::Point(v, _) => point_cost(touched, *v),
            Event::Flag(v, value) => flag_cost(touched, *v, *value),
            Event::Join(_) => 1,
            Event::Leave(v) => leave_cost(touched, *v),
            _ => 0,
        }
    }
}

fn is_free<L: Local>(local: &L, v: Node) -> bool
    requires at { L.at local.now ≡ v }
    requires state { IsState (L.state local.now) }
    ensures { result ≡ is_free_node (L.state local.now) v }
{
    local.pointer(v).is_none() && !local.flag(v)
}

fn least_target<L: Local>(local: &L) -> Option<Node>
    ensures { result ≡ option_or (first_suitor (L.state local.now) (L.at local.now)) (last_open_above L.opens (L.state local.now) (L.at local.now)) }
{
    match local.first_suitor() {
        Some(w) => Some(w),
        None => local.last_open_above(),
    }
}

fn is_allowed<L: Local>(local: &L, w: Node) -> bool
    ensures { result
        ≡ ((linked (L.state local.now).network (L.at local.now) w
        && suits (L.state local.now) (L.at local.now) w)
        || (is_none (first_suitor (L.state local.now) (L.at local.now))
        && is_at (last_open_above L.opens (L.state local.now) (L.at local.now)) w)) }
{
    if local.is_suitor(w) {
        return true;
    }
    match local.first_suitor() {
        Some(_) => false,
        None => match local.last_open_above() {
            Some(x) => x == w,
            None => false,
        },
    }
}
