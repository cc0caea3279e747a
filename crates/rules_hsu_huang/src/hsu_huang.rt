//! The rules of Hsu and Huang.

use crate::cost::{leave_cost, point_cost, unlink_cost};
use rule_machine::{Act, BadTarget, ChargeInput, Event, Local, Node, Rules, Touched};

/// Hsu and Huang's algorithm of 1992: one node moves at a time, and no flags are used.
#[derive(Clone, Copy, Debug, PartialEq, Eq)]
pub struct HsuHuang;

impl Rules for HsuHuang {
    ghost use Rattle.std.specs.Prelude.{true, false};
    ghost use Rattle.machine_laws.specs.ClosedByPointers.{hsu_huang_closes};
    ghost use Rattle.machine_laws.specs.Costs.{hsu_huang_cost};
    ghost use Rattle.rule_machine.specs.HsuHuang.{hsu_huang};
    ghost use Rattle.rules_hsu_huang.specs.Charge.{no_flag_charge};
    ghost use Rattle.rules_hsu_huang.specs.Laws.{hsu_huang_laws};

    ghost table = { hsu_huang };

    ghost CENTRAL = { true };

    ghost FLAGS = { false };

    ghost COURTS_HIGHER_ONLY = { false };

    ghost NODE_WEIGHT = { 1 };

    ghost COURTED_PAIR_CLOSES_EDGE = { true };

    ghost closes = { hsu_huang_closes };

    ghost adds = { no_flag_charge };

    ghost cost = { hsu_huang_cost };

    ghost laws = { hsu_huang_laws };

    const CENTRAL: bool = true;

    const FLAGS: bool = false;

    const COURTS_HIGHER_ONLY: bool = false;

    const NODE_WEIGHT: u64 = 1;

    const COURTED_PAIR_CLOSES_EDGE: bool = true;

    fn opens(pointer: Option<Node>, _flag: bool) -> bool {
        pointer.is_none()
    }

    fn guard<L: Local>(local: &L, v: Node) -> Option<Act> {
        match local.pointer(v) {
            None if local.has_suitor() => Some(Act::Marry),
            None if local.has_open() => Some(Act::Seduce),
            None => None,
            Some(w) => match local.pointer(w) {
                Some(x) if x != v => Some(Act::Abandon),
                _ => None,
            },
        }
    }

    fn target<L: Local>(local: &L, v: Node, wish: Option<Node>) -> Result<Option<Node>, BadTarget> {
        match (local.pointer(v), wish) {
            (Some(_), None) => Ok(None),
            (Some(_), Some(_)) => Err(BadTarget),
            (None, None) => match local.first_suitor() {
                Some(w) => Ok(Some(w)),
                None => Ok(local.first_open()),
            },
            (None, Some(w)) => {
                if local.is_suitor(w) || (local.first_suitor().is_none() && local.is_open(w)) {
                    Ok(wish)
                } else {
                    Err(BadTarget)
                }
            }
        }
    }

    fn closes(_node: Node, target: &ChargeInput) -> bool {
        target.pointer.is_none()
    }

    fn node_charge(_: &ChargeInput) -> u8 {
        0
    }

    #[tactic(auto, using(machine_laws::proofs::PresentNodes::first_present, machine_laws::proofs::PresentNodes::second_present, machine_laws::proofs::PresentNodes::pointer_present, machine_laws::proofs::PresentNodes::leaver_present))]
    fn cost<T: Touched>(touched: &T, event: &Event) -> u32 {
        match event {
            Event::Link(_, _) => 2,
            Event::Unlink(a, b) => unlink_cost(touched, *a, *b),
            Event::Point(v, _) => point_cost(touched, *v),
            Event::Leave(v) => leave_cost(touched, *v),
            _ => 0,
        }
    }
}
