//! What a name contributes to the totals of its network.

ghost use Rattle.std.specs.Prelude.{◌≡◌, ◌&&◌, ◌≤◌, false, not, cond, IsTrue};
ghost use Rattle.rule_machine.specs.Network.{present};
ghost use Rattle.rule_machine.specs.State.{IsState, holds_at, points};
ghost use Rattle.rule_machine.specs.ChargeInputs.{IsChargeInput};
ghost use Rattle.net_totals.specs.Contributions.{closing_at, stance_of, is_lower_end, node_part};

use net_state::EdgeStance;
use registers::Registers;
use rule_machine::{ChargeInput, Node, Rules};
use suitor_index::IndexedNet;

/// `added` is what the node adds to the charge apart from its edges.
///
/// `closing` is how many pointers at the node close an edge that is open by the stances of its ends.
#[derive(Clone, Copy)]
pub(crate) struct Contribution {
    pub(crate) added: u16,
    pub(crate) closing: u16,
}

pub(crate) const NO_CONTRIBUTION: Contribution = Contribution {
    added: 0,
    closing: 0,
};

#[inline(always)]
fn is_unanswered(registers: &Registers, node: &ChargeInput) -> bool
    ensures { result ≡ holds_at (λ w. not (points registers.now w node.now.node)) node.now.pointer }
{
    match node.pointer {
        Some(w) => !registers.points_at(w, node.node),
        None => false,
    }
}

/// The facts about a node that the charge depends on.
#[inline(always)]
fn standing<R: Rules>(index: &IndexedNet<'_, R>, v: Node) -> ChargeInput
    requires { IsTrue (present index.now.state.network v) }
    ensures node { result.node ≡ v }
    ensures standing { IsChargeInput index.now.state result }
{
    let net = index.net();
    ChargeInput {
        node: v,
        pointer: net.pointer(v),
        flag: net.flag(v),
        is_married: net.married(v),
        has_suitor: index.has_suitor(v),
    }
}

/// Whether `w` points at the node and thereby closes an edge that is open by the ends' stances.
#[inline(always)]
fn closes_edge<R: Rules>(index: &IndexedNet<'_, R>, w: Node, node: &ChargeInput) -> bool
    requires { IsChargeInput index.now.state node.now }
    ensures { result ≡ (points index.now.state.registers w node.now.node && R.closes index.now.state w) }
{
    index.net().points(w, node.node) && R::closes(w, node)
}

fn closing_among<R: Rules>(index: &IndexedNet<'_, R>, node: &ChargeInput) -> u16
    requires present { IsTrue (present index.now.state.network node.now.node) }
    requires standing { IsChargeInput index.now.state node.now }
    ensures { result ≡ closing_at (R.closes index.now.state) index.now.state node.now.node }
{
    let mut closing = 0;
    for &w in index.net().neighbours(node.node) {
        closing += u16::from(closes_edge(index, w, node));
    }
    closing
}

/// The number of pointers at a node that close an edge open by its ends.
///
/// Scans the neighbours only if the node has several suitors.
fn closing_at<R: Rules>(index: &IndexedNet<'_, R>, node: &ChargeInput) -> u16
    requires present { IsTrue (present index.now.state.network node.now.node) }
    requires standing { IsChargeInput index.now.state node.now }
    ensures { result ≡ closing_at (R.closes index.now.state) index.now.state node.now.node }
{
    // Gives the prover `IsState`.
    let _ = index.net();
    if !node.has_suitor {
        return 0;
    }
    match index.lone_suitor(node.node) {
        Some(w) => u16::from(closes_edge(index, w, node)),
        None => closing_among(index, node),
    }
}

pub(crate) fn contribution_of<R: Rules>(index: &IndexedNet<'_, R>, v: Node) -> Contribution
    ensures added { result.added ≡ cond (present index.now.state.network v) (node_part (R.adds index.now.state) index.now.state v) 0 }
    ensures closing { result.closing ≡ cond (present index.now.state.network v) (closing_at (R.closes index.now.state) index.now.state v) 0 }
{
    if !index.net().has(v) {
        return NO_CONTRIBUTION;
    }
    let node = standing(index, v);
    Contribution {
        added: u16::from(is_unanswered(index.net().registers(), &node))
            + u16::from(R::node_charge(&node)),
        closing: closing_at(index, &node),
    }
}

pub(crate) fn is_lower_end<R: Rules>(index: &IndexedNet<'_, R>, v: Node) -> bool
    requires { v ≤ index.now.state.network.size }
    ensures { result ≡ is_lower_end index.now.state.registers v }
{
    match index.net().pointer(v) {
        Some(w) => v < w && index.net().points(w, v),
        None => false,
    }
}

/// The stance of node `v` on its edges; `Shut` if `v` is absent.
pub(crate) fn stance_at<R: Rules>(index: &IndexedNet<'_, R>, v: Node) -> EdgeStance
    ensures { IsTrue (present index.now.state.network v) → result ≡ stance_of R.COURTED_PAIR_CLOSES_EDGE index.now.state v }
{
    if !index.net().has(v) {
        return EdgeStance::Shut;
    }
    let node = standing(index, v);
    if node.is_married {
        EdgeStance::Shut
    } else if R::COURTED_PAIR_CLOSES_EDGE && node.pointer.is_none() && node.has_suitor {
        EdgeStance::Courted
    } else {
        EdgeStance::Free
    }
}
