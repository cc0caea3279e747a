//! Finds a neighbour that calls a node, from a given index of the node's neighbour list on.
//!
//! A neighbour calls a node with a null pointer if it points at the node or the node may court it.

ghost use Rattle.std.specs.Prelude.{◌≡◌, ◌<◌, ◌≤◌, All, IfSome, IsTrue, is_some, length, slice_index_or};
ghost use Rattle.std.specs.List.{list_any};
ghost use Rattle.rule_machine.specs.Network.{linked, neighbours, present};
ghost use Rattle.rule_machine.specs.State.{IsState};
ghost use Rattle.reply_checker.specs.Callers.{calls_by};

use crate::witness::Witness;
use net_state::NetState;
use rule_machine::{Node, RuleSet};

#[inline(always)]
fn calls(net: &NetState, rules: RuleSet, v: Node, w: Node) -> bool
    requires { IsTrue (present net.now.state.network w) }
    ensures { result ≡ calls_by rules net.now.state v w }
{
    net.points(w, v)
        || match rules {
            RuleSet::Hh => net.pointer(w).is_none(),
            RuleSet::Manne => v < w && net.pointer(w).is_none() && !net.flag(w),
        }
}

pub(crate) fn first_caller(net: &NetState, rules: RuleSet, row: &[Node], v: Node) -> Option<usize>
    requires { All (λ w. IsTrue (present net.now.state.network w)) row.now }
    ensures some { is_some result ≡ list_any (calls_by rules net.now.state v) row.now }
    ensures inside { IfSome result (λ at. at < length row.now) }
    ensures calls { IfSome result (λ at. IsTrue (calls_by rules net.now.state v (slice_index_or row.now at 0))) }
{
    for (at, &w) in row.iter().enumerate() {
        if calls(net, rules, v, w) {
            return Some(at);
        }
    }
    None
}

/// The index of the first caller in `row` from index `start` on, or else of the first before `start`.
fn caller_from(net: &NetState, rules: RuleSet, row: &[Node], v: Node, start: usize) -> Option<usize>
    requires present { All (λ w. IsTrue (present net.now.state.network w)) row.now }
    requires within { start ≤ length row.now }
    ensures some { is_some result ≡ list_any (calls_by rules net.now.state v) row.now }
    ensures inside { IfSome result (λ at. at < length row.now) }
    ensures calls { IfSome result (λ at. IsTrue (calls_by rules net.now.state v (slice_index_or row.now at 0))) }
{
    match first_caller(net, rules, &row[start..], v) {
        Some(at) => Some(start + at),
        None => first_caller(net, rules, &row[..start], v),
    }
}

/// Whether a neighbour calls `v`; stores the caller in `witness`, or `None`.
///
/// Looks at the neighbours from index `place` on, then at those before it.
#[tactic(auto, using(crate::proofs::Degrees::few_edges))]
pub(crate) fn calls_any(net: &NetState, rules: RuleSet, v: Node, witness: &mut Witness) -> bool
    requires { IsTrue (present net.now.state.network v) }
    ensures value { result ≡ list_any (calls_by rules net.now.state v) (neighbours net.now.state.network v) }
    ensures sound { IsState net.now.state }
    ensures linked { IfSome witness.new.node (λ w. IsTrue (linked net.now.state.network v w)) }
    ensures calls { IfSome witness.new.node (λ w. IsTrue (calls_by rules net.now.state v w)) }
{
    // Gives the prover that there are few names.
    let _ = net.capacity();
    let row = net.neighbours(v);
    let start = usize::from(witness.place).min(row.len());
    match caller_from(net, rules, row, v, start) {
        Some(at) => {
            witness.place = at as u16;
            witness.node = Some(row[at]);
            true
        }
        None => {
            witness.node = None;
            false
        }
    }
}
