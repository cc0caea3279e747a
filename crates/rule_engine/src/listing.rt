//! The lists that answer queries.

ghost use Rattle.std.specs.Prelude.{All, ◌≡◌, IfOk, IsTrue, filter_map};
ghost use Rattle.rule_machine.specs.RuleTable.{enabled_names, enabled};
ghost use Rattle.rule_machine.specs.Stable.{mutual_pairs, pair_above};
ghost use Rattle.net_totals.specs.Contributions.{answered_by, is_lower_end};

use crate::Derived;
use crate::guard::rule_enabled;
use net_state::{NetState, Observer};
use registers::Registers;
use rule_machine::{Act, Edge, Node, Rules, Want};
use std::alloc::Global;
use suitor_index::IndexedNet;

pub(crate) fn enabled_rules<R: Rules>(
    alloc: Global,
    state: &IndexedNet<'_, R>,
    nodes: &[Node],
) -> Result<Vec<(Node, Act)>, Want>
    requires { nodes.now ≡ enabled_names R.table state.now.state }
    ensures { IfOk result (λ v. v.items ≡ enabled R.table state.now.state) }
{
    let mut rules = Vec::with_capacity(alloc, nodes.len())?;
    for &v in nodes {
        if let Some(act) = rule_enabled(state, v) {
            rules.push((v, act))?;
        }
    }
    Ok(rules)
}

#[inline(always)]
fn pair_at(registers: &Registers, v: Node) -> Option<Edge>
    requires { IsTrue (is_lower_end registers.now v) }
    ensures { result ≡ pair_above v (answered_by registers.now v) }
{
    let pointer = registers.pointers().get(v.place())?;
    Edge::new(v, pointer.target()?)
}

fn pairs_of(alloc: Global, registers: &Registers, ends: &[Node]) -> Result<Vec<Edge>, Want>
    requires { All (λ v. IsTrue (is_lower_end registers.now v)) ends.now }
    ensures { IfOk result (λ pairs. pairs.items ≡ filter_map (λ v. pair_above v (answered_by registers.now v)) ends.now) }
{
    let mut pairs = Vec::with_capacity(alloc, ends.len())?;
    for &v in ends {
        if let Some(pair) = pair_at(registers, v) {
            pairs.push(pair)?;
        }
    }
    Ok(pairs)
}

/// Looks at each pair, and at the nodes that may have become or ceased to be a lower end since the last
/// call.
pub(crate) fn mutual_edges<R: Rules>(
    alloc: Global,
    net: &NetState,
    derived: &mut Derived<R>,
) -> Result<Vec<Edge>, Want>
    requires derived { ⟦<Derived<R> as Observer>⟧.fits net.now derived.old }
    ensures derived { ⟦<Derived<R> as Observer>⟧.fits net.now derived.new }
    ensures pairs { IfOk result (λ pairs. pairs.items ≡ mutual_pairs net.now.state) }
{
    let ends = derived.contributions.lower_ends(net, &derived.suitors)?;
    pairs_of(alloc, net.registers(), &ends)
}
