//! Begins a judge at a base, and returns the base of a judge's state.

ghost use Rattle.std.specs.Prelude.{◌≡◌, ◌≤◌, ◌+◌, ◌↔◌, ℕ, IfOk, IfSome, IsTrue, None, false, length, nat_le};
ghost use Rattle.machine_laws.specs.ChargeWords.{charge_bound};
ghost use Rattle.rule_machine.specs.Base.{base_of, node_records};
ghost use Rattle.rule_machine.specs.State.{IsState, flag};
ghost use Rattle.rule_machine.specs.Tables.{table_of, weight_of};
ghost use Rattle.net_state.specs.BaseLines.{NamesRise, EdgesAscend};
ghost use Rattle.reply_checker.specs.Bases.{BeginsInState, BeginsNowhere};

use crate::rules::uses_flags;
use crate::{CountedNet, Judge};
use graph_store::MAX_EDGES;
use net_state::{NetState, has_flag};
use rule_machine::{Base, Listing, NodeRecord, RuleSet, Want};
use std::alloc::Global;

fn bound(net: &NetState, rules: RuleSet) -> u64
    ensures { result ≡ charge_bound (weight_of rules) net.now.state.network }
{
    2 * u64::from(net.edges()) + rules.node_weight() * u64::from(net.nodes())
}

fn is_within(counted: &mut CountedNet, rules: RuleSet, spent: u32) -> bool
    ensures within { result ≡ nat_le (spent + (table_of rules).charge counted.old.net.state) (charge_bound (weight_of rules) counted.old.net.state.network) }
    ensures sound { IsState counted.old.net.state }
    ensures kept { counted.new.net.state ≡ counted.old.net.state }
{
    // Gives the prover `IsState`.
    let _ = counted.net.registers();
    let bound = bound(&counted.net, rules);
    let charge = u64::from(counted.totals(rules).charge);
    // Never underflows: the charge alone is within the bound.
    u64::from(spent) <= bound - charge
}

fn has_fit_flags(net: &NetState, rules: RuleSet, nodes: &[NodeRecord]) -> bool
    requires sound { IsState net.now.state }
    requires listed { node_records net.now.state ≡ nodes.now }
    ensures { IsTrue result ↔ ((table_of rules).flags ≡ false → (v : ℕ) → flag net.now.state v ≡ false) }
{
    uses_flags(rules) || !has_flag(nodes)
}

impl Judge {
    /// Creates a judge in the state of a base; `None` if no run may begin there.
    ///
    /// `size` is the capacity, at most 65,535. `Want` if memory runs out. `None` if
    ///
    /// - a name is above `size`, or an end of an edge is no node;
    /// - there are more than 1,048,576 edges;
    /// - a pointer is neither null nor at a neighbour;
    /// - a flag is true although the rules use no flags;
    /// - moves spent plus the charge are above the bound of the network.
    ///
    /// Cost: a look-up for each node, a search for each edge, and one count of the charge. Takes some forty
    /// bytes a name and four an edge.
    pub fn at_base(
        alloc: Global,
        rules: RuleSet,
        size: u32,
        base: &Base,
    ) -> Result<Option<Judge>, Want>
        requires few { size ≤ 65535 }
        requires nodes_rise { NamesRise 0 base.now.nodes }
        requires edges_rise { EdgesAscend (0, 0) base.now.edges }
        ensures begun { IfOk result (λ found. IfSome found (BeginsInState rules size base.now)) }
        ensures none { IfOk result (λ found. found ≡ None → BeginsNowhere rules size base.now) }
    {
        let nodes = base.nodes.as_slice();
        let edges = base.edges.as_slice();
        if edges.len() > MAX_EDGES as usize {
            return Ok(None);
        }
        let Some(net) = NetState::from_lines(alloc, size, nodes, edges)? else {
            return Ok(None);
        };
        let mut counted = CountedNet::new(alloc, net)?;
        if !is_within(&mut counted, rules, base.spent) {
            return Ok(None);
        }
        if !has_fit_flags(&counted.net, rules, nodes) {
            return Ok(None);
        }
        Ok(Some(Judge::of_counted(alloc, counted)?))
    }

    /// The base of the present state.
    ///
    /// `number` is the number of entries so far, `spent` the number of moves since the last accepted
    /// disturbance. `Want` if memory runs out.
    ///
    /// Cost: a look at every name and at both ends of every edge. Takes some eight bytes a node and four an
    /// edge.
    pub fn base(&self, alloc: Global, number: u32, spent: u32) -> Result<Base, Want>
        ensures base { IfOk result (λ base. base ≡ base_of number (record { state = self.now; spent = spent })) }
        ensures few { IfOk result (λ base. (length base.nodes ≤ 65535) × (length base.edges ≤ 1048576)) }
    {
        let nodes = self.counted.net.list_places(alloc)?;
        let edges = self.counted.net.list_edges()?;
        Ok(Base {
            number,
            spent,
            nodes: Listing::from_vec(nodes),
            edges: Listing::from_vec(edges),
        })
    }
}
