//! Networks that begin at a base.

ghost use Rattle.std.specs.Prelude.{◌≡◌, ◌≤◌, ◌+◌, ◌↔◌, IfErr, IfOk, IsTrue, None, OnOk, false, length, nat_le, true};
ghost use Rattle.std.specs.List.{list_any};
ghost use Rattle.machine_laws.specs.ChargeWords.{charge_bound};
ghost use Rattle.rule_machine.specs.Base.{IsBaseMoment};
ghost use Rattle.rule_engine.specs.BaseFaults.{ExplainsBaseFault, IsBaseOfNetwork, IsStateOf};
ghost use Rattle.rule_engine.specs.PreparedEvents.{net_moment};

use crate::charge::totals_of;
use crate::{BaseFault, Derived, Net};
use graph_store::MAX_EDGES;
use net_state::{NetState, Observer, edges_ascend, has_flag, names_rise};
use rule_machine::{Base, MAX_NAME, NodeRecord, Rules};
use std::alloc::Global;

/// The state that has the lines of a base. `TooManyNames`, `TooManyEdges`, `NotAState` and `Memory`.
fn state_of<R: Rules>(alloc: Global, size: u32, base: &Base) -> Result<NetState, BaseFault>
    ensures state { IfOk result (λ net. IsStateOf size base.now net.state) }
    ensures fault { IfErr result (λ fault. ExplainsBaseFault R.table R.NODE_WEIGHT size base.now fault) }
{
    let nodes = base.nodes.as_slice();
    let edges = base.edges.as_slice();
    if size > MAX_NAME {
        return Err(BaseFault::TooManyNames);
    }
    if edges.len() > MAX_EDGES as usize {
        return Err(BaseFault::TooManyEdges);
    }
    if !names_rise(nodes) {
        return Err(BaseFault::NotAState);
    }
    if !edges_ascend(edges) {
        return Err(BaseFault::NotAState);
    }
    match NetState::from_lines(alloc, size, nodes, edges)? {
        Some(net) => Ok(net),
        None => Err(BaseFault::NotAState),
    }
}

fn has_unused_flag<R: Rules>(nodes: &[NodeRecord]) -> bool
    ensures { IsTrue result ↔ ((R.table.flags ≡ false) × (list_any (λ node. node.flagged) nodes.now ≡ true)) }
{
    if R::FLAGS {
        return false;
    }
    has_flag(nodes)
}

fn is_within<R: Rules>(net: &NetState, derived: &mut Derived<R>, spent: u32) -> bool
    requires derived { ⟦<Derived<R> as Observer>⟧.fits net.now derived.old }
    ensures within { result ≡ nat_le (spent + R.table.charge net.now.state) (charge_bound R.NODE_WEIGHT net.now.state.network) }
    ensures derived { ⟦<Derived<R> as Observer>⟧.fits net.now derived.new }
{
    let charge = u64::from(totals_of(net, derived).charge);
    let store = net.store();
    prove!(store.nodes() <= MAX_NAME && store.edges() <= MAX_EDGES);
    let bound = 2 * u64::from(store.edges()) + R::NODE_WEIGHT * u64::from(store.nodes());
    u64::from(spent) + charge <= bound
}

impl<R: Rules> Net<R> {
    /// The network at the moment of a base, with names up to `size`.
    ///
    /// Errors, checked in this order; nothing of the base is taken on trust:
    ///
    /// - `TooManyNames` above 65,535 names;
    /// - `TooManyEdges` above 1,048,576 edges;
    /// - `NotAState` if no state has the base's nodes and edges;
    /// - `HasFlags` if a flag is true although the rules use no flags;
    /// - `AboveBound` if the moves spent plus the charge are above the bound;
    /// - `Memory` if memory runs out. Only the demands on numbers of names and edges come before it for sure.
    ///
    /// Cost: a look-up for each node, a search for each edge, one pass over each node's neighbours, a guard a
    /// node, and one count of the charge. Takes about fifty bytes a name and four an end of an edge.
    pub fn from_base(alloc: Global, size: u32, base: &Base) -> Result<Net<R>, BaseFault>
        ensures ok { IfOk result (λ net. IsBaseMoment R.table (charge_bound R.NODE_WEIGHT) size base.now (net_moment net)) }
        ensures few { OnOk result (IsBaseOfNetwork size base.now × (length base.now.nodes ≤ 65535)) }
        ensures uncounted { IfOk result (λ net. net.counting ≡ None) }
        ensures fault { IfErr result (λ fault. ExplainsBaseFault R.table R.NODE_WEIGHT size base.now fault) }
    {
        let state = state_of::<R>(alloc, size, base)?;
        if has_unused_flag::<R>(base.nodes.as_slice()) {
            return Err(BaseFault::HasFlags);
        }
        let mut derived = Derived::of(alloc, &state)?;
        if !is_within(&state, &mut derived, base.spent) {
            return Err(BaseFault::AboveBound);
        }
        let net = Net::with_derived(alloc, state, derived, base.spent)?;
        Ok(net)
    }
}
