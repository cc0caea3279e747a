//! The charge of a state, and the number of moves spent.

ghost use Rattle.std.specs.Prelude.{◌≡◌, ◌≤◌, length};
ghost use Rattle.machine_laws.specs.ChargeWords.{charge_bound};
ghost use Rattle.rule_machine.specs.Answer.{spent_after};
ghost use Rattle.rule_machine.specs.Stable.{mutual_pairs};

use crate::Derived;
use graph_store::{EdgeStore, MAX_EDGES};
use net_state::{NetState, Observer};
use rule_machine::{MAX_NAME, Reply, Rules};

#[derive(Clone, Copy)]
pub(crate) struct Totals {
    pub(crate) pairs: u32,
    pub(crate) charge: u32,
}

/// Looks at the nodes whose contribution may have changed since the last call.
pub(crate) fn totals_of<R: Rules>(net: &NetState, derived: &mut Derived<R>) -> Totals
    requires derived { ⟦<Derived<R> as Observer>⟧.fits net.now derived.old }
    ensures derived { ⟦<Derived<R> as Observer>⟧.fits net.now derived.new }
    ensures pairs { result.pairs ≡ length (mutual_pairs net.now.state) }
    ensures charge { result.charge ≡ R.table.charge net.now.state }
{
    let all = derived.contributions.totals(net, &derived.suitors);
    // Called only for the contract: the state is sound.
    let _ = net.capacity();
    prove!(net.edges() <= MAX_EDGES);
    let charge = (2 * u64::from(all.open_edges) + u64::from(all.added)
        - 2 * u64::from(all.closing)) as u32;
    Totals {
        pairs: all.pairs,
        charge,
    }
}

pub(crate) fn spent_after<R: Rules>(store: &EdgeStore, spent: u32, reply: &Reply) -> u32
    requires { spent_after spent reply.now ≤ charge_bound R.NODE_WEIGHT store.now.network }
    ensures { result ≡ spent_after spent reply.now }
{
    match reply {
        Reply::Accepted => 0,
        Reply::Moves(moves) => {
            prove!(store.nodes() <= MAX_NAME && store.edges() <= MAX_EDGES);
            spent + moves.as_slice().len() as u32
        }
        _ => spent,
    }
}
