//! The silent costs: bounds on the moves after one disturbance of a silent network.

ghost use Rattle.std.specs.Prelude.{◌≡◌, IsTrue, Some};
ghost use Rattle.rule_machine.specs.declared.event.Event.TheVariants.{Leave};
ghost use Rattle.rule_machine.specs.Network.{present};
ghost use Rattle.rule_machine.specs.State.{IsState, pointer};
ghost use Rattle.silence_laws.specs.Costs.{silent_cost, silent_point_cost};

use crate::HsuHuang;
use move_bounds::{
    SilentCost, link_cost, unlink_cost, unmarried_neighbours, unmarried_neighbours_but,
};
use net_state::NetState;
use rule_machine::{Event, Node};

fn pair_cost(net: &NetState, v: Node, partner: Node, target: Option<Node>) -> u32
    requires state { IsState net.now.state }
    requires present { IsTrue (present net.now.state.network v) }
    requires partner { IsTrue (present net.now.state.network partner) }
    ensures { result ≡ silent_point_cost net.now.state v (Some partner) target }
{
    let Some(w) = target else {
        return 2 * (unmarried_neighbours_but(net, v, &None) + unmarried_neighbours(net, partner))
            + 1;
    };
    if partner == w {
        return 0;
    }
    2 * (unmarried_neighbours_but(net, v, &target) + unmarried_neighbours(net, partner)) + 4
}

#[tactic(auto, using(machine_laws::proofs::PresentNodes::target_present))]
fn point_cost(net: &NetState, v: Node, target: Option<Node>) -> u32
    requires state { IsState net.now.state }
    requires present { IsTrue (present net.now.state.network v) }
    ensures { let s = net.now.state in result ≡ silent_point_cost s v (pointer s v) target }
{
    match net.pointer(v) {
        Some(partner) => pair_cost(net, v, partner, target),
        None if target.is_some() => 1,
        None => 0,
    }
}

#[tactic(auto, using(machine_laws::proofs::PresentNodes::target_present))]
fn leave_cost(net: &NetState, v: Node) -> u32
    requires state { IsState net.now.state }
    requires present { IsTrue (present net.now.state.network v) }
    ensures { result ≡ silent_cost net.now.state (Leave v) }
{
    match net.pointer(v) {
        Some(u) => 2 * unmarried_neighbours(net, u),
        None => 0,
    }
}

impl SilentCost for HsuHuang {
    ghost use Rattle.silence_laws.specs.Costs as costs;
    ghost use Rattle.silence_laws.proofs.Pays as pays;
    ghost use Rattle.rules_hsu_huang.specs.Silent.{no_excess, hsu_huang_cost_is_less};

    ghost silent_cost = { costs.silent_cost };

    ghost excess = { no_excess };

    #[tactic(auto, using(move_bounds::specs::Present::lower_present, move_bounds::specs::Present::upper_present, machine_laws::proofs::PresentNodes::first_present, machine_laws::proofs::PresentNodes::second_present, machine_laws::proofs::PresentNodes::pointer_present, machine_laws::proofs::PresentNodes::leaver_present))]
    fn silent_cost(net: &NetState, event: &Event) -> u32 {
        match event {
            Event::Link(a, b) => link_cost(net, *a, *b, 2),
            Event::Unlink(a, b) => unlink_cost(net, *a, *b, 0),
            Event::Point(v, target) => point_cost(net, *v, *target),
            Event::Leave(v) => leave_cost(net, *v),
            _ => 0,
        }
    }

    ghost silent_cost_pays = { pays.silent_cost_pays };

    ghost silent_cost_is_less = { hsu_huang_cost_is_less };
}
