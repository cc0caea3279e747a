//! The silent costs: bounds on the moves after one disturbance of a silent network.

ghost use Rattle.std.specs.Prelude.{◌≡◌, IsTrue, Some};
ghost use Rattle.rule_machine.specs.declared.event.Event.TheVariants.{Flag, Leave};
ghost use Rattle.rule_machine.specs.Network.{present};
ghost use Rattle.rule_machine.specs.State.{IsState, pointer};
ghost use Rattle.silence_laws.specs.Costs.{manne_silent_cost, manne_silent_point_cost};

use crate::Manne;
use move_bounds::{SilentCost, link_cost, unlink_cost, unmarried_neighbours};
use net_state::NetState;
use rule_machine::{Event, Node};

fn pair_cost(net: &NetState, v: Node, partner: Node, target: Option<Node>) -> u32
    requires state { IsState net.now.state }
    requires present { IsTrue (present net.now.state.network v) }
    requires partner { IsTrue (present net.now.state.network partner) }
    ensures { result ≡ manne_silent_point_cost net.now.state v (Some partner) target }
{
    let Some(w) = target else {
        return 2 * (unmarried_neighbours(net, v) + unmarried_neighbours(net, partner)) + 9;
    };
    if partner == w {
        return 0;
    }
    2 * (unmarried_neighbours(net, v) + unmarried_neighbours(net, partner)) + 10
}

#[tactic(auto, using(machine_laws::proofs::PresentNodes::target_present))]
fn point_cost(net: &NetState, v: Node, target: Option<Node>) -> u32
    requires state { IsState net.now.state }
    requires present { IsTrue (present net.now.state.network v) }
    ensures { let s = net.now.state in result ≡ manne_silent_point_cost s v (pointer s v) target }
{
    match net.pointer(v) {
        Some(partner) => pair_cost(net, v, partner, target),
        None if target.is_some() => 1,
        None => 0,
    }
}

fn flag_cost(net: &NetState, v: Node, value: bool) -> u32
    requires state { IsState net.now.state }
    requires present { IsTrue (present net.now.state.network v) }
    ensures { result ≡ manne_silent_cost net.now.state (Flag v value) }
{
    if net.married(v) == value { 0 } else { 1 }
}

#[tactic(auto, using(machine_laws::proofs::PresentNodes::target_present, machine_laws::proofs::Pointers::null_unmarried))]
fn leave_cost(net: &NetState, v: Node) -> u32
    requires state { IsState net.now.state }
    requires present { IsTrue (present net.now.state.network v) }
    ensures { result ≡ manne_silent_cost net.now.state (Leave v) }
{
    match net.pointer(v) {
        Some(u) if net.married(v) => 2 * unmarried_neighbours(net, u) + 3,
        _ => 0,
    }
}

impl SilentCost for Manne {
    ghost use Rattle.silence_laws.specs.Costs.{manne_silent_cost};
    ghost use Rattle.silence_laws.proofs.MannePays.{manne_silent_cost_pays};
    ghost use Rattle.rules_manne.specs.Silent.{gained_and_gone, manne_cost_is_less};

    ghost silent_cost = { manne_silent_cost };

    ghost excess = { gained_and_gone };

    #[tactic(auto, using(move_bounds::specs::Present::lower_present, move_bounds::specs::Present::upper_present, machine_laws::proofs::PresentNodes::first_present, machine_laws::proofs::PresentNodes::second_present, machine_laws::proofs::PresentNodes::pointer_present, machine_laws::proofs::PresentNodes::flagged_present, machine_laws::proofs::PresentNodes::leaver_present))]
    fn silent_cost(net: &NetState, event: &Event) -> u32 {
        match event {
            Event::Link(a, b) => link_cost(net, *a, *b, 4),
            Event::Unlink(a, b) => unlink_cost(net, *a, *b, 6),
            Event::Point(v, target) => point_cost(net, *v, *target),
            Event::Flag(v, value) => flag_cost(net, *v, *value),
            Event::Leave(v) => leave_cost(net, *v),
            _ => 0,
        }
    }

    ghost silent_cost_pays = { manne_silent_cost_pays };

    ghost silent_cost_is_less = { manne_cost_is_less };
}
