//! How much an event may add to the charge, from the degrees of the nodes that the event touches.

ghost use Rattle.std.specs.Prelude.{◌≡◌, ◌-◌, ◌≤◌, cond, IsTrue};
ghost use Rattle.rule_machine.specs.declared.event.Event.TheVariants.{Unlink, Leave};
ghost use Rattle.rule_machine.specs.Network.{present};
ghost use Rattle.rule_machine.specs.State.{IsState, points, pointer, has_suitor, is_unanswered};
ghost use Rattle.machine_laws.specs.Degrees.{degree};
ghost use Rattle.machine_laws.specs.Costs.{hsu_huang_cost, hsu_huang_point_cost};

use rule_machine::{Node, Touched, points_at};

/// How many edges `w` has besides the edge to `v` if `v` points at `w`, else 0.
fn other_edges<T: Touched>(touched: &T, v: Node, w: Node) -> u32
    requires from { IsTrue (present (T.state touched.now).network v) }
    requires to { IsTrue (present (T.state touched.now).network w) }
    ensures value { result ≡ cond (points (T.state touched.now).registers v w) (degree (T.state touched.now).network w - 1) 0 }
    ensures few { result ≤ 65535 }
{
    if points_at(touched, v, w) {
        touched.degree(w).saturating_sub(1)
    } else {
        0
    }
}

pub(crate) fn unlink_cost<T: Touched>(touched: &T, a: Node, b: Node) -> u32
    requires first { IsTrue (present (T.state touched.now).network a) }
    requires second { IsTrue (present (T.state touched.now).network b) }
    ensures { result ≡ hsu_huang_cost (T.state touched.now) (Unlink a b) }
{
    2 * (other_edges(touched, a, b) + other_edges(touched, b, a))
}

#[tactic(auto, using(machine_laws::proofs::PresentNodes::target_present))]
pub(crate) fn point_cost<T: Touched>(touched: &T, v: Node) -> u32
    requires state { IsState (T.state touched.now) }
    requires present { IsTrue (present (T.state touched.now).network v) }
    ensures { let s = T.state touched.now in result ≡ hsu_huang_point_cost s.network v (is_unanswered s v) (has_suitor s v) (pointer s v) }
{
    match touched.pointer(v) {
        None if touched.has_suitor(v) => 2 * touched.degree(v),
        None => 1,
        Some(u) if points_at(touched, u, v) => 2 * (touched.degree(v) + touched.degree(u)),
        Some(u) => 2 * touched.degree(u),
    }
}

#[tactic(auto, using(machine_laws::proofs::PresentNodes::target_present))]
pub(crate) fn leave_cost<T: Touched>(touched: &T, v: Node) -> u32
    requires state { IsState (T.state touched.now) }
    requires present { IsTrue (present (T.state touched.now).network v) }
    ensures { result ≡ hsu_huang_cost (T.state touched.now) (Leave v) }
{
    match touched.pointer(v) {
        Some(u) => 2 * touched.degree(u).saturating_sub(1),
        None => 0,
    }
}
