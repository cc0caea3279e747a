//! How much an event may add to the charge, from the degrees of the nodes that the event touches.

ghost use Rattle.std.specs.Prelude.{◌≡◌, IsTrue};
ghost use Rattle.rule_machine.specs.declared.event.Event.TheVariants.{Unlink, Flag, Leave};
ghost use Rattle.rule_machine.specs.Network.{present};
ghost use Rattle.rule_machine.specs.State.{IsState, pointer, is_unanswered};
ghost use Rattle.machine_laws.specs.Costs.{manne_cost, manne_point_cost};

use rule_machine::{Node, Touched, points_at};

pub(crate) fn unlink_cost<T: Touched>(touched: &T, a: Node, b: Node) -> u32
    requires first { IsTrue (present (T.state touched.now).network a) }
    requires second { IsTrue (present (T.state touched.now).network b) }
    ensures { result ≡ manne_cost (T.state touched.now) (Unlink a b) }
{
    if points_at(touched, a, b) && points_at(touched, b, a) {
        let left = touched.degree(a).saturating_sub(1) + touched.degree(b).saturating_sub(1);
        2 * left + 4
    } else {
        0
    }
}

#[tactic(auto, using(machine_laws::proofs::PresentNodes::target_present))]
pub(crate) fn point_cost<T: Touched>(touched: &T, v: Node) -> u32
    requires state { IsState (T.state touched.now) }
    requires present { IsTrue (present (T.state touched.now).network v) }
    ensures { let s = T.state touched.now in result ≡ manne_point_cost s.network v (is_unanswered s v) (pointer s v) }
{
    match touched.pointer(v) {
        None => 1,
        Some(u) if points_at(touched, u, v) => 2 * (touched.degree(v) + touched.degree(u)) + 4,
        Some(_) => 2,
    }
}

pub(crate) fn flag_cost<T: Touched>(touched: &T, v: Node, value: bool) -> u32
    requires { IsTrue (present (T.state touched.now).network v) }
    ensures { result ≡ manne_cost (T.state touched.now) (Flag v value) }
{
    if value && touched.has_suitor(v) {
        1 + 2 * touched.degree(v)
    } else {
        1
    }
}

#[tactic(auto, using(machine_laws::proofs::PresentNodes::target_present))]
pub(crate) fn leave_cost<T: Touched>(touched: &T, v: Node) -> u32
    requires state { IsState (T.state touched.now) }
    requires present { IsTrue (present (T.state touched.now).network v) }
    ensures { result ≡ manne_cost (T.state touched.now) (Leave v) }
{
    match touched.pointer(v) {
        Some(u) if points_at(touched, u, v) => 2 * touched.degree(u).saturating_sub(1) + 2,
        _ => 0,
    }
}
