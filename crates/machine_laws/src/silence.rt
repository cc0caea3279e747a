//! Laws of when a run ends stable or silent.

ghost use Rattle.std.specs.Prelude.{◌≡◌, ◌+◌, ◌*◌, ◌≤◌, ◌↔◌, List, length, true};
ghost use Rattle.rule_machine.specs.Network.{node_count};
ghost use Rattle.rule_machine.specs.State.{State, IsState};
ghost use Rattle.rule_machine.specs.HsuHuang.{hsu_huang};
ghost use Rattle.rule_machine.specs.Manne.{manne};
ghost use Rattle.rule_machine.specs.Stable.{IsStable, mutual_pairs};
ghost use Rattle.rule_machine.specs.Run.{Entry, Moment, Run};
ghost use Rattle.machine_laws.specs.ChargeWords.{moves_in, IsUndisturbed};
ghost use Rattle.machine_laws.specs.Laws.{SilenceLasts, LongRunsEndSilent};

/// By Manne's rules a network is stable exactly if its charge is the number of its unmarried nodes.
///
/// In any other state the charge is greater.
#[tactic(auto, using(crate::proofs::ManneStableCharge::manne_stable_charge, crate::proofs::Proved::least_charge_is_stable, crate::proofs::Proved::charge_is_more))]
pub fn least_charge_is_stable()
    ensures exactly { (s : State) → IsState s → IsStable true s ↔ (manne.charge s + 2 * length (mutual_pairs s) ≡ node_count s.network) }
    ensures least { (s : State) → IsState s → node_count s.network ≤ manne.charge s + 2 * length (mutual_pairs s) }
{}

/// By Manne's rules fewer moves settle a run: one fewer for each node that is unmarried at its end.
///
/// A run without a disturbance is stable once its moves reach the charge at its start minus the number of
/// nodes that are in no mutual pair at its end.
#[tactic(auto, using(crate::proofs::Proved::manne_enough_moves))]
pub fn fewer_moves_settle()
    ensures { (start : Moment) → IsState start.state → (log : List Entry) (end : Moment) → Run manne start log end → IsUndisturbed log
        → manne.charge start.state + 2 * length (mutual_pairs end.state) ≤ moves_in log + node_count start.state.network → IsStable true end.state }
{}

/// A silent network stays silent until a disturbance.
#[tactic(auto, using(crate::proofs::Proved::hsu_huang_laws, crate::proofs::Proved::manne_laws))]
pub fn silence_lasts()
    ensures hsu_huang { SilenceLasts hsu_huang }
    ensures manne { SilenceLasts manne }
{}

/// A driven run without a disturbance ends silent if its entries reach the charge at its start.
///
/// A run is driven if each entry moves a node or is made while no rule is enabled.
#[tactic(auto, using(crate::proofs::Proved::hsu_huang_laws, crate::proofs::Proved::manne_laws))]
pub fn long_runs_end_silent()
    ensures hsu_huang { LongRunsEndSilent hsu_huang }
    ensures manne { LongRunsEndSilent manne }
{}
