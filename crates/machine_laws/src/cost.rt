//! Laws of what disturbances cost: how much they add to the charge, and so to the moves.

ghost use Rattle.std.specs.Prelude.{◌≡◌, ℕ, ◌+◌, ◌*◌, ◌≤◌, List, length, true, false};
ghost use Rattle.rule_machine.specs.declared.event.Event.{Event};
ghost use Rattle.rule_machine.specs.declared.reply.Reply.TheVariants.{Accepted};
ghost use Rattle.rule_machine.specs.Network.{node_count};
ghost use Rattle.rule_machine.specs.State.{State, IsState};
ghost use Rattle.rule_machine.specs.HsuHuang.{hsu_huang};
ghost use Rattle.rule_machine.specs.Manne.{manne};
ghost use Rattle.rule_machine.specs.Stable.{IsStable, mutual_pairs};
ghost use Rattle.rule_machine.specs.Answer.{Answers};
ghost use Rattle.rule_machine.specs.Run.{Entry, Moment, Run};
ghost use Rattle.machine_laws.specs.ChargeWords.{moves_in, IsUndisturbed};
ghost use Rattle.machine_laws.specs.Epochs.{IsPath};
ghost use Rattle.machine_laws.specs.Costs.{hsu_huang_cost, manne_cost, path_cost, end_of_path, path_entries};
ghost use Rattle.rule_machine.specs.ChargeLaws.{AddsAtMost};
ghost use Rattle.machine_laws.specs.Laws.{DisturbedMovesArePaid};

/// The charge of a stable network is 0 (Hsu and Huang) or its number of unmarried nodes (Manne).
#[tactic(auto, using(crate::proofs::StableCharge::hsu_huang_stable_is_zero, crate::proofs::ManneStableCharge::manne_stable_charge))]
pub fn stable_charge()
    ensures hsu_huang { (s : State) → IsState s → IsStable false s → hsu_huang.charge s ≡ 0 }
    ensures manne { (s : State) → IsState s → IsStable true s → manne.charge s + 2 * length (mutual_pairs s) ≡ node_count s.network }
{}

/// An accepted disturbance adds at most its cost to the charge.
///
/// The cost is a sum of degrees of the nodes that the disturbance touches (`specs/Costs`).
#[tactic(auto, using(crate::proofs::CostsOfRuns::hsu_huang_disturbed, crate::proofs::CostsOfRuns::manne_disturbed))]
pub fn disturbances_cost()
    ensures hsu_huang { AddsAtMost hsu_huang_cost hsu_huang }
    ensures manne { AddsAtMost manne_cost manne }
{}

/// A run's moves plus the charge at its end are at most the charge at its start plus all costs.
///
/// The costs are those of the run's disturbances. Holds from any state, whatever the daemon chooses.
#[tactic(auto, using(crate::proofs::Proved::hsu_huang_laws, crate::proofs::Proved::manne_laws))]
pub fn disturbed_moves_are_paid()
    ensures hsu_huang { DisturbedMovesArePaid hsu_huang hsu_huang_cost }
    ensures manne { DisturbedMovesArePaid manne manne_cost }
{}

/// If a run starts at a stable state, the costs of its disturbances alone bound its moves.
///
/// By Hsu and Huang's rules nothing is added, whatever the size of the network. By Manne's rules the bound
/// is 2 more for each mutual pair more at the end than at the start, and 1 more for each node fewer.
#[tactic(auto, using(crate::proofs::CostsOfRuns::hsu_huang_stable_costs, crate::proofs::CostsOfRuns::manne_stable_costs))]
pub fn stable_moves_are_paid()
    ensures hsu_huang { (start : Moment) → IsState start.state → IsStable false start.state → (path : List (Entry × State)) → IsPath hsu_huang start path
        → moves_in (path_entries path) ≤ path_cost hsu_huang_cost start.state path }
    ensures manne { (start : Moment) → IsState start.state → IsStable true start.state → (path : List (Entry × State)) → IsPath manne start path
        → moves_in (path_entries path) + 2 * length (mutual_pairs start.state) + node_count (end_of_path start.state path).network
        ≤ path_cost manne_cost start.state path + 2 * length (mutual_pairs (end_of_path start.state path)) + node_count start.state.network }
{}

/// The cost of one disturbance of a stable state bounds the moves up to the next disturbance.
///
/// By Hsu and Huang's rules nothing is added, whatever the size of the network. By Manne's rules the bound
/// is 2 more for each mutual pair more at the end than before the disturbance, and 1 more if a node left.
#[tactic(auto, using(crate::proofs::CostsOfRuns::hsu_huang_one, crate::proofs::CostsOfRuns::manne_one))]
pub fn one_disturbance_pays()
    ensures hsu_huang { (s : State) → IsState s → IsStable false s → (spent : ℕ) (event : Event) (after : State) → Answers hsu_huang s spent event Accepted after
        → (log : List Entry) (end : Moment) → Run hsu_huang (record { state = after; spent = 0 }) log end → IsUndisturbed log
        → moves_in log ≤ hsu_huang_cost s event }
    ensures manne { (s : State) → IsState s → IsStable true s → (spent : ℕ) (event : Event) (after : State) → Answers manne s spent event Accepted after
        → (log : List Entry) (end : Moment) → Run manne (record { state = after; spent = 0 }) log end → IsUndisturbed log
        → moves_in log + 2 * length (mutual_pairs s) + node_count end.state.network
        ≤ manne_cost s event + 2 * length (mutual_pairs end.state) + node_count s.network }
{}
