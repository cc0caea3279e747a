//! Laws of Hsu and Huang's rules: a bound on moves that depends on the number of nodes alone.

ghost use Rattle.std.specs.Prelude.{◌≡◌, ℕ, ◌+◌, ◌-◌, ◌*◌, ◌≤◌, List, [], length};
ghost use Rattle.rule_machine.specs.declared.act.Moved.{Moved};
ghost use Rattle.rule_machine.specs.declared.choice.Item.{Item};
ghost use Rattle.rule_machine.specs.Network.{node_count};
ghost use Rattle.rule_machine.specs.State.{State, IsState};
ghost use Rattle.rule_machine.specs.RuleTable.{enabled_names};
ghost use Rattle.rule_machine.specs.HsuHuang.{hsu_huang};
ghost use Rattle.rule_machine.specs.Step.{IsStep};
ghost use Rattle.rule_machine.specs.Run.{Entry, Moment, Run};
ghost use Rattle.machine_laws.specs.ChargeWords.{moves_in, IsUndisturbed};
ghost use Rattle.machine_laws.specs.Costs.{end_of_path, path_entries};
ghost use Rattle.machine_laws.specs.Epochs.{IsPath};
ghost use Rattle.machine_laws.specs.SilentRuns.{IsDriven};
ghost use Rattle.dense_laws.specs.Bound.{dense_bound, HasLongRun};
ghost use Rattle.dense_laws.specs.Potential.{dense_charge};

/// Each move lowers the dense charge, which is at most n² + 2n, by at least 2, whatever the edges.
pub fn dense_charge_falls()
    ensures falls { (s : State) (items : List Item) (moves : List Moved) (after : State) → IsState s → IsStep hsu_huang s items moves after
        → dense_charge after + 2 * length moves ≤ dense_charge s }
    ensures bounded { (s : State) → IsState s → dense_charge s ≤ node_count s.network * node_count s.network + 2 * node_count s.network }
{}

/// Twice a run's moves plus the dense charge at its end are at most the dense charge at its start.
///
/// The run has no disturbance.
#[tactic(auto, using(crate::proofs::Runs::dense_moves_are_paid))]
pub fn dense_moves_are_paid()
    ensures { (start : Moment) → IsState start.state → (log : List Entry) (end : Moment) → Run hsu_huang start log end → IsUndisturbed log
        → 2 * moves_in log + dense_charge end.state ≤ dense_charge start.state }
{}

/// Between two disturbances n nodes make at most n²/2 + n - 2 moves, rounded down; 0 if n is 0 or 1.
///
/// Holds from any state, whatever the edges and whatever the daemon chooses.
#[tactic(auto, using(crate::proofs::Runs::moves_are_few))]
pub fn moves_are_few()
    ensures { (start : Moment) → IsState start.state → (log : List Entry) (end : Moment) → Run hsu_huang start log end → IsUndisturbed log
        → 2 * moves_in log ≤ node_count start.state.network * node_count start.state.network + 2 * node_count start.state.network - 4 }
{}

/// A driven run without a disturbance ends silent if it has n²/2 + n - 2 entries, rounded down.
///
/// A run is driven if each entry moves a node or is made while no rule is enabled.
#[tactic(auto, using(crate::proofs::Runs::enough_turns_end_silent))]
pub fn enough_turns_end_silent()
    ensures { (start : Moment) → IsState start.state → (path : List (Entry × State)) → IsPath hsu_huang start path → IsUndisturbed (path_entries path)
        → IsDriven hsu_huang start.state path
        → node_count start.state.network * node_count start.state.network + 2 * node_count start.state.network ≤ 2 * length path + 5
        → enabled_names hsu_huang (end_of_path start.state path) ≡ [] }
{}

/// For each n of 2 or more some run of n nodes has n²/2 + n - 2 moves, rounded down.
///
/// The run has no disturbance.
pub fn bound_is_reached()
    ensures { (n : ℕ) → 2 ≤ n → HasLongRun n }
{}

/// The bound of `moves_are_few` as one number: n²/2 + n - 2 rounded down, and 0 if n is 0 or 1.
#[tactic(auto, using(crate::proofs::Bound::within_bound))]
pub fn dense_bound_holds()
    ensures { (start : Moment) → IsState start.state → (log : List Entry) (end : Moment) → Run hsu_huang start log end → IsUndisturbed log
        → moves_in log ≤ dense_bound (node_count start.state.network) }
{}
