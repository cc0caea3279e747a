//! Laws of rounds: how many asynchronous rounds a run without a disturbance completes.

ghost use Rattle.std.specs.Prelude.{◌≡◌, ℕ, ◌+◌, ◌*◌, ◌/◌, ◌≤◌, List, [], ◌∷◌, ◌++◌};
ghost use Rattle.rule_machine.specs.declared.event.Event.{Event};
ghost use Rattle.rule_machine.specs.declared.reply.Reply.TheVariants.{Accepted};
ghost use Rattle.rule_machine.specs.Network.{node_count};
ghost use Rattle.rule_machine.specs.State.{State, IsState};
ghost use Rattle.rule_machine.specs.RuleTable.{RuleTable, enabled_names};
ghost use Rattle.rule_machine.specs.HsuHuang.{hsu_huang};
ghost use Rattle.rule_machine.specs.Manne.{manne};
ghost use Rattle.rule_machine.specs.Run.{Entry, Moment, Run};
ghost use Rattle.machine_laws.specs.ChargeWords.{IsUndisturbed};
ghost use Rattle.dense_laws.specs.Potential.{unmarried_nodes};
ghost use Rattle.round_laws.specs.LongRuns.{HasRun};
ghost use Rattle.round_laws.specs.Pieces.{IsCut, state_from};
ghost use Rattle.round_laws.specs.RoundCounts.{RoundCount, count_of_log, last_count};
ghost use Rattle.round_laws.specs.Rounds.{rounds_in};
ghost use Rattle.round_laws.specs.Stamps.{cuts_in, round_reached};

/// By Hsu and Huang's rules n nodes complete at most n rounds between two disturbances.
///
/// More precisely: at most as many rounds as nodes are unmarried at the start. Holds from any state, whatever
/// the edges and whatever the daemon chooses.
#[tactic(auto, using(crate::proofs::HsuHuang::rounds_are_paid, crate::proofs::HsuHuang::rounds_are_few, crate::proofs::HsuHuang::rounds_end_silent))]
pub fn hsu_huang_rounds_are_few()
    ensures unmarried { (start : Moment) → IsState start.state → (log : List Entry) (end : Moment) → Run hsu_huang start log end → IsUndisturbed log
        → rounds_in hsu_huang start.state log ≤ unmarried_nodes start.state }
    ensures few { (start : Moment) → IsState start.state → (log : List Entry) (end : Moment) → Run hsu_huang start log end → IsUndisturbed log
        → rounds_in hsu_huang start.state log ≤ node_count start.state.network }
    ensures settles { (start : Moment) → IsState start.state → (log : List Entry) (end : Moment) → Run hsu_huang start log end → IsUndisturbed log
        → unmarried_nodes start.state ≤ rounds_in hsu_huang start.state log → enabled_names hsu_huang end.state ≡ [] }
{}

/// For each n of 3 or more some run of n nodes by Hsu and Huang's rules completes n rounds.
///
/// The run has no disturbance.
pub fn hsu_huang_rounds_are_reached()
    ensures { (n : ℕ) → 3 ≤ n → HasRun hsu_huang n n }
{}

/// By Manne's rules n nodes complete at most 2n rounds between two disturbances, and 2n - 1 if n is odd.
///
/// If u nodes are unmarried at the start: at most 2u + 3 rounds, and 2u + 2 if u is odd. Holds from any state,
/// whatever the edges, and however many nodes the daemon lets move at once.
#[tactic(auto, using(crate::proofs::Manne::rounds_are_paid, crate::proofs::Manne::rounds_are_few, crate::proofs::Manne::rounds_end_silent))]
pub fn manne_rounds_are_few()
    ensures unmarried { (start : Moment) → IsState start.state → (log : List Entry) (end : Moment) → Run manne start log end → IsUndisturbed log
        → rounds_in manne start.state log ≤ unmarried_nodes start.state + 2 * (unmarried_nodes start.state / 2) + 3 }
    ensures few { (start : Moment) → IsState start.state → (log : List Entry) (end : Moment) → Run manne start log end → IsUndisturbed log
        → rounds_in manne start.state log ≤ node_count start.state.network + 2 * (node_count start.state.network / 2) }
    ensures settles { (start : Moment) → IsState start.state → (log : List Entry) (end : Moment) → Run manne start log end → IsUndisturbed log
        → node_count start.state.network + 2 * (node_count start.state.network / 2) ≤ rounds_in manne start.state log → enabled_names manne end.state ≡ [] }
{}

/// For each n some run of n nodes by Manne's rules completes 2n rounds, or 2n - 1 if n is odd.
///
/// The run has no disturbance.
pub fn manne_rounds_are_reached()
    ensures { (n : ℕ) → HasRun manne n (n + 2 * (n / 2)) }
{}

/// The rounds of a log are the most pieces that it can be cut into, each a whole round or longer.
///
/// A piece is whole if each node that is enabled at its start moves in it, or is not enabled in some state after
/// one of its entries. Holds for any table of rules.
#[tactic(auto, using(crate::proofs::Pieces::rounds_are_pieces, crate::proofs::Pieces::no_more_pieces))]
pub fn rounds_are_pieces()
    ensures cut { (t : RuleTable) (s : State) (log : List Entry) → IsUndisturbed log → IsCut t s log (rounds_in t s log) }
    ensures most { (t : RuleTable) (s : State) (log : List Entry) (count : ℕ) → IsCut t s log count → count ≤ rounds_in t s log }
{}

/// A number for each node, its stamp, gives the same count of rounds as the list of pending nodes.
///
/// In round 1 all stamps are 0. A step changes only the stamps of its movers and of nodes that become enabled;
/// a new round changes none. An accepted disturbance begins a new round, and changes none either. Holds for any
/// table of rules.
#[tactic(auto, using(crate::proofs::Stamps::rounds_are_stamped, crate::proofs::Stamps::undisturbed_rounds_are_stamped))]
pub fn rounds_are_stamped()
    ensures undisturbed { (t : RuleTable) (s : State) (log : List Entry) → IsUndisturbed log → round_reached t s log ≡ rounds_in t s log + 1 }
    ensures disturbed { (t : RuleTable) (s : State) (log : List Entry) → round_reached t s log ≡ rounds_in t s log + cuts_in log + 1 }
{}

/// A count that is kept entry by entry is the rounds of the entries since the last accepted disturbance.
///
/// Without a disturbance it is the rounds since counting began. Holds for any table of rules.
#[tactic(auto, using(crate::proofs::RoundCounts::counted_whole, crate::proofs::RoundCounts::counted_since))]
pub fn rounds_are_counted()
    ensures whole { (t : RuleTable) (s : State) (log : List Entry) → IsUndisturbed log → (count_of_log t s log).rounds ≡ rounds_in t s log }
    ensures since { (t : RuleTable) (s : State) (before : List Entry) (event : Event) (log : List Entry) (count : RoundCount) → IsUndisturbed log
        → (last_count t s (before ++ (event, Accepted) ∷ log) count).rounds ≡ rounds_in t (state_from s (before ++ (event, Accepted) ∷ [])) log }
{}
