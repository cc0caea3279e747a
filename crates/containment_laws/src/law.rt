//! Laws of which nodes cannot move, whatever the daemon chooses.
//!
//! Of a table they ask two laws of the trait `Rules`: an allowed target is a neighbour, and no rule is enabled
//! without work to do.

ghost use Rattle.std.specs.Prelude.{ℕ, Bool, IsTrue};
ghost use Rattle.rule_machine.specs.Network.{present};
ghost use Rattle.rule_machine.specs.State.{State, IsState};
ghost use Rattle.rule_machine.specs.RuleTable.{RuleTable};
ghost use Rattle.rule_machine.specs.Stable.{IsStable};
ghost use Rattle.rule_machine.specs.Table.{IsTable, AsksForWork};
ghost use Rattle.containment_laws.specs.Rest.{is_at_rest};
ghost use Rattle.containment_laws.specs.Laws.{ContainsFaults, RestIsIdle, StepsLeaveRest, StepsKeepPairs, RunsLeaveRest, MoversWereRestless, RunsKeepPairs, DisturbancesReach, DisturbancesBreakOne, OneIsContained, MoversWereReached, OnePairIsLost, AllAreContained, MoversAreAccountedFor, PairsAreAccountedFor, PairsAreLeft, ReachIsNear, ReachIsSmall, ReachIsExact};

use rule_machine::Rules;

/// A network is stable exactly if each of its nodes is at rest.
pub fn stable_is_rest()
    ensures rests { (uses_flags : Bool) (s : State) → IsState s → IsStable uses_flags s → (v : ℕ) → IsTrue (is_at_rest uses_flags s v) }
    ensures stable { (uses_flags : Bool) (s : State) → IsState s → ((v : ℕ) → IsTrue (present s.network v) → IsTrue (is_at_rest uses_flags s v)) → IsStable uses_flags s }
{}

/// No rule is enabled at a node at rest.
#[tactic(auto, using(crate::proofs::IdleNodes::at_rest_idle))]
pub fn rest_is_idle()
    ensures { (t : RuleTable) → IsTable t → AsksForWork t → RestIsIdle t }
{}

/// In a step a node at rest does not move, keeps its registers and stays at rest.
///
/// Holds however many other nodes move.
pub fn steps_leave_rest()
    ensures { (t : RuleTable) → IsTable t → AsksForWork t → StepsLeaveRest t }
{}

/// A step breaks no pair, from any state.
pub fn steps_keep_pairs()
    ensures { (t : RuleTable) → IsTable t → AsksForWork t → StepsKeepPairs t }
{}

/// Between two disturbances a node at rest never moves, keeps its registers and stays at rest.
///
/// Holds from any state, whatever the daemon chooses.
pub fn runs_leave_rest()
    ensures { (t : RuleTable) → IsTable t → AsksForWork t → RunsLeaveRest t }
{}

/// Between two disturbances only nodes that were not at rest at the start move.
#[tactic(auto, using(crate::proofs::Proved::movers_were_restless, crate::proofs::Proved::contains_from))]
pub fn movers_were_restless()
    ensures { (t : RuleTable) → IsTable t → AsksForWork t → MoversWereRestless t }
{}

/// No schedule ever breaks a pair.
pub fn runs_keep_pairs()
    ensures { (t : RuleTable) → IsTable t → AsksForWork t → RunsKeepPairs t }
{}

/// A node at rest that is not in the reach of an accepted disturbance is at rest after it.
pub fn disturbances_reach()
    ensures { (t : RuleTable) → IsTable t → AsksForWork t → DisturbancesReach t }
{}

/// An accepted disturbance breaks at most one pair.
pub fn disturbances_break_one()
    ensures { (t : RuleTable) → IsTable t → AsksForWork t → DisturbancesBreakOne t }
{}

/// After one disturbance of a stable network only nodes in the disturbance's reach ever move.
///
/// All other nodes are at rest, and keep their registers if they are still present, whatever the daemon
/// chooses.
pub fn one_is_contained()
    ensures { (t : RuleTable) → IsTable t → AsksForWork t → OneIsContained t }
{}

/// After one disturbance of a stable network each node that moves is in the disturbance's reach.
#[tactic(auto, using(crate::proofs::Proved::movers_were_reached, crate::proofs::Proved::contains_from))]
pub fn movers_were_reached()
    ensures { (t : RuleTable) → IsTable t → AsksForWork t → MoversWereReached t }
{}

/// After one disturbance of any state at most one pair is lost, whatever the daemon chooses.
pub fn one_pair_is_lost()
    ensures { (t : RuleTable) → IsTable t → AsksForWork t → OnePairIsLost t }
{}

/// A node at rest at the start and in the reach of no disturbance never moves and ends at rest.
///
/// Holds for any number of disturbances, from any state, whatever the daemon chooses between them.
pub fn all_are_contained()
    ensures { (t : RuleTable) → IsTable t → AsksForWork t → AllAreContained t }
{}

/// Each node that moves was not at rest at the start, or is in the reach of a disturbance.
///
/// The reach of a disturbance is determined in the state before the disturbance.
#[tactic(auto, using(crate::proofs::Proved::movers_are_accounted_for, crate::proofs::Proved::contains_from))]
pub fn movers_are_accounted_for()
    ensures { (t : RuleTable) → IsTable t → AsksForWork t → MoversAreAccountedFor t }
{}

/// A run loses at most one pair of its start for each disturbance that parts a pair.
#[tactic(auto, using(crate::proofs::LostPairs::path_lost, crate::proofs::IdleNodes::inside_from))]
pub fn pairs_are_accounted_for()
    ensures { (t : RuleTable) → IsTable t → AsksForWork t → PairsAreAccountedFor t }
{}

/// The number of pairs falls by at most the number of disturbances that part a pair.
#[tactic(auto, using(crate::proofs::Proved::pairs_are_left, crate::proofs::Proved::contains_from))]
pub fn pairs_are_left()
    ensures { (t : RuleTable) → IsTable t → AsksForWork t → PairsAreLeft t }
{}

/// The containment radius is 2: the reach of an event is within two links of the nodes it names.
#[tactic(auto, using(crate::proofs::ReachSize::reach_is_near))]
pub fn reach_is_near()
    ensures { ReachIsNear }
{}

/// In a stable network, after the disturbance, no node in the reach is at rest. Not each may move.
///
/// One exception, if flags are not used: a parted node whose neighbours were all married may be at rest.
#[tactic(auto, using(crate::proofs::ExactReach::reach_is_exact))]
pub fn reach_is_exact()
    ensures { (t : RuleTable) → IsTable t → AsksForWork t → ReachIsExact t }
{}

/// The number of nodes in the reach is at most 2, or at most a sum of two degrees.
///
/// The bound, `reach_size`, does not depend on the size of the network.
#[tactic(auto, using(crate::proofs::ReachSize::reach_is_small))]
pub fn reach_is_small()
    ensures { ReachIsSmall }
{}

/// Each rule set that implements the trait `Rules` contains faults, by the laws that it proves there.
pub fn lawful_rules_contain<R: Rules>()
    ensures { ContainsFaults R.table }
{}
