//! By how much one disturbance changes a silent network, whatever the daemon chooses.

ghost use Rattle.rule_machine.specs.HsuHuang.{hsu_huang};
ghost use Rattle.rule_machine.specs.Manne.{manne};
ghost use Rattle.silence_laws.specs.Laws.{FewAreGained, FewAreLost, ManneMovesArePaid, ManneSilentCostIsLess, ManneSilentCostPays, NobodyWaits, RewritingChangesNothing, SilentCostIsLess, SilentCostPays, TurnedCostsLess};

/// After one disturbance of a stable network there is at most one pair more than before.
///
/// A pair is gained only if the disturbance links two unmarried nodes, removes the edge of a pair, or
/// changes the pointer of a paired node.
#[tactic(auto, using(crate::proofs::PairCounts::few_are_gained, containment_laws::proofs::Proved::hsu_huang_contains, containment_laws::proofs::Proved::manne_contains))]
pub fn few_are_gained()
    ensures hsu_huang { FewAreGained hsu_huang }
    ensures manne { FewAreGained manne }
{}

/// After one disturbance, once the network is stable again, there is at most one pair fewer.
///
/// A pair is lost only if the disturbance removes the edge of a pair, or one of the two nodes of a pair.
#[tactic(auto, using(crate::proofs::PairCounts::few_are_lost, containment_laws::proofs::Proved::hsu_huang_contains, containment_laws::proofs::Proved::manne_contains))]
pub fn few_are_lost()
    ensures hsu_huang { FewAreLost hsu_huang }
    ensures manne { FewAreLost manne }
{}

/// By Manne's rules one disturbance of a stable network causes at most 2 moves more than its cost.
///
/// The moves are at most the cost, plus 2 if a new pair may form, plus 1 for `leave`.
#[tactic(auto, using(crate::proofs::PairCounts::manne_moves_are_paid))]
pub fn manne_moves_are_paid()
    ensures { ManneMovesArePaid }
{}

/// By Manne's rules the silent cost of one disturbance of a stable network bounds its moves.
///
/// The silent cost counts unmarried neighbours alone. The silent cost is at most the cost, plus 2 if a new
/// pair may form, plus 1 for `leave`.
#[tactic(auto, using(crate::proofs::MannePays::manne_silent_cost_pays, crate::proofs::MannePays::manne_silent_cost_is_less))]
pub fn manne_silent_cost_pays()
    ensures pays { ManneSilentCostPays }
    ensures less { ManneSilentCostIsLess }
{}

/// By Hsu and Huang's rules the silent cost of one disturbance of a stable network bounds its moves.
///
/// The silent cost counts unmarried neighbours alone. The silent cost is at most the cost.
#[tactic(auto, using(crate::proofs::Pays::silent_cost_pays, crate::proofs::CostComparison::silent_cost_is_less))]
pub fn silent_cost_pays()
    ensures pays { SilentCostPays }
    ensures less { SilentCostIsLess }
{}

/// Writing the value that a pointer already has changes nothing, from any state.
#[tactic(auto, using(crate::proofs::CostComparison::rewriting_changes_nothing))]
pub fn rewriting_changes_nothing()
    ensures { RewritingChangesNothing }
{}

/// By Hsu and Huang's rules changing a paired node's pointer causes fewer moves than its cost.
///
/// The moves are at least 2 fewer than the cost if the new target is another neighbour, and at least 3
/// fewer if the new pointer is null. The network is stable before the change.
#[tactic(auto, using(crate::proofs::Pays::turned_costs_less))]
pub fn turned_costs_less()
    ensures { TurnedCostsLess }
{}

/// In a stable network each target points back, and no node with a null pointer has a suitor.
///
/// So the rows of the table of costs for unanswered and courted nodes never apply to a silent network.
#[tactic(auto, using(crate::proofs::UnreachedNodes::nobody_waits))]
pub fn nobody_waits()
    ensures { NobodyWaits }
{}
