//! The bounds on moves, as laws of all runs.
#![tactic(auto, using(crate::proofs::Proved::hsu_huang_laws, crate::proofs::Proved::manne_laws))]

ghost use Rattle.rule_machine.specs.HsuHuang.{hsu_huang};
ghost use Rattle.rule_machine.specs.Manne.{manne};
ghost use Rattle.machine_laws.specs.Laws.{MovesAreBounded, MovesArePaid, EnoughMovesSettle, EnoughStepsSettle, EnoughMovesGiveHalf, SpendingIsBounded, EpochsAreBounded, RunsMayBegin, RunsMayGoOn};

/// Between two disturbances nodes make at most 2m + n moves (Hsu and Huang) or 2m + 3n (Manne).
///
/// There are m edges and n nodes. Holds from any state, whatever the daemon chooses and however many nodes
/// move at once.
pub fn moves_are_bounded()
    ensures hsu_huang { MovesAreBounded hsu_huang 1 }
    ensures manne { MovesAreBounded manne 3 }
{}

/// Without a disturbance, the moves so far plus the charge left are at most the charge at the start.
///
/// The charge at the start is at most 2m + n (Hsu and Huang) or 2m + 3n (Manne).
pub fn moves_are_paid()
    ensures hsu_huang { MovesArePaid hsu_huang 1 }
    ensures manne { MovesArePaid manne 3 }
{}

/// A run without a disturbance ends stable if it has as many moves as the charge at its start.
pub fn enough_moves_settle()
    ensures hsu_huang { EnoughMovesSettle hsu_huang }
    ensures manne { EnoughMovesSettle manne }
{}

/// A run without a disturbance ends stable if its accepted steps reach the charge at its start.
///
/// Each step makes at least one move.
pub fn enough_steps_settle()
    ensures hsu_huang { EnoughStepsSettle hsu_huang }
    ensures manne { EnoughStepsSettle manne }
{}

/// After enough moves there are at least half as many mutual pairs as edges in any matching.
///
/// Enough: as many as the charge at the start of the run. The run has no disturbance.
pub fn enough_moves_give_half()
    ensures hsu_huang { EnoughMovesGiveHalf hsu_huang }
    ensures manne { EnoughMovesGiveHalf manne }
{}

/// In a run from the opening state, moves since the last disturbance plus the charge are bounded.
///
/// The bound is 2m + n (Hsu and Huang) or 2m + 3n (Manne) for the m edges and n nodes at the end. The last
/// disturbance is the last accepted one.
pub fn spending_is_bounded()
    ensures hsu_huang { SpendingIsBounded hsu_huang 1 }
    ensures manne { SpendingIsBounded manne 3 }
{}

/// Each epoch of a run has at most 2m + n moves (Hsu and Huang) or 2m + 3n (Manne).
///
/// The epoch begins with m edges and n nodes. The run starts at the opening state.
pub fn epochs_are_bounded()
    ensures hsu_huang { EpochsAreBounded hsu_huang 1 }
    ensures manne { EpochsAreBounded manne 3 }
{}

/// Each moment of a run from the opening state gives a valid base: a run may begin there.
///
/// The base has a state for the same names, no true flag if flags are not used, and spent moves plus charge
/// within the bound.
pub fn runs_may_begin()
    ensures hsu_huang { RunsMayBegin hsu_huang 1 }
    ensures manne { RunsMayBegin manne 3 }
{}

/// Each moment of a run that began at a valid base gives a valid base.
pub fn runs_may_go_on()
    ensures hsu_huang { RunsMayGoOn hsu_huang 1 }
    ensures manne { RunsMayGoOn manne 3 }
{}
