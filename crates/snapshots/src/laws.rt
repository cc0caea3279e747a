//! How the pointers and present nodes on a board correspond to runs of the machine.

ghost use Rattle.std.specs.Prelude.{◌≡◌, ℕ, ◌+◌, List};
ghost use mathlib.Core.List.{IsPrefix};
ghost use Rattle.rule_machine.specs.RuleTable.{RuleTable};
ghost use Rattle.rule_machine.specs.Run.{Entry, Moment, Run};
ghost use Rattle.snapshots.specs.Starts.{StartsAt};
ghost use Rattle.snapshots.specs.Row.{BoardShape, pointers_after, here_after, IsRun};

use crate::rule::Law;
use rule_machine::Rules;
use std::marker::PhantomData;

/// The law that each log is a run of the rules from the opening state, or from the board's base.
pub struct Runs<R> {
    rules: PhantomData<R>,
}

impl<R: Rules> Law for Runs<R> {
    ghost holds = { IsRun R.table };
}

/// The pointers after a run's log are those of the run's last state, whatever targets the moves took.
/// The run begins at the opening state or at a base, as the extent says.
pub fn pointers_are_those_of_the_run()
    ensures { (t : RuleTable) (size : ℕ) (extent : BoardShape) (log : List Entry) (start end : Moment) → extent.places ≡ size + 1
        → StartsAt t size extent.present extent.base start → Run t start log end → end.state.registers.pointers ≡ pointers_after extent log }
{}

/// The present nodes and the number of names after a run's log are those of the run's last state.
/// The run begins at the opening state or at a base, as the extent says.
pub fn presence_is_that_of_the_run()
    ensures here { (t : RuleTable) (size : ℕ) (extent : BoardShape) (log : List Entry) (start end : Moment) → extent.places ≡ size + 1
        → StartsAt t size extent.present extent.base start → Run t start log end → end.state.network.here ≡ here_after extent log }
    ensures size { (t : RuleTable) (size : ℕ) (extent : BoardShape) (log : List Entry) (start end : Moment) → extent.places ≡ size + 1
        → StartsAt t size extent.present extent.base start → Run t start log end → end.state.network.size ≡ size }
{}

/// Each prefix of a run is a run.
pub fn beginnings_are_runs()
    ensures { (t : RuleTable) (extent : BoardShape) (some all : List Entry) → IsPrefix some all → IsRun t extent all → IsRun t extent some }
{}
