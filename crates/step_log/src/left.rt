//! How many moves and rounds can still come.

ghost use Rattle.std.specs.Prelude.{◌≡◌, []};
ghost use Rattle.rule_machine.specs.RuleTable.{enabled_names};
ghost use Rattle.move_bounds.specs.MovesLeft.{moves_left, BoundsMoves};
ghost use Rattle.rule_engine.specs.RoundsLeft.{LeavesIfCounted, rounds_left};
ghost use Rattle.step_log.specs.JournalViews.{kept_of};
ghost use Rattle.step_log.specs.Recording.{recorded_moment};
ghost use Rattle.step_log.specs.RetainedLogs.{moment_in};

use crate::{Journal, Recorder};
use rule_engine::NodeBound;

impl<R: NodeBound> Recorder<R> {
    /// The most moves that can still come before the next accepted disturbance, 0 in silence.
    /// See `Net::moves_left`, also for the cost.
    pub fn moves_left(&mut self) -> u32
        ensures value { result ≡ moves_left R.table R.most self.old.state }
        ensures silent { enabled_names R.table self.old.state ≡ [] → result ≡ 0 }
        ensures promise { BoundsMoves R.table self.old.state self.old.spent result }
        ensures kept { self.new ≡ self.old }
    {
        self.net.moves_left()
    }

    /// The most rounds that can still be completed before the next accepted disturbance; `None` if rounds are
    /// not counted, 0 in silence. See `Net::rounds_left`, also for the cost.
    pub fn rounds_left(&mut self) -> Option<u32>
        ensures value { result ≡ rounds_left R.table R.most R.rounds self.old.state self.old.counting }
        ensures left { LeavesIfCounted R.table (recorded_moment self.old) self.old.counting result }
        ensures kept { self.new ≡ self.old }
    {
        self.net.rounds_left()
    }
}

impl<R: NodeBound> Journal<R> {
    /// The most moves that can still come before the next accepted disturbance, 0 in silence.
    /// See `Net::moves_left`, also for the cost.
    pub fn moves_left(&mut self) -> u32
        ensures value { result ≡ moves_left R.table R.most self.old.state }
        ensures silent { enabled_names R.table self.old.state ≡ [] → result ≡ 0 }
        ensures promise { BoundsMoves R.table self.old.state self.old.spent result }
        ensures kept { self.new ≡ self.old }
    {
        self.net.moves_left()
    }

    /// The most rounds that can still be completed before the next accepted disturbance; `None` if rounds are
    /// not counted, 0 in silence. See `Net::rounds_left`, also for the cost.
    pub fn rounds_left(&mut self) -> Option<u32>
        ensures value { result ≡ rounds_left R.table R.most R.rounds self.old.state self.old.counting }
        ensures left { LeavesIfCounted R.table (moment_in (kept_of self.old)) self.old.counting result }
        ensures kept { self.new ≡ self.old }
    {
        self.net.rounds_left()
    }
}
