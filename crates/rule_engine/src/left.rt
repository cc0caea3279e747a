//! How many moves and rounds can still come.

ghost use Rattle.std.specs.Prelude.{◌≡◌, []};
ghost use Rattle.rule_machine.specs.RuleTable.{enabled_names};
ghost use Rattle.move_bounds.specs.MovesLeft.{smaller_bound, moves_left, BoundsMoves};
ghost use Rattle.rule_engine.specs.PreparedEvents.{net_moment};
ghost use Rattle.rule_engine.specs.RoundsLeft.{LeavesIfCounted, rounds_left};

use crate::Net;
use move_bounds::NodeBound;

fn smaller(charge: u32, most: Option<u32>) -> u32
    ensures { result ≡ smaller_bound charge most }
{
    match most {
        Some(most) => charge.min(most),
        None => charge,
    }
}

impl<R: NodeBound> Net<R> {
    /// The most moves that can still come before the next accepted disturbance, for any daemon.
    /// This is 0 if the network is silent; else the charge, or a smaller bound by the number of nodes alone
    /// if the rules have one. Under Hsu and Huang's rules (1992) the bound by nodes is n²/2 + n - 2 for n
    /// nodes, with n²/2 rounded down. Costs as much as `charge`.
    pub fn moves_left(&mut self) -> u32
        ensures value { result ≡ moves_left R.table R.most self.old.state }
        ensures silent { enabled_names R.table self.old.state ≡ [] → result ≡ 0 }
        ensures promise { BoundsMoves R.table self.old.state self.old.spent result }
        ensures kept { self.new ≡ self.old }
    {
        // Called only for the contract: the state is sound.
        let _ = self.registers();
        if self.is_quiet() {
            return 0;
        }
        let charge = self.charge();
        smaller(charge, R::most_moves(self.store().nodes()))
    }
    /// The most rounds that can still be completed before the next accepted disturbance, for any daemon.
    /// `None` if rounds are not counted; 0 if the network is silent. Else the rounds that the number of nodes
    /// allows, less those complete, or `moves_left` if that is less: n nodes complete at most n rounds under Hsu
    /// and Huang's rules (1992), and 2n under those of Manne and others (2009), or 2n - 1 if n is odd. Costs as
    /// much as `charge`.
    pub fn rounds_left(&mut self) -> Option<u32>
        ensures value { result ≡ rounds_left R.table R.most R.rounds self.old.state self.old.counting }
        ensures left { LeavesIfCounted R.table (net_moment self.old) self.old.counting result }
        ensures kept { self.new ≡ self.old }
    {
        let Some(complete) = self.rounds() else {
            return None;
        };
        let moves = self.moves_left();
        let most = R::most_rounds(self.store().nodes());
        Some(most.saturating_sub(complete).min(moves))
    }
}
