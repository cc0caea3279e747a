//! Playing many scripts at once: each fork plays two halves of them.

ghost use Rattle.std.specs.Prelude.{◌≡◌, ◌+◌, ◌<◌, ◌^◌, length};
ghost use Rattle.std.specs.List.{All};
ghost use Rattle.std.specs.Thread.{IsSync, IsSend};
ghost use Rattle.locked_net.specs.Nets.{book_of, setting_of};
ghost use Rattle.locked_net.specs.Receipts.{fresh, IsOfBook};
ghost use Rattle.storm_runner.specs.PlayedCommands.{PlayedOn};

use crate::storm_context::{StormContext, play_first};
use locked_net::{CallFault, Clerk};
use rule_machine::Rules;
use script_text::Script;
use std::sync::Wait;
use std::thread::{Threads, join_mut};
use steal_pool::Gate;

/// Two rows of scripts, `right` after `left`, and the number of the first script of `left`.
#[derive(Drop)]
struct SplitWork<'a> {
    first: u32,
    left: &'a [Script],
    right: &'a [Script],
}

/// Plays each script by the clerk at its index; scripts run at once as far as threads can be started.
///
/// Returns the first fault, in the order of the scripts. The first script has the number `first`.
#[cycle(forks)]
#[tactic(auto, using(crate::proofs::SplitScripts::on_one_log))]
pub(crate) fn play_all<R: Rules + Send + Sync, G: Gate + Sync, T: Threads + Wait + Sync>(
    rt: &T,
    context: &StormContext<R, G>,
    first: u32,
    scripts: &[Script],
    clerks: &mut [Clerk],
) -> Option<CallFault>
    requires size { length scripts.now ≡ length clerks.old }
    requires numbers { first + length scripts.now < 2 ^ 32 }
    requires fresh { All (λ clerk. clerk ≡ fresh) clerks.old }
    ensures played { PlayedOn (setting_of R.table context.now.net.now) scripts.now clerks.new result }
    ensures notes { All (IsOfBook (book_of context.now.net.now)) clerks.new }
{
    if scripts.len() < 2 {
        return play_first(rt, context, first, scripts, clerks);
    }
    let middle = scripts.len() / 2;
    let (left, right) = scripts.split_at(middle);
    let (ours, theirs) = clerks.split_at_mut(middle);
    let halves = SplitWork { first, left, right };
    let (fault, other) = play_halves(rt, context, &halves, ours, theirs);
    fault.or(other)
}

#[cycle(forks)]
fn play_halves<R: Rules + Send + Sync, G: Gate + Sync, T: Threads + Wait + Sync>(
    rt: &T,
    context: &StormContext<R, G>,
    halves: &SplitWork,
    ours: &mut [Clerk],
    theirs: &mut [Clerk],
) -> (Option<CallFault>, Option<CallFault>)
    requires left_size { length halves.now.left.now ≡ length ours.old }
    requires right_size { length halves.now.right.now ≡ length theirs.old }
    requires numbers { halves.now.first + length halves.now.left.now + length halves.now.right.now < 2 ^ 32 }
    requires left_fresh { All (λ clerk. clerk ≡ fresh) ours.old }
    requires right_fresh { All (λ clerk. clerk ≡ fresh) theirs.old }
    ensures left { PlayedOn (setting_of R.table context.now.net.now) halves.now.left.now ours.new result.0 }
    ensures right { PlayedOn (setting_of R.table context.now.net.now) halves.now.right.now theirs.new result.1 }
    ensures left_notes { All (IsOfBook (book_of context.now.net.now)) ours.new }
    ensures right_notes { All (IsOfBook (book_of context.now.net.now)) theirs.new }
{
    let (first, left, right) = (halves.first, halves.left, halves.right);
    let second = first + left.len() as u32;
    join_mut(
        rt,
        &mut || -> Option<CallFault>
            requires { IsSync T.row × IsSync G.row × IsSend R.row × IsSync R.row
                × (length left.now ≡ length ours.now) × (first + length left.now < 2 ^ 32) × All (λ clerk. clerk ≡ fresh) ours.now }
            ensures played { PlayedOn (setting_of R.table context.entry.now.net.now) left.entry.now ours.exit.now result }
            ensures notes { All (IsOfBook (book_of context.entry.now.net.now)) ours.exit.now }
        { play_all(rt, context, first, left, ours) },
        &mut || -> Option<CallFault>
            requires { IsSync T.row × IsSync G.row × IsSend R.row × IsSync R.row
                × (length right.now ≡ length theirs.now) × (second + length right.now < 2 ^ 32) × All (λ clerk. clerk ≡ fresh) theirs.now }
            ensures played { PlayedOn (setting_of R.table context.entry.now.net.now) right.entry.now theirs.exit.now result }
            ensures notes { All (IsOfBook (book_of context.entry.now.net.now)) theirs.exit.now }
        { play_all(rt, context, second, right, theirs) },
    )
}
