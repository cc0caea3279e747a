//! Playing scripts while workers roam.

ghost use Rattle.std.specs.Prelude.{◌≡◌, ◌≢◌, ◌+◌, ◌≤◌, length, IfErr};
ghost use Rattle.std.specs.List.{All};
ghost use Rattle.std.specs.Option.{option_or};
ghost use Rattle.std.specs.Thread.{IsSync, IsSend};
ghost use Rattle.locked_net.specs.Nets.{book_of, setting_of};
ghost use Rattle.locked_net.specs.Receipts.{fresh, IsOfBook};
ghost use Rattle.locked_net.specs.RoamResults.{roam_call_fault};
ghost use Rattle.locked_net.specs.declared.fault.RoamFault.TheVariants.{Thread};
ghost use Rattle.storm_runner.specs.PlayedCommands.{PlayedOn, RoamResultOfNew, ToldOn};

use crate::split_work::play_all;
use crate::storm_context::StormContext;
use locked_net::{CallFault, Clerk, RoamFault, roam};
use rule_machine::Rules;
use script_text::Script;
use std::sync::Wait;
use std::thread::{Threads, join_mut};
use steal_pool::{Gate, NoGate};

/// Plays each script by the clerk at its index, and lets the remaining clerks roam.
///
/// Scripts and workers go on at once if a thread can be started.
pub(crate) fn play_beside<R: Rules + Send + Sync, G: Gate + Sync, T: Threads + Wait + Sync>(
    rt: &T,
    context: &StormContext<R, G>,
    scripts: &[Script],
    clerks: &mut [Clerk],
) -> Option<CallFault>
    requires size { length clerks.old ≡ length scripts.now + context.now.config.roamers }
    requires few { length scripts.now ≤ 64 }
    requires fresh { All (λ clerk. clerk ≡ fresh) clerks.old }
    ensures told { ToldOn (setting_of R.table context.now.net.now) scripts.now context.now.config.roamers context.now.config.turns clerks.new result }
    ensures notes { All (IsOfBook (book_of context.now.net.now)) clerks.new }
{
    let (own, roaming) = clerks.split_at_mut(scripts.len());
    let (met, roamed) = play_and_roam(rt, context, scripts, own, roaming);
    first_fault(met, roamed)
}

fn play_and_roam<R: Rules + Send + Sync, G: Gate + Sync, T: Threads + Wait + Sync>(
    rt: &T,
    context: &StormContext<R, G>,
    scripts: &[Script],
    own: &mut [Clerk],
    roaming: &mut [Clerk],
) -> (Option<CallFault>, Result<(), RoamFault>)
    requires size { length scripts.now ≡ length own.old }
    requires few_scripts { length scripts.now ≤ 64 }
    requires few_workers { length roaming.old ≤ 64 }
    requires own_fresh { All (λ clerk. clerk ≡ fresh) own.old }
    requires roaming_fresh { All (λ clerk. clerk ≡ fresh) roaming.old }
    ensures played { PlayedOn (setting_of R.table context.now.net.now) scripts.now own.new result.0 }
    ensures roamed { RoamResultOfNew (setting_of R.table context.now.net.now) context.now.config.turns roaming.old roaming.new result.1 }
    ensures own_notes { All (IsOfBook (book_of context.now.net.now)) own.new }
    ensures roaming_notes { All (IsOfBook (book_of context.now.net.now)) roaming.new }
{
    if roaming.is_empty() {
        return (
            play_all(rt, context, 0, scripts, own),
            Err(RoamFault::ZeroWorkers),
        );
    }
    let turns = context.config.turns;
    let (roamed, met) = join_mut(
        rt,
        &mut || -> Result<(), RoamFault>
            requires { IsSync T.row × IsSend R.row × (length roaming.now ≤ 64) × All (λ clerk. clerk ≡ fresh) roaming.now }
            ensures roamed { RoamResultOfNew (setting_of R.table context.entry.now.net.now) turns roaming.entry.now roaming.exit.now result }
            ensures notes { All (IsOfBook (book_of context.entry.now.net.now)) roaming.exit.now }
        { roam_new(rt, context, turns, roaming) },
        &mut || -> Option<CallFault>
            requires { IsSync T.row × IsSync G.row × IsSend R.row × IsSync R.row
                × (length scripts.now ≡ length own.now) × (length scripts.now ≤ 64) × All (λ clerk. clerk ≡ fresh) own.now }
            ensures played { PlayedOn (setting_of R.table context.entry.now.net.now) scripts.entry.now own.exit.now result }
            ensures notes { All (IsOfBook (book_of context.entry.now.net.now)) own.exit.now }
        { play_all(rt, context, 0, scripts, own) },
    );
    (met, roamed)
}

fn roam_new<R: Rules + Send, G: Gate, T: Threads + Wait + Sync>(
    rt: &T,
    context: &StormContext<R, G>,
    turns: u32,
    clerks: &mut [Clerk],
) -> Result<(), RoamFault>
    requires few { length clerks.old ≤ 64 }
    requires fresh { All (λ clerk. clerk ≡ fresh) clerks.old }
    ensures roamed { RoamResultOfNew (setting_of R.table context.now.net.now) turns clerks.old clerks.new result }
    ensures notes { All (IsOfBook (book_of context.now.net.now)) clerks.new }
{
    roam(rt, context.net, clerks, turns, &NoGate)
}

fn first_fault(met: Option<CallFault>, roamed: Result<(), RoamFault>) -> Option<CallFault>
    requires { IfErr roamed (λ fault. fault ≢ Thread) }
    ensures { result ≡ option_or met (roam_call_fault roamed) }
{
    let other = match roamed {
        Ok(()) | Err(RoamFault::ZeroWorkers) => None,
        Err(RoamFault::Thread) => unreachable!(),
        Err(RoamFault::Behind { front, seen }) => Some(CallFault::Behind { front, seen }),
        Err(RoamFault::LogFull) => Some(CallFault::LogFull),
        Err(RoamFault::Memory) => Some(CallFault::Memory),
    };
    met.or(other)
}
