//! What scripts are played on: a network, a gate, and how many workers there are.

ghost use Rattle.std.specs.Prelude.{◌≡◌, ◌<◌, ◌≤◌, length};
ghost use Rattle.std.specs.List.{All};
ghost use Rattle.std.specs.Result.{result_err};
ghost use Rattle.locked_net.specs.Nets.{book_of, setting_of};
ghost use Rattle.locked_net.specs.Receipts.{fresh, IsOfBook};
ghost use Rattle.storm_runner.specs.Storm.{MayEndScript};
ghost use Rattle.storm_runner.specs.PlayedCommands.{scene_of, AllStop};

use crate::play::play;
use locked_net::{CallFault, Clerk, LockedNet};
use rule_machine::Rules;
use script_text::Script;
use std::alloc::Global;
use std::sync::Wait;
use std::thread::Threads;
use steal_pool::Gate;

/// How many workers evaluate a step, how many roam, and for how many turns.
#[derive(Clone, Copy, Debug, PartialEq, Eq)]
pub struct WorkerConfig {
    /// How many workers evaluate a script's step, at least 1.
    pub workers: u32,
    /// How many workers roam during the scripts, at most 64.
    pub roamers: u32,
    /// How many turns each roaming worker takes.
    pub turns: u32,
    ghost some_workers: { 1 ≤ workers },
    ghost few_roamers: { roamers ≤ 64 },
}

#[derive(Drop)]
pub(crate) struct StormContext<'a, R: Rules, G: Gate> {
    pub alloc: Global,
    pub net: &'a LockedNet<R>,
    pub gate: &'a G,
    pub config: WorkerConfig,
}

/// Plays a script line by line, up to its end or its first fault.
fn play_script<R: Rules + Sync, G: Gate, T: Threads + Wait + Sync>(
    rt: &T,
    context: &StormContext<R, G>,
    number: u32,
    script: &Script,
    clerk: &mut Clerk,
) -> Result<(), CallFault>
    requires { clerk.old ≡ fresh }
    ensures played { MayEndScript (scene_of (setting_of R.table context.now.net.now) clerk.new) script.now clerk.new (result_err result) }
    ensures note { IsOfBook (book_of context.now.net.now) clerk.new }
{
    for line in script.lines() {
        context.gate.pass(rt, number, line.line);
        play(rt, context, clerk, &line.command)?;
    }
    Ok(())
}

pub(crate) fn play_first<R: Rules + Sync, G: Gate, T: Threads + Wait + Sync>(
    rt: &T,
    context: &StormContext<R, G>,
    number: u32,
    scripts: &[Script],
    clerks: &mut [Clerk],
) -> Option<CallFault>
    requires few { length scripts.now < 2 }
    requires size { length scripts.now ≡ length clerks.old }
    requires fresh { All (λ clerk. clerk ≡ fresh) clerks.old }
    ensures played { AllStop (setting_of R.table context.now.net.now) scripts.now clerks.new result }
    ensures notes { All (IsOfBook (book_of context.now.net.now)) clerks.new }
{
    if scripts.is_empty() {
        return None;
    }
    play_script(rt, context, number, &scripts[0], &mut clerks[0]).err()
}
