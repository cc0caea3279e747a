//! Scripts and workers on one network, and the log that they leave.

ghost use Rattle.std.specs.Prelude.{◌≡◌, ◌≢◌, ◌≤◌, length, IfErr, IfOk, vec_len};
ghost use Rattle.std.specs.List.{All};
ghost use Rattle.step_log.specs.Headline.{Upholds};
ghost use Rattle.step_log.specs.JournalViews.{kept_of};
ghost use Rattle.step_log.specs.RetainedLogs.{IsRetainedRun};
ghost use Rattle.locked_net.specs.Nets.{name_count_of, first_nodes_of, log_limit_of, setting_of};
ghost use Rattle.locked_net.specs.Receipts.{fresh};
ghost use Rattle.step_log.specs.declared.settle_fault.SettleFault.TheVariants.{Memory};
ghost use Rattle.storm_runner.specs.Storm.{IsStormResult, IsUnsettledStorm};

use crate::WorkerConfig;
use crate::beside::play_beside;
use crate::storm_context::StormContext;
use locked_net::{CallFault, Clerk, LockedNet, SettleFault, settle_own};
use rule_machine::{Rules, Want};
use script_text::Script;
use std::alloc::Global;
use std::sync::Wait;
use std::thread::Threads;
use steal_pool::Gate;
use step_log::Journal;

fn clerks_of<R: Rules>(alloc: Global, net: &LockedNet<R>, count: usize) -> Result<Vec<Clerk>, Want>
    ensures count { IfOk result (λ clerks. vec_len clerks ≡ count) }
    ensures fresh { IfOk result (λ clerks. All (λ clerk. clerk ≡ fresh) clerks.items) }
{
    let mut clerks = Vec::new(alloc);
    for _ in 0..count {
        clerks.push(net.clerk()?)?;
    }
    Ok(clerks)
}

/// Plays scripts on a network, each by its own clerk, while workers roam in it, and settles all clerks.
///
/// The scripts are played at once as far as threads can be started. `config` says how many workers roam and
/// for how many turns; each worker has its own clerk. A `step` is evaluated by as many workers as its items
/// are worth, and at most by `config.workers`.
///
/// Returns the log that the journal keeps, and the first fault: `Behind`, `LogFull`, or `Memory` in a call.
/// The scripts' faults come before the workers', each in their order. A script or worker that meets a fault
/// ends there; the others go on.
///
/// Before each command, the script passes the gate with two numbers: the script's, from 0, and the line's.
/// Workers pass no gate. If no thread can be started, the scripts are played one after another, and then the
/// workers roam. A gate that makes one script wait until another has come then waits for ever.
///
/// - `CountDiffers`, `BaseDiffers` or `Stranger` if clerks and log do not settle.
/// - `Memory` if memory runs out for the clerks, before the first command, or for settling.
///
/// The call waits for the network's lock, for the gate, and for its threads: one for each script and worker,
/// less one. Besides the memory of its calls, it takes a clerk for each script and worker, and a byte for
/// each entry of the log.
pub fn play_scripts<R: Rules + Send + Sync, G: Gate + Sync, T: Threads + Wait + Sync>(
    rt: &T,
    alloc: Global,
    net: LockedNet<R>,
    scripts: &[Script],
    config: WorkerConfig,
    gate: &G,
) -> Result<(Journal<R>, Option<CallFault>), SettleFault>
    requires { length scripts.now ≤ 64 }
    ensures storm { IfOk result (λ left. IsStormResult (setting_of R.table net) (kept_of left.0) scripts.now config.roamers config.turns left.1) }
    ensures run { IfOk result (λ left. IsRetainedRun R.table R.NODE_WEIGHT (kept_of left.0)) }
    ensures upheld { IfOk result (λ left. Upholds R.table R.NODE_WEIGHT (kept_of left.0)) }
    ensures fault { IfErr result (λ why. (why ≢ Memory) → IsUnsettledStorm (setting_of R.table net) scripts.now config.roamers config.turns why) }
    ensures size { IfOk result (λ left. (left.0.state.network.size ≡ name_count_of net) × (left.0.present ≡ first_nodes_of net) × (left.0.limit ≡ log_limit_of net)) }
{
    let count = scripts.len() + config.roamers as usize;
    let Ok(mut clerks) = clerks_of(alloc, &net, count) else {
        net.into_journal(rt);
        return Err(SettleFault::Memory);
    };
    let context = StormContext {
        alloc,
        net: &net,
        gate,
        config,
    };
    let fault = play_beside(rt, &context, scripts, &mut clerks);
    match settle_own(rt, net, clerks) {
        Ok(journal) => Ok((journal, fault)),
        Err(unsettled) => Err(unsettled.why),
    }
}
