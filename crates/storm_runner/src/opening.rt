//! The network of a storm.

ghost use Rattle.std.specs.Prelude.{◌≡◌, IfOk, IfSome};
ghost use Rattle.locked_net.specs.Nets.{beginning_of, first_nodes_of, log_limit_of, name_count_of};
ghost use Rattle.rule_machine.specs.Tables.{table_of, weight_of};
ghost use Rattle.script_run.specs.Restarts.{restart_of};
ghost use Rattle.script_run.specs.RunOptions.{asked_of};
ghost use Rattle.storm_runner.specs.Outcome.{resumed_start};
ghost use Rattle.storm_runner.specs.StormParts.{GoesOnAs, base_at_start};

use locked_net::LockedNet;
use rule_engine::Net;
use rule_machine::{Rules, Want};
use script_run::{Options, Restart};
use std::alloc::{AllocError, Global};
use std::sync::Wait;
use step_log::Journal;

/// The network of the options, or the one that goes on after a run with these options.
pub(crate) fn net_for<R: Rules, W: Wait>(
    rt: &W,
    alloc: Global,
    options: &Options,
    restart: Option<Restart>,
) -> Result<LockedNet<R>, Want>
    requires { IfSome restart (GoesOnAs R.table R.NODE_WEIGHT (asked_of options.now)) }
    ensures nodes { IfOk result (λ net. name_count_of net ≡ options.now.nodes) }
    ensures present { IfOk result (λ net. first_nodes_of net ≡ options.now.present) }
    ensures limit { IfOk result (λ net. log_limit_of net ≡ options.now.limit) }
    ensures beginning { IfOk result (λ net. beginning_of net ≡ base_at_start restart) }
{
    if let Some(restart) = restart {
        return resumed_net(rt, alloc, restart);
    }
    let (nodes, present) = (options.nodes(), options.present());
    match LockedNet::with_present(alloc, rt, nodes, present, options.limit()) {
        Ok(net) => Ok(net),
        Err(_) => Err(AllocError),
    }
}

fn resumed_net<R: Rules, W: Wait>(
    rt: &W,
    alloc: Global,
    restart: Restart,
) -> Result<LockedNet<R>, Want>
    requires table { table_of restart.rules ≡ R.table }
    requires weight { weight_of restart.rules ≡ R.NODE_WEIGHT }
    ensures nodes { IfOk result (λ net. name_count_of net ≡ (resumed_start (restart_of restart)).asked.nodes) }
    ensures present { IfOk result (λ net. first_nodes_of net ≡ (resumed_start (restart_of restart)).asked.present) }
    ensures limit { IfOk result (λ net. log_limit_of net ≡ restart.limit) }
    ensures beginning { IfOk result (λ net. beginning_of net ≡ (resumed_start (restart_of restart)).base) }
{
    let Restart {
        net,
        spent,
        number,
        limit,
        ..
    } = restart;
    let net = Net::of_state(alloc, net, spent)?;
    let journal = Journal::of_net(alloc, net, number, limit)?;
    LockedNet::of_journal(alloc, rt, journal)
}
