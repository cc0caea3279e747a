//! Carrying out a command.

ghost use Rattle.std.specs.Prelude.{◌≡◌, ◌<◌, IfOk, OnOk, OnErr};
ghost use mathlib.Core.List.{IsPrefix};
ghost use Rattle.locked_net.specs.Calls.{Keeps};
ghost use Rattle.locked_net.specs.Nets.{book_of, setting_of};
ghost use Rattle.locked_net.specs.Receipts.{HasNoteOf, IsOfBook, front_of, noted, seen_by};
ghost use Rattle.script_text.specs.declared.command.Command.TheVariants.{Tell, Checkpoint};
ghost use Rattle.storm_runner.specs.PlayedCommands.{Plays, IsBased};

use crate::storm_context::StormContext;
use crate::turns::{drive, recall, scramble};
use locked_net::{CallFault, Clerk, LockedNet, StepFault};
use rule_machine::{Event, Reply, Rules};
use script_text::Command;
use std::sync::Wait;
use std::thread::Threads;
use steal_pool::{Gate, NoGate, paying_workers};

fn call<R: Rules + Sync, G: Gate, T: Threads + Wait + Sync>(
    rt: &T,
    context: &StormContext<R, G>,
    clerk: &mut Clerk,
    event: &Event,
) -> Result<Reply, CallFault>
    ensures receipt { IfOk result (λ reply. Keeps clerk.old.receipts clerk.new.receipts event.now reply) }
    ensures note { OnOk result (HasNoteOf (book_of context.now.net.now) clerk.new) }
    ensures base { clerk.new.base ≡ clerk.old.base }
    ensures above { OnOk result (seen_by clerk.old < front_of clerk.new.receipts) }
    ensures kept { OnErr result (clerk.new ≡ clerk.old) }
{
    match event.clone()? {
        Event::Step(choice) => {
            let workers = paying_workers(context.config.workers, choice.items().len());
            match clerk.step_with(rt, context.net, choice, workers, &NoGate) {
                Ok(reply) => Ok(reply),
                Err(StepFault::Call(fault)) => Err(fault),
                Err(StepFault::Pool(_)) => unreachable!(),
            }
        }
        event => clerk.call(rt, context.net, event),
    }
}

fn tell<R: Rules + Sync, G: Gate, T: Threads + Wait + Sync>(
    rt: &T,
    context: &StormContext<R, G>,
    clerk: &mut Clerk,
    event: &Event,
) -> Result<(), CallFault>
    requires { IsOfBook (book_of context.now.net.now) clerk.old }
    ensures plays { Plays (setting_of R.table context.now.net.now) (Tell event.now) clerk.old clerk.new result }
    ensures note { IsOfBook (book_of context.now.net.now) clerk.new }
    ensures base { clerk.new.base ≡ clerk.old.base }
    ensures grows { IsPrefix (noted clerk.old.note) (noted clerk.new.note) }
{
    let before = clerk.noted();
    call(rt, context, clerk, event)?;
    recall(clerk, before);
    Ok(())
}

/// A checkpoint adds no receipt.
fn checkpoint<R: Rules, W: Wait>(
    rt: &W,
    net: &LockedNet<R>,
    clerk: &mut Clerk,
) -> Result<(), CallFault>
    requires { IsOfBook (book_of net.now) clerk.old }
    ensures plays { Plays (setting_of R.table net.now) Checkpoint clerk.old clerk.new result }
    ensures base { OnOk result (IsBased (setting_of R.table net.now) Checkpoint clerk.old clerk.new) }
    ensures kept { OnErr result (clerk.new.base ≡ clerk.old.base) }
    ensures note { IsOfBook (book_of net.now) clerk.new }
    ensures grows { IsPrefix (noted clerk.old.note) (noted clerk.new.note) }
{
    clerk.checkpoint(rt, net)?;
    Ok(())
}

/// Calls the network for a command: once, or for each turn until a turn has nothing to do.
pub(crate) fn play<R: Rules + Sync, G: Gate, T: Threads + Wait + Sync>(
    rt: &T,
    context: &StormContext<R, G>,
    clerk: &mut Clerk,
    command: &Command,
) -> Result<(), CallFault>
    requires { IsOfBook (book_of context.now.net.now) clerk.old }
    ensures plays { Plays (setting_of R.table context.now.net.now) command.now clerk.old clerk.new result }
    ensures note { IsOfBook (book_of context.now.net.now) clerk.new }
    ensures base { OnOk result (IsBased (setting_of R.table context.now.net.now) command.now clerk.old clerk.new) }
    ensures kept { OnErr result (clerk.new.base ≡ clerk.old.base) }
    ensures grows { IsPrefix (noted clerk.old.note) (noted clerk.new.note) }
{
    match command {
        Command::Tell(event) => tell(rt, context, clerk, event),
        Command::Drive(turns) => drive(rt, context.alloc, context.net, clerk, *turns),
        Command::Scramble(turns) => scramble(rt, context.net, clerk, *turns),
        Command::Checkpoint => checkpoint(rt, context.net, clerk),
    }
}
