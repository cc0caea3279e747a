//! Clerks that roam.

ghost use Rattle.std.specs.Prelude.{◌≡◌, ◌↔◌, [], take, IfErr, OnOk, IsErrOf, ◌⊎◌, IfSome, MatchOption, OnErr, ◌+◌, ◌<◌, ◌^◌, length};
ghost use Rattle.locked_net.specs.Nets.{book_of, setting_of};
ghost use Rattle.locked_net.specs.RoamResults.{AllEnd, RoamResult, AllTakeTurns, AllKeepNotes, MayMeetRoamFault, roam_call_fault, EndsOnLog, KeepsNote, TakesTurn, MeetsFault, MayEnd, RowEnds};
ghost use Rattle.locked_net.specs.declared.fault.RoamFault.TheVariants.{ZeroWorkers};
ghost use Rattle.std.specs.Result.{result_err};
ghost use mathlib.Core.List.{IsPrefix};
ghost use Rattle.locked_net.specs.Receipts.{HasNoteOf, IsOfBook, noted};
ghost use Rattle.std.specs.Thread.{IsSync, IsSend};

use crate::{CallFault, Clerk, LockedNet, RoamFault};
use rule_engine::{Reply, Rules};
use snapshots::Note;
use std::sync::Wait;
use std::thread::{Threads, join_mut};
use steal_pool::Gate;

/// The most clerks that roam at once.
pub const MAX_WORKERS: usize = 64;

/// How a clerk roams.
#[derive(Drop)]
struct RoamConfig<'a, R: Rules, G: Gate> {
    net: &'a LockedNet<R>,
    gate: &'a G,
    turns: u32,
}

/// The observer sees the log of the turn.
fn take_turn<R: Rules, W: Wait>(
    rt: &W,
    net: &LockedNet<R>,
    clerk: &mut Clerk,
    observer: &mut Clerk,
    turn: u32,
) -> Result<Option<Reply>, CallFault>
    requires { IsOfBook (book_of net.now) observer.old }
    ensures turn { OnOk result (TakesTurn (setting_of R.table net.now) (noted observer.new.note) turn clerk.old.receipts clerk.new.receipts) }
    ensures fault { IfErr result (λ fault. MeetsFault (setting_of R.table net.now) turn clerk.old fault) }
    ensures note { KeepsNote (book_of net.now) clerk.old clerk.new }
    ensures own { (clerk.new ≡ clerk.old) ⊎ HasNoteOf (book_of net.now) clerk.new }
    ensures kept { OnErr result (clerk.new ≡ clerk.old) }
    ensures observed { IsOfBook (book_of net.now) observer.new }
    ensures grows { IsPrefix (noted observer.old.note) (noted observer.new.note) }
{
    let mut held = net.hold(rt);
    observer.sees(held.note());
    let answer = held.roam(rt, clerk, turn);
    held.free();
    answer
}

/// Takes a clerk's turns up to the last turn or to the first fault.
fn take_all<R: Rules, G: Gate, W: Wait>(
    rt: &W,
    config: &RoamConfig<R, G>,
    worker: u32,
    clerk: &mut Clerk,
    observer: &mut Clerk,
) -> Result<(), CallFault>
    requires { IsOfBook (book_of config.now.net.now) observer.old }
    ensures turns { MayEnd (setting_of R.table config.now.net.now) (noted observer.new.note) config.now.turns clerk.old clerk.new (result_err result) }
    ensures note { KeepsNote (book_of config.now.net.now) clerk.old clerk.new }
    ensures own { (clerk.new ≡ clerk.old) ⊎ HasNoteOf (book_of config.now.net.now) clerk.new }
    ensures observed { IsOfBook (book_of config.now.net.now) observer.new }
{
    for turn in 0..config.turns {
        config.gate.pass(rt, worker, turn);
        take_turn(rt, config.net, clerk, observer, turn)?;
    }
    Ok(())
}

/// Takes a clerk's turns in order, up to the last turn or to the first fault.
fn take_turns<R: Rules, G: Gate, W: Wait>(
    rt: &W,
    config: &RoamConfig<R, G>,
    worker: u32,
    clerk: &mut Clerk,
) -> Result<(), CallFault>
    ensures turns { EndsOnLog (setting_of R.table config.now.net.now) config.now.turns clerk.old clerk.new (result_err result) }
    ensures note { KeepsNote (book_of config.now.net.now) clerk.old clerk.new }
{
    let no_note = clerk.note().is_none();
    let before = clerk.receipts().len();
    let mut observer = Clerk::new(config.net.alloc());
    let answer = take_all(rt, config, worker, clerk, &mut observer);
    if no_note || clerk.receipts().len() > before {
        show(clerk, observer.noted());
    }
    answer
}

/// Makes the clerk's note show also what `other` shows, if there is such a note.
fn show(clerk: &mut Clerk, other: Option<Note>)
    requires { IfSome other (λ note. IsOfBook note.book clerk.old) }
    ensures other { IsPrefix (noted other) (noted clerk.new.note) }
    ensures note { MatchOption other (clerk.new ≡ clerk.old) (λ note. HasNoteOf note.book clerk.new) }
    ensures receipts { clerk.new.receipts ≡ clerk.old.receipts }
    ensures base { clerk.new.base ≡ clerk.old.base }
{
    if let Some(other) = other {
        clerk.sees(other);
    }
}

fn roam_first<R: Rules, G: Gate, W: Wait>(
    rt: &W,
    config: &RoamConfig<R, G>,
    worker: u32,
    clerks: &mut [Clerk],
) -> Option<CallFault>
    requires { length clerks.old < 2 }
    ensures ends { AllEnd (setting_of R.table config.now.net.now) config.now.turns clerks.old clerks.new result }
    ensures notes { AllKeepNotes (book_of config.now.net.now) clerks.old clerks.new }
{
    if clerks.is_empty() {
        return None;
    }
    take_turns(rt, config, worker, &mut clerks[0]).err()
}

/// Lets each clerk roam, at once if threads are available. Returns the first fault in clerks' order.
#[cycle(forks)]
fn roam_all<R: Rules + Send, G: Gate + Sync, T: Threads + Wait + Sync>(
    rt: &T,
    config: &RoamConfig<R, G>,
    first: u32,
    clerks: &mut [Clerk],
) -> Option<CallFault>
    requires { first + length clerks.old < 2 ^ 32 }
    ensures ends { AllEnd (setting_of R.table config.now.net.now) config.now.turns clerks.old clerks.new result }
    ensures notes { AllKeepNotes (book_of config.now.net.now) clerks.old clerks.new }
{
    if clerks.len() < 2 {
        return roam_first(rt, config, first, clerks);
    }
    let middle = clerks.len() / 2;
    let (ours, theirs) = clerks.split_at_mut(middle);
    let (fault, other) = roam_halves(rt, config, first, ours, theirs);
    fault.or(other)
}

#[cycle(forks)]
fn roam_halves<R: Rules + Send, G: Gate + Sync, T: Threads + Wait + Sync>(
    rt: &T,
    config: &RoamConfig<R, G>,
    first: u32,
    ours: &mut [Clerk],
    theirs: &mut [Clerk],
) -> (Option<CallFault>, Option<CallFault>)
    requires { first + length ours.old + length theirs.old < 2 ^ 32 }
    ensures ours { AllEnd (setting_of R.table config.now.net.now) config.now.turns ours.old ours.new result.0 }
    ensures theirs { AllEnd (setting_of R.table config.now.net.now) config.now.turns theirs.old theirs.new result.1 }
    ensures our_notes { AllKeepNotes (book_of config.now.net.now) ours.old ours.new }
    ensures their_notes { AllKeepNotes (book_of config.now.net.now) theirs.old theirs.new }
{
    let second = first + ours.len() as u32;
    join_mut(
        rt,
        &mut || -> Option<CallFault>
            requires { IsSync T.row × IsSync G.row × IsSend R.row × (first + length ours.now < 2 ^ 32) }
            ensures ends { AllEnd (setting_of R.table config.entry.now.net.now) config.entry.now.turns ours.entry.now ours.exit.now result }
            ensures notes { AllKeepNotes (book_of config.entry.now.net.now) ours.entry.now ours.exit.now }
        { roam_all(rt, config, first, ours) },
        &mut || -> Option<CallFault>
            requires { IsSync T.row × IsSync G.row × IsSend R.row × (second + length theirs.now < 2 ^ 32) }
            ensures ends { AllEnd (setting_of R.table config.entry.now.net.now) config.entry.now.turns theirs.entry.now theirs.exit.now result }
            ensures notes { AllKeepNotes (book_of config.entry.now.net.now) theirs.entry.now theirs.exit.now }
        { roam_all(rt, config, second, theirs) },
    )
}

/// Lets the first 64 of these clerks roam. Returns the first fault in clerks' order.
fn roam_row<R: Rules + Send, G: Gate + Sync, T: Threads + Wait + Sync>(
    rt: &T,
    config: &RoamConfig<R, G>,
    clerks: &mut [Clerk],
) -> Option<CallFault>
    ensures row { RowEnds (setting_of R.table config.now.net.now) config.now.turns clerks.old clerks.new result }
    ensures notes { AllKeepNotes (book_of config.now.net.now) clerks.old clerks.new }
{
    let workers = clerks.len().min(MAX_WORKERS);
    let (ours, _) = clerks.split_at_mut(workers);
    roam_all(rt, config, 0, ours)
}

/// Lets the first 64 of these clerks roam, each by its own worker, at once if threads are available.
/// Turns and workers are numbered from 0. In each turn a worker passes the gate, with the worker's number
/// and the turn's. Then, under one hold of the network's lock, the worker records a step of one node to the
/// least target. Of the n enabled nodes, ascending, this is the one at index `turn mod n`, from 0. If no
/// node is enabled, the worker records nothing, and its only fault can be `Behind`.
///
/// A clerk's turns are taken on beginnings of one log. The clerk's note shows this log afterwards if the clerk
/// had no note or got a receipt: only then is the note known to be of this network.
///
/// A worker that meets a fault ends; the other workers go on. The result is the first fault in the clerks'
/// order. Clause `ends` has the turns of each clerk up to its own fault, if it met one. Recorded entries and
/// their receipts stay. Each clerk's note is unchanged or a note of this network; each clerk's base is
/// unchanged.
///
/// `ZeroWorkers` if there is no clerk. A turn may meet the faults of `Clerk::call`. `Thread` never comes:
/// without a thread, clerks roam one after another. Then a gate that makes one worker wait for another waits
/// forever.
///
/// Waits for the lock, for the gate, and for the threads (one fewer than clerks). A turn takes the memory of
/// a call.
pub fn roam<R: Rules + Send, G: Gate + Sync, T: Threads + Wait + Sync>(
    rt: &T,
    net: &LockedNet<R>,
    clerks: &mut [Clerk],
    turns: u32,
    gate: &G,
) -> Result<(), RoamFault>
    ensures roamed { RoamResult turns clerks.old clerks.new }
    ensures turns { OnOk result (AllTakeTurns (setting_of R.table net.now) turns (take 64 clerks.old) (take 64 clerks.new)) }
    ensures ends { AllEnd (setting_of R.table net.now) turns (take 64 clerks.old) (take 64 clerks.new) (roam_call_fault result) }
    ensures notes { AllKeepNotes (book_of net.now) clerks.old clerks.new }
    ensures none { IsErrOf result ZeroWorkers ↔ (clerks.old ≡ []) }
    ensures fault { IfErr result (λ fault. MayMeetRoamFault clerks.new fault) }
{
    if clerks.is_empty() {
        return Err(RoamFault::ZeroWorkers);
    }
    let config = RoamConfig { net, gate, turns };
    match roam_row(rt, &config, clerks) {
        Some(fault) => Err(RoamFault::from(fault)),
        None => Ok(()),
    }
}
