//! Taking the turns of one line.

ghost use Rattle.std.specs.Prelude.{◌≡◌, IfOk, IfSome, MatchOption, None, OnErr, OnOk};
ghost use mathlib.Core.List.{IsPrefix};
ghost use Rattle.locked_net.specs.Calls.{call_fault};
ghost use Rattle.locked_net.specs.ChosenEvents.{ChoosesOn};
ghost use Rattle.locked_net.specs.ClerkCalls.{some_of, HeldCall};
ghost use Rattle.locked_net.specs.Nets.{book_of, setting_of};
ghost use Rattle.locked_net.specs.Receipts.{HasNoteOf, IsOfBook, noted, seen_by};
ghost use Rattle.script_text.specs.declared.command.Command.TheVariants.{Drive, Scramble};
ghost use Rattle.storm_runner.specs.PlayedCommands.{EndsTurn, Plays, TakesTurnsUpTo};

use locked_net::{CallFault, Clerk, HeldNet, LockedNet};
use rule_machine::{Reply, Rules};
use script_text::Turns;
use seeded_turns::{EventSource, daemon_of_seed, injector_of_seed};
use snapshots::Note;
use std::alloc::Global;
use std::sync::Wait;

/// Has the clerk record the source's next event on the held network; `None`, and no entry, if there is none.
fn record_next<R: Rules, S: EventSource, W: Wait>(
    rt: &W,
    held: &mut HeldNet<'_, R>,
    clerk: &mut Clerk,
    source: &mut S,
) -> Result<Option<Reply>, CallFault>
    ensures drawn { IfOk result (ChoosesOn R.table held.old.log (λ s event. (event, S.stream source.new) ≡ S.draws R.table s (S.stream source.old)) clerk.old.receipts clerk.new.receipts) }
    ensures call { HeldCall some_of held.old held.new clerk.old clerk.new result }
    ensures free { OnOk result (call_fault (seen_by clerk.old) held.old.log ≡ None) }
{
    held.may_call(clerk)?;
    match source.next_event(held.net())? {
        Some(event) => Ok(Some(held.call(rt, clerk, event)?)),
        None => Ok(None),
    }
}

/// Has the clerk take a turn; returns whether there was one to take.
///
/// Afterwards the clerk's note shows what was published when the turn ended.
fn take_turn<R: Rules, S: EventSource, W: Wait>(
    rt: &W,
    net: &LockedNet<R>,
    clerk: &mut Clerk,
    source: &mut S,
) -> Result<bool, CallFault>
    requires { IsOfBook (book_of net.now) clerk.old }
    ensures ends { IfOk result (EndsTurn (setting_of R.table net.now) S.draws (S.stream source.old) (S.stream source.new) clerk.old clerk.new) }
    ensures note { OnOk result (HasNoteOf (book_of net.now) clerk.new) }
    ensures grows { OnOk result (IsPrefix (noted clerk.old.note) (noted clerk.new.note)) }
    ensures base { clerk.new.base ≡ clerk.old.base }
    ensures kept { OnErr result (clerk.new ≡ clerk.old) }
{
    let before = clerk.noted();
    let mut held = net.hold(rt);
    let answer = record_next(rt, &mut held, clerk, source);
    let after = held.note();
    held.free();
    let reply = answer?;
    take_in(clerk, before, after);
    Ok(reply.is_some())
}

/// Makes the clerk's note show what was published when its turn ended, and what the note showed before.
fn take_in(clerk: &mut Clerk, before: Option<Note>, after: Note)
    requires own { IsOfBook after.book clerk.old }
    requires before { IfSome before (λ note. note.book ≡ after.book) }
    ensures after { IsPrefix after.log (noted clerk.new.note) }
    ensures before { IsPrefix (noted before) (noted clerk.new.note) }
    ensures grows { IsPrefix (noted clerk.old.note) (noted clerk.new.note) }
    ensures note { HasNoteOf after.book clerk.new }
    ensures receipts { clerk.new.receipts ≡ clerk.old.receipts }
    ensures base { clerk.new.base ≡ clerk.old.base }
{
    clerk.sees(after);
    recall(clerk, before);
}

/// Makes the clerk's note show what it showed before a call, if there was a note.
pub(crate) fn recall(clerk: &mut Clerk, before: Option<Note>)
    requires { IfSome before (λ note. IsOfBook note.book clerk.old) }
    ensures before { IsPrefix (noted before) (noted clerk.new.note) }
    ensures grows { IsPrefix (noted clerk.old.note) (noted clerk.new.note) }
    ensures note { MatchOption before (clerk.new ≡ clerk.old) (λ note. HasNoteOf note.book clerk.new) }
    ensures receipts { clerk.new.receipts ≡ clerk.old.receipts }
    ensures base { clerk.new.base ≡ clerk.old.base }
{
    if let Some(before) = before {
        clerk.sees(before);
    }
}

/// Takes up to `count` turns; stops when there is none to take.
fn take_turns<R: Rules, S: EventSource, W: Wait>(
    rt: &W,
    net: &LockedNet<R>,
    clerk: &mut Clerk,
    source: &mut S,
    count: u32,
) -> Result<(), CallFault>
    requires { IsOfBook (book_of net.now) clerk.old }
    ensures ends { TakesTurnsUpTo (setting_of R.table net.now) S.draws (S.stream source.old) count clerk.old clerk.new result }
    ensures note { IsOfBook (book_of net.now) clerk.new }
    ensures base { clerk.new.base ≡ clerk.old.base }
    ensures grows { IsPrefix (noted clerk.old.note) (noted clerk.new.note) }
{
    for _ in 0..count {
        if !take_turn(rt, net, clerk, source)? {
            return Ok(());
        }
    }
    Ok(())
}

/// Takes up to `turns.count` steps of a daemon seeded with `turns.seed`; stops when no node is enabled.
pub(crate) fn drive<R: Rules, W: Wait>(
    rt: &W,
    alloc: Global,
    net: &LockedNet<R>,
    clerk: &mut Clerk,
    turns: Turns,
) -> Result<(), CallFault>
    requires { IsOfBook (book_of net.now) clerk.old }
    ensures plays { Plays (setting_of R.table net.now) (Drive turns) clerk.old clerk.new result }
    ensures note { IsOfBook (book_of net.now) clerk.new }
    ensures base { clerk.new.base ≡ clerk.old.base }
    ensures grows { IsPrefix (noted clerk.old.note) (noted clerk.new.note) }
{
    let mut daemon = daemon_of_seed(alloc, turns.seed);
    take_turns(rt, net, clerk, &mut daemon, turns.count)
}

/// Makes up to `turns.count` register faults drawn with `turns.seed`; none if the network has no node.
pub(crate) fn scramble<R: Rules, W: Wait>(
    rt: &W,
    net: &LockedNet<R>,
    clerk: &mut Clerk,
    turns: Turns,
) -> Result<(), CallFault>
    requires { IsOfBook (book_of net.now) clerk.old }
    ensures plays { Plays (setting_of R.table net.now) (Scramble turns) clerk.old clerk.new result }
    ensures note { IsOfBook (book_of net.now) clerk.new }
    ensures base { clerk.new.base ≡ clerk.old.base }
    ensures grows { IsPrefix (noted clerk.old.note) (noted clerk.new.note) }
{
    let mut injector = injector_of_seed(turns.seed);
    take_turns(rt, net, clerk, &mut injector, turns.count)
}
