//! Judges a reply, and carries out the event of a right reply.

ghost use Rattle.std.specs.Prelude.{◌≡◌, ◌↔◌, ℕ, None, false, IsTrue, IfOk, OnOk, OnErr, length};
ghost use Rattle.rule_machine.specs.Answer.{Answers};
ghost use Rattle.rule_machine.specs.Refuse.{refusal_of};
ghost use Rattle.rule_machine.specs.RuleTable.{RuleTable};
ghost use Rattle.rule_machine.specs.Tables.{table_of};
ghost use Rattle.machine_laws.specs.StatesAfterReplies.{followed, disturbed};
ghost use Rattle.reply_checker.specs.Choices.{HasChosenItems, HasOnlyItemsOf, IsClearTable};
ghost use Rattle.reply_checker.specs.ReplyVerdicts.{IsRightReply, IsWrong, IsAcceptedLink, is_link, items_of};

use crate::questions::{are_enabled, are_mutual, has_counts};
use crate::reads::pointer;
use crate::refusals::{
    flag_refusal, join_refusal, link_refusal, point_refusal, show_refusal, unlink_refusal,
};
use crate::steps::{is_step, step_refusal};
use crate::{ChosenItems, CountedNet};
use net_state::{NetState, join, leave, make_moves, set_flag, unlink};
use rule_machine::{Event, Node, Refusal, Reply, RuleSet, Want};

/// As `Judge::replay`; afterwards `chosen` may contain items of the event, if the event is a step.
pub(crate) fn judge_reply(
    counted: &mut CountedNet,
    rules: RuleSet,
    spent: u64,
    event: &Event,
    reply: &Reply,
    chosen: &mut ChosenItems,
) -> Result<bool, Want>
    requires { IsClearTable counted.old.net.state.network.size chosen.old }
    ensures right { IfOk result (λ ok. IsTrue ok → Answers (table_of rules) counted.old.net.state spent event.now reply.now counted.new.net.state) }
    ensures wrong { IfOk result (λ ok. ok ≡ false → IsWrong (table_of rules) counted.old.net.state spent event.now reply.now counted.new.net.state) }
    ensures err { OnErr result (counted.new.net.state ≡ counted.old.net.state) }
    ensures want { OnErr result (IsAcceptedLink (table_of rules) counted.old.net.state event.now reply.now) }
    ensures size { counted.new.net.state.network.size ≡ counted.old.net.state.network.size }
    ensures within { HasOnlyItemsOf chosen.new (items_of event.now) }
    ensures len { length chosen.new ≡ length chosen.old }
{
    match refusal(&counted.net, rules, event, chosen) {
        Some(refusal) => Ok(is_refusal(reply, refusal)),
        None if !may_accept(counted, rules, spent, event, reply, chosen) => Ok(false),
        None => {
            follow(counted, rules, event, reply)?;
            Ok(true)
        }
    }
}

/// Afterwards `chosen` contains the items of a step before the first refused item.
fn refusal(
    net: &NetState,
    rules: RuleSet,
    event: &Event,
    chosen: &mut ChosenItems,
) -> Option<Refusal>
    requires { IsClearTable net.now.state.network.size chosen.old }
    ensures value { result ≡ refusal_of (table_of rules) net.now.state event.now }
    ensures held { result ≡ None → HasChosenItems (table_of rules) net.now.state chosen.new (items_of event.now) }
    ensures within { HasOnlyItemsOf chosen.new (items_of event.now) }
    ensures len { length chosen.new ≡ length chosen.old }
{
    match event {
        Event::Link(a, b) => link_refusal(net, *a, *b),
        Event::Unlink(a, b) => unlink_refusal(net, *a, *b),
        Event::Point(v, target) => point_refusal(net, *v, *target),
        Event::Flag(v, _) => flag_refusal(net, rules, *v),
        Event::Join(v) => join_refusal(net, *v),
        Event::Step(choice) => step_refusal(net, rules, choice.items(), chosen),
        Event::Show(v) | Event::Leave(v) => show_refusal(net, *v),
        Event::Enabled | Event::Matching | Event::Status => None,
    }
}

fn may_accept(
    counted: &mut CountedNet,
    rules: RuleSet,
    spent: u64,
    event: &Event,
    reply: &Reply,
    chosen: &mut ChosenItems,
) -> bool
    requires accepted { refusal_of (table_of rules) counted.old.net.state event.now ≡ None }
    requires held { HasChosenItems (table_of rules) counted.old.net.state chosen.old (items_of event.now) }
    ensures value { IsTrue result ↔ IsRightReply (table_of rules) counted.old.net.state spent event.now reply.now }
    ensures kept { counted.new.net.state ≡ counted.old.net.state }
    ensures within { HasOnlyItemsOf chosen.new (items_of event.now) }
    ensures len { length chosen.new ≡ length chosen.old }
{
    match event {
        Event::Link(_, _)
        | Event::Unlink(_, _)
        | Event::Point(_, _)
        | Event::Flag(_, _)
        | Event::Join(_)
        | Event::Leave(_) => is_accepted(reply),
        Event::Step(choice) => match reply {
            Reply::Moves(moves) => {
                is_step(
                    &counted.net,
                    rules,
                    choice.items(),
                    moves.as_slice(),
                    chosen,
                )
            }
            _ => false,
        },
        Event::Show(v) => is_shown(pointer(&counted.net, *v), reply),
        Event::Enabled => are_enabled(counted, rules, reply),
        Event::Matching => are_mutual(counted, rules, reply),
        Event::Status => has_counts(counted, rules, spent, reply),
    }
}

/// Carries out an event with the moves of its right reply.
fn follow(
    counted: &mut CountedNet,
    rules: RuleSet,
    event: &Event,
    reply: &Reply,
) -> Result<(), Want>
    requires accepted { refusal_of (table_of rules) counted.old.net.state event.now ≡ None }
    requires right { (spent : ℕ) × IsRightReply (table_of rules) counted.old.net.state spent event.now reply.now }
    ensures ok { OnOk result (counted.new.net.state ≡ followed counted.old.net.state event.now reply.now) }
    ensures err { OnErr result (counted.new.net.state ≡ counted.old.net.state) }
    ensures want { OnErr result (IsTrue (is_link event.now) × (reply.now ≡ Reply.Accepted)) }
{
    match reply {
        Reply::Accepted => disturb(counted, event)?,
        Reply::Moves(moves) => {
            make_moves(&mut counted.net, &mut counted.shares, moves.as_slice());
        }
        _ => {}
    }
    Ok(())
}

fn disturb(counted: &mut CountedNet, event: &Event) -> Result<(), Want>
    requires accepted { (t : RuleTable) × (refusal_of t counted.old.net.state event.now ≡ None) }
    ensures ok { OnOk result (counted.new.net.state ≡ disturbed counted.old.net.state event.now) }
    ensures err { OnErr result (counted.new.net.state ≡ counted.old.net.state) }
    ensures want { OnErr result (IsTrue (is_link event.now)) }
{
    match event {
        Event::Link(a, b) => counted.link(*a, *b)?,
        Event::Unlink(a, b) => unlink(&mut counted.net, &mut counted.shares, *a, *b),
        Event::Point(v, target) => counted.point(*v, *target),
        Event::Flag(v, value) => set_flag(&mut counted.net, &mut counted.shares, *v, *value),
        Event::Join(v) => join(&mut counted.net, &mut counted.shares, *v),
        Event::Leave(v) => leave(&mut counted.net, &mut counted.shares, *v),
        Event::Step(_) | Event::Show(_) | Event::Enabled | Event::Matching | Event::Status => {}
    }
    Ok(())
}

fn is_accepted(reply: &Reply) -> bool
    ensures { IsTrue result ↔ (reply.now ≡ Reply.Accepted) }
{
    matches!(reply, Reply::Accepted)
}

fn is_refusal(reply: &Reply, refusal: Refusal) -> bool
    ensures { IsTrue result ↔ (reply.now ≡ Reply.Refused refusal) }
{
    matches!(reply, Reply::Refused(given) if *given == refusal)
}

fn is_shown(pointer: Option<Node>, reply: &Reply) -> bool
    ensures { IsTrue result ↔ (reply.now ≡ Reply.Shown pointer) }
{
    matches!(reply, Reply::Shown(target) if *target == pointer)
}
