//! Whether a step is refused, and whether moves are the moves of a step.

ghost use Rattle.std.specs.Prelude.{◌≡◌, ◌+◌, ◌↔◌, ◌&&◌, [], IfSome, IsTrue, None, Some, length, map, option_map};
ghost use Rattle.std.specs.List.{list_all};
ghost use Rattle.std.specs.List.Sorted.{IsStrictlyIncreasing};
ghost use Rattle.rule_machine.specs.Refuse as refuse;
ghost use Rattle.rule_machine.specs.Step.{IsStep, after_moves, takes_target};
ghost use Rattle.rule_machine.specs.Tables.{table_of};
ghost use Rattle.machine_laws.specs.MoveTests as judged;
ghost use Rattle.reply_checker.specs.Choices.{item_at, HasChosenItems, IsItemVerdict, HasOnlyItemsOf, IsClear, IsRuled, AreRuled, refused_item, is_move_by};

use crate::ChosenItems;
use crate::choices::RuledItem;
use crate::rules::{is_allowed, is_central, rule_at};
use net_state::NetState;
use rule_machine::{Act, Item, Moved, Node, Refusal, RuleSet};

/// Why a step is refused; afterwards `chosen` contains the items before the first refused item.
pub(crate) fn step_refusal(
    net: &NetState,
    rules: RuleSet,
    items: &[Item],
    chosen: &mut ChosenItems,
) -> Option<Refusal>
    requires clear { IsClear chosen.old }
    requires len { length chosen.old ≡ net.now.state.network.size + 1 }
    ensures value { result ≡ refuse.step_refusal (table_of rules) net.now.state items.now }
    ensures held { result ≡ None → HasChosenItems (table_of rules) net.now.state chosen.new items.now }
    ensures within { HasOnlyItemsOf chosen.new items.now }
    ensures len { length chosen.new ≡ length chosen.old }
{
    if items.is_empty() {
        Some(Refusal::EmptyChoice)
    } else if is_central(rules) && items.len() > 1 {
        Some(Refusal::NotCentral)
    } else {
        items_refusal(net, rules, items, chosen)
    }
}

fn items_refusal(
    net: &NetState,
    rules: RuleSet,
    items: &[Item],
    chosen: &mut ChosenItems,
) -> Option<Refusal>
    requires clear { IsClear chosen.old }
    requires len { length chosen.old ≡ net.now.state.network.size + 1 }
    ensures value { result ≡ refuse.items_refusal (table_of rules) net.now.state [] items.now }
    ensures held { result ≡ None → HasChosenItems (table_of rules) net.now.state chosen.new items.now }
    ensures within { HasOnlyItemsOf chosen.new items.now }
    ensures len { length chosen.new ≡ length chosen.old }
{
    for item in items {
        let twice = chosen.get(item.node).is_some();
        match taken(net, rules, *item, twice) {
            Ok(act) => chosen.put(*item, act),
            Err(refusal) => return Some(refusal),
        }
    }
    None
}

/// `twice` is whether an earlier item has the same node.
fn taken(net: &NetState, rules: RuleSet, item: Item, twice: bool) -> Result<Act, Refusal>
    ensures { IsItemVerdict (table_of rules) net.now.state item (refused_item (table_of rules) net.now.state item twice) result }
{
    if !net.has(item.node) {
        return Err(Refusal::UnknownNode);
    }
    if twice {
        return Err(Refusal::ChosenTwice);
    }
    match rule_at(net, rules, item.node) {
        Some(act) if allows_wish(net, rules, act, item) => Ok(act),
        Some(_) => Err(Refusal::BadTarget),
        None => Err(Refusal::NotEnabled),
    }
}

fn allows_wish(net: &NetState, rules: RuleSet, act: Act, item: Item) -> bool
    ensures { IsTrue result ↔ IfSome item.wish (λ w. IsTrue ((table_of rules).allowed net.now.state item.node act w)) }
{
    match item.wish {
        Some(w) => is_allowed(net, rules, item.node, act, w),
        None => true,
    }
}

/// Whether `moves` are the moves of one step of `items`, which `chosen` contains.
///
/// Removes the movers' items from `chosen`.
pub(crate) fn is_step(
    net: &NetState,
    rules: RuleSet,
    items: &[Item],
    moves: &[Moved],
    chosen: &mut ChosenItems,
) -> bool
    requires accepted { refuse.step_refusal (table_of rules) net.now.state items.now ≡ None }
    requires held { HasChosenItems (table_of rules) net.now.state chosen.old items.now }
    ensures value { IsTrue result ↔ IsStep (table_of rules) net.now.state items.now moves.now (after_moves net.now.state moves.now) }
    ensures within { HasOnlyItemsOf chosen.new items.now }
    ensures len { length chosen.new ≡ length chosen.old }
{
    are_ascending(moves) && are_of_items(net, rules, items, moves, chosen)
}

/// Whether the daemon allows this many moves, an item asks for each, and each item has a move.
///
/// Removes the movers' items from `chosen`, so that an item that is left there has no move.
fn are_of_items(
    net: &NetState,
    rules: RuleSet,
    items: &[Item],
    moves: &[Moved],
    chosen: &mut ChosenItems,
) -> bool
    requires accepted { refuse.step_refusal (table_of rules) net.now.state items.now ≡ None }
    requires held { HasChosenItems (table_of rules) net.now.state chosen.old items.now }
    ensures value { result ≡ judged.are_of_items (table_of rules) net.now.state items.now moves.now }
    ensures within { HasOnlyItemsOf chosen.new items.now }
    ensures len { length chosen.new ≡ length chosen.old }
{
    if !fits_daemon(rules, moves) || !are_asked(net, rules, moves, chosen) {
        return false;
    }
    chosen.take_movers(moves);
    chosen.has_none(items)
}

fn are_asked(net: &NetState, rules: RuleSet, moves: &[Moved], chosen: &ChosenItems) -> bool
    requires { AreRuled (table_of rules) net.now.state chosen.now }
    ensures { result ≡ list_all (λ m. is_move_by (table_of rules) net.now.state (item_at chosen.now m.node) m) moves.now }
{
    for &made in moves {
        if !is_asked(net, rules, chosen.get(made.node), made) {
            return false;
        }
    }
    true
}

fn is_asked(net: &NetState, rules: RuleSet, ruled: Option<RuledItem>, made: Moved) -> bool
    requires { IfSome ruled (λ r. IsRuled (table_of rules) net.now.state r.item r.act) }
    ensures { result ≡ is_move_by (table_of rules) net.now.state (option_map (λ r. r.item) ruled) made }
{
    match ruled {
        Some(RuledItem { item, act }) => {
            made.node == item.node
                && made.act == act
                && is_target(net, rules, act, item, made.target)
        }
        None => false,
    }
}

fn is_target(net: &NetState, rules: RuleSet, act: Act, item: Item, target: Option<Node>) -> bool
    requires { IsRuled (table_of rules) net.now.state item act }
    ensures { result ≡ judged.is_target (table_of rules) net.now.state item.node act item.wish target }
{
    match target {
        Some(w) => takes_target(act) && suits(net, rules, act, item, w),
        None => !takes_target(act),
    }
}

/// Whether the item's node may point at `w`: its rule allows `w`, and `w` is the wish, if any.
fn suits(net: &NetState, rules: RuleSet, act: Act, item: Item, w: Node) -> bool
    requires { IsRuled (table_of rules) net.now.state item act }
    ensures { result ≡ ((table_of rules).allowed net.now.state item.node act w && judged.suits_wish item.wish w) }
{
    match item.wish {
        Some(x) => x == w,
        None => is_allowed(net, rules, item.node, act, w),
    }
}

fn takes_target(act: Act) -> bool
    ensures { result ≡ takes_target act }
{
    match act {
        Act::Marry | Act::Seduce => true,
        Act::Update | Act::Abandon => false,
    }
}

fn fits_daemon(rules: RuleSet, moves: &[Moved]) -> bool
    ensures { result ≡ judged.fits_daemon (table_of rules) moves.now }
{
    if is_central(rules) {
        moves.len() == 1
    } else {
        !moves.is_empty()
    }
}

fn are_ascending(moves: &[Moved]) -> bool
    ensures { IsTrue result ↔ IsStrictlyIncreasing (map (λ m. m.node) moves.now) }
{
    moves.is_sorted_by(|a, b| a.node < b.node)
}
