//! Guards, outcomes and refusals at the nodes of a network.

ghost use Rattle.std.specs.Prelude.{◌≡◌, ◌+◌, ◌++◌, [], ◌∷◌, None, Some, IfSome, IsTrue, MatchResult, if◌then◌else◌, is_some, length, option_to_list, slice_get, slice_set, true};
ghost use Rattle.enabled_set.specs.Members.{is_in};
ghost use Rattle.rule_machine.specs.Network.{present};
ghost use Rattle.rule_machine.specs.Refuse.{items_refusal};
ghost use Rattle.rule_machine.specs.Least.{move_in, outcome_of};
ghost use Rattle.rule_engine.specs.EngineStates.{guard_at};
ghost use Rattle.rule_engine.specs.ChoiceMoves.{HaveOutcomes, IsToldOf, moves_by, refused_by, size_refusal};
ghost use Rattle.rule_engine.specs.Marks.{Ascend, HasPlace};

use crate::collected_moves::CollectedMoves;
use enabled_set::Marks;
use rule_machine::{Act, Item, Listing, Moved, Node, Outcome, Refusal, Reply, Rules, Verdict};
use suitor_index::IndexedNet;

pub(crate) fn rule_at<R: Rules>(state: &IndexedNet<'_, R>, v: Node) -> Option<Act>
    requires { IsTrue (present state.now.state.network v) }
    ensures { result ≡ guard_at R.table state.now.state v }
{
    prove!(state.store().capacity() <= 65_535);
    R::guard(&state.at(v), v)
}

pub(crate) fn rule_enabled<R: Rules>(state: &IndexedNet<'_, R>, v: Node) -> Option<Act>
    ensures { result ≡ guard_at R.table state.now.state v }
{
    if !state.store().has(v) {
        return None;
    }
    rule_at(state, v)
}

pub(crate) fn outcome<R: Rules>(state: &IndexedNet<'_, R>, item: Item) -> Outcome
    ensures { result ≡ outcome_of R.table state.now.state item }
{
    if !state.store().has(item.node) {
        return Outcome::Absent;
    }
    let view = state.at(item.node);
    let Some(act) = R::guard(&view, item.node) else {
        return Outcome::Idle;
    };
    match R::target(&view, item.node, item.wish) {
        Ok(target) => Outcome::Moves(Moved {
            node: item.node,
            act,
            target,
        }),
        Err(_) => Outcome::Wrong,
    }
}

pub(crate) fn refused_size(central: bool, count: usize) -> Option<Refusal>
    ensures { result ≡ size_refusal central count }
{
    if count == 0 {
        return Some(Refusal::EmptyChoice);
    }
    if central && count > 1 {
        return Some(Refusal::NotCentral);
    }
    None
}

/// `twice`: whether an earlier item of the choice names the same node.
fn accepted(outcome: Outcome, twice: bool) -> Result<Moved, Refusal>
    ensures { MatchResult result (λ moved. (refused_by outcome twice ≡ None) × (move_in outcome ≡ Some moved)) (λ refusal. refused_by outcome twice ≡ Some refusal) }
{
    match outcome {
        Outcome::Absent => Err(Refusal::UnknownNode),
        _ if twice => Err(Refusal::ChosenTwice),
        Outcome::Idle => Err(Refusal::NotEnabled),
        Outcome::Wrong => Err(Refusal::BadTarget),
        Outcome::Moves(moved) => Ok(moved),
    }
}

/// The nodes of the earlier items are marked already.
/// The move is added only if memory has lasted so far.
fn take_outcome(
    chosen: &mut Marks,
    gathered: &mut CollectedMoves,
    node: Node,
    outcome: Outcome,
) -> Option<Refusal>
    requires { HasPlace (length chosen.old) node outcome }
    ensures refusal { result ≡ refused_by outcome (is_in chosen.old node) }
    ensures marks { chosen.new ≡ (if is_some result then chosen.old else slice_set chosen.old node true) }
    ensures whole { result ≡ None → IsTrue gathered.new.whole → IsTrue gathered.old.whole }
    ensures moves { result ≡ None → IsTrue gathered.new.whole → gathered.new.moves.items ≡ gathered.old.moves.items ++ option_to_list (move_in outcome) }
{
    match accepted(outcome, chosen.contains(node)) {
        Ok(moved) => {
            chosen.mark(node);
            gathered.add(moved);
            None
        }
        Err(refusal) => Some(refusal),
    }
}

fn ascend(items: &[Item]) -> bool
    ensures { IsTrue result → Ascend items.now }
{
    let mut last = 0;
    for item in items {
        let place = item.node.place();
        if place <= last {
            return false;
        }
        last = place;
    }
    true
}

/// As with most daemons, the items ascend: no node is named twice, so no node needs a mark.
fn take_ascending<R: Rules>(
    state: &IndexedNet<'_, R>,
    gathered: &mut CollectedMoves,
    items: &[Item],
) -> Option<Refusal>
    requires ascend { Ascend items.now }
    requires none { gathered.old.moves.items ≡ [] }
    ensures refusal { result ≡ items_refusal R.table state.now.state [] items.now }
    ensures moves { result ≡ None → IsTrue gathered.new.whole → gathered.new.moves.items ≡ moves_by R.table state.now.state items.now }
{
    for item in items {
        match accepted(outcome(state, *item), false) {
            Ok(moved) => gathered.add(moved),
            Err(refusal) => return Some(refusal),
        }
    }
    None
}

/// The outcome of the item at `place`, by its verdict if there is one.
#[inline(always)]
fn outcome_at<R: Rules>(
    state: &IndexedNet<'_, R>,
    item: Item,
    judged: &[Verdict],
    place: usize,
) -> Outcome
    requires { IfSome (slice_get judged.now place) (λ verdict. verdict.outcome ≡ outcome_of R.table state.now.state item) }
    ensures { result ≡ outcome_of R.table state.now.state item }
{
    match judged.get(place) {
        Some(verdict) => verdict.outcome,
        None => outcome(state, item),
    }
}

/// Gathers the moves of items, or returns the first refusal.
/// Looks at the items, or at their verdicts if there are any, up to the first refused one. If an item's target
/// is free and the item has no verdict, searches the neighbours of the item's node.
/// Clears the marks and marks the items' nodes, to find a node named twice, unless items without verdicts
/// ascend.
pub(crate) fn take_items<R: Rules>(
    state: &IndexedNet<'_, R>,
    chosen: &mut Marks,
    gathered: &mut CollectedMoves,
    items: &[Item],
    judged: &[Verdict],
) -> Option<Refusal>
    requires places { length chosen.old ≡ state.now.state.network.size + 1 }
    requires none { gathered.old.moves.items ≡ [] }
    requires judged { HaveOutcomes R.table state.now.state items.now judged.now }
    ensures refusal { result ≡ items_refusal R.table state.now.state [] items.now }
    ensures moves { result ≡ None → IsTrue gathered.new.whole → gathered.new.moves.items ≡ moves_by R.table state.now.state items.now }
    ensures len { length chosen.new ≡ length chosen.old }
{
    if judged.is_empty() && ascend(items) {
        return take_ascending(state, gathered, items);
    }
    chosen.clear();
    for place in 0..items.len() {
        let item = &items[place];
        let outcome = outcome_at(state, *item, judged, place);
        if let Some(refusal) = take_outcome(chosen, gathered, item.node, outcome) {
            return Some(refusal);
        }
    }
    None
}

/// Needs no mark and no memory.
pub(crate) fn put_reply_to_one<R: Rules>(reply: &mut Reply, state: &IndexedNet<'_, R>, item: Item)
    ensures { IsToldOf (items_refusal R.table state.now.state [] (item ∷ [])) (moves_by R.table state.now.state (item ∷ [])) reply.new }
{
    match accepted(outcome(state, item), false) {
        Ok(moved) => *reply = Reply::Moves(Listing::one(moved)),
        Err(refusal) => *reply = Reply::Refused(refusal),
    }
}
