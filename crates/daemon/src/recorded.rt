//! A daemon that plays recorded lists.

ghost use Rattle.std.specs.Prelude.{◌≡◌, ◌↔◌, ◌≤◌, [], List, map, drop, length, IfOk, IfSome, IsNone, OnErr};
ghost use Rattle.enabled_set.specs.Members.{members};
ghost use Rattle.daemon.specs.DaemonLaws.{IsLawful, plain};
ghost use Rattle.std.specs.List.{All};
ghost use Rattle.daemon.specs.RecordedLists.{AreMarksOf, named_of, list_choice, played};

use crate::Daemon;
use crate::choose::list_of;
use enabled_set::EnabledSet;
use rule_machine::{Choice, Item, MAX_NAME, Node, Want};
use std::alloc::Global;
use std::marker::Model;

fn marks_of(alloc: Global, list: &[Node]) -> Result<Vec<bool>, Want>
    ensures { IfOk result (λ marks. AreMarksOf marks.items list.now) }
{
    let mut marks = vec![in alloc; false; MAX_NAME as usize + 1]?;
    for node in list {
        marks[node.place()] = true;
    }
    Ok(marks)
}

fn items_of(alloc: Global, names: &[Node], list: &[Node]) -> Result<Vec<Item>, Want>
    ensures { IfOk result (λ items. items.items ≡ plain (named_of names.now list.now)) }
{
    let marks = marks_of(alloc, list)?;
    let mut items = Vec::with_capacity(alloc, names.len())?;
    for node in names {
        if marks[node.place()] {
            items
                .push(Item {
                    node: *node,
                    wish: None,
                })
                .unwrap();
        }
    }
    Ok(items)
}

fn choice_of(
    alloc: Global,
    names: &[Node],
    list: &[Node],
    central: bool,
) -> Result<Option<Choice>, Want>
    requires { length names.now ≤ 65535 }
    ensures { IfOk result (λ choice. choice ≡ list_choice central names.now list.now) }
{
    let mut items = items_of(alloc, names, list)?;
    if central {
        items.truncate(1);
    }
    if items.is_empty() {
        return Ok(None);
    }
    Ok(Choice::new(items))
}

/// Finds the first list at or after `from` that gives a choice; returns the next index and the choice.
/// If no list gives a choice, returns the number of lists and `None`.
fn play(
    alloc: Global,
    names: &[Node],
    lists: &[Vec<Node>],
    from: usize,
    central: bool,
) -> Result<(usize, Option<Choice>), Want>
    requires few { length names.now ≤ 65535 }
    requires inside { from ≤ length lists.now }
    ensures played { IfOk result (λ found. (found.1, drop found.0 (map (λ list. list.items) lists.now))
        ≡ played central names.now (drop from (map (λ list. list.items) lists.now))) }
    ensures inside { IfOk result (λ found. found.0 ≤ length lists.now) }
{
    for place in from..lists.len() {
        if let Some(choice) = choice_of(alloc, names, &lists[place], central)? {
            return Ok((place + 1, Some(choice)));
        }
    }
    Ok((lists.len(), None))
}

/// A daemon that plays recorded lists of nodes in order. Contracts see the lists still to be played.
///
/// A list chooses those of its nodes that are in the set, each once, ascending. If the daemon is central, the
/// list chooses only the first of these nodes. A list without a node of the set is skipped. After the last
/// list there is no choice.
#[derive(Drop)]
pub struct Recorded {
    alloc: Global,
    lists: Vec<Vec<Node>>,
    next: usize,
}

impl Model for Recorded {
    ghost use Rattle.std.specs.Prelude.{ℕ, List, ◌≤◌, map, drop, length};

    ghost Value = { List (List ℕ) };

    ghost view = { λ r. drop r.next (map (λ list. list.items) r.lists.items) };

    ghost invariant = { λ r. r.next ≤ length r.lists.items };
}

impl Recorded {
    /// A daemon that has all these lists still to play.
    pub fn new(alloc: Global, lists: Vec<Vec<Node>>) -> Recorded
        ensures { result ≡ map (λ list. list.items) lists.items }
    {
        Recorded {
            alloc,
            lists,
            next: 0,
        }
    }
}

impl Daemon for Recorded {
    ghost chooses = { λ names central old choice new. (choice, new) ≡ played central names old };

    /// The choice of the next list that gives a choice.
    /// Returns `None` if and only if no list still to be played has a member of the set; then all lists are
    /// used up.
    /// Error: out of memory; no list has been used.
    /// Takes memory for a list of the members and, for each list tried, a table of 65,536 bytes.
    /// For each list tried, writes once for each node of the list and looks once at each member.
    fn choose(&mut self, set: &EnabledSet, central: bool) -> Result<Option<Choice>, Want>
        ensures lawful { IfOk result (λ choice. IfSome choice (IsLawful set.now central)) }
        ensures played { IfOk result (λ choice. (choice, self.new) ≡ played central (members set.now) self.old) }
        ensures none { IfOk result (λ choice. IsNone choice ↔ All (λ list. named_of (members set.now) list ≡ []) self.old) }
        ensures kept { OnErr result (self.new ≡ self.old) }
    {
        let names = list_of(set)?;
        let (next, choice) = play(self.alloc, &names, &self.lists, self.next, central)?;
        self.next = next;
        Ok(choice)
    }
}
