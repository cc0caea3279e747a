//! A daemon that draws its choices from a random generator.

ghost use Rattle.std.specs.Prelude.{◌≡◌, ◌↔◌, ◌≤◌, [], ◌∷◌, length, vec_capacity, IfOk, IfSome, IsNone, OnErr};
ghost use Rattle.enabled_set.specs.Members.{members};
ghost use Rattle.daemon.specs.DaemonLaws.{IsLawful};
ghost use Rattle.daemon.specs.DrawnChoices.{draw_one, draw_odd, draw_some, choice_drawn, as_choice};

use crate::Daemon;
use crate::choose::list_of;
use enabled_set::EnabledSet;
use rand_core::Rng;
use rule_machine::{Choice, Item, Node, Want};
use std::alloc::Global;
use std::marker::Model;

fn next_member<G: Rng>(generator: &mut G, set: &EnabledSet) -> Node
    requires { 1 ≤ length (members set.now) }
    ensures { (result ∷ [], G.stream generator.new) ≡ draw_one (members set.now) (G.stream generator.old) }
{
    let count = set.count();
    let word = generator.next_u32();
    set.nth(word % count).unwrap()
}

fn choose_one<G: Rng>(generator: &mut G, set: &EnabledSet) -> Choice
    requires { 1 ≤ length (members set.now) }
    ensures { (result, G.stream generator.new) ≡ as_choice (draw_one (members set.now) (G.stream generator.old)) }
{
    let node = next_member(generator, set);
    Choice::one(Item { node, wish: None })
}

/// Each item is written first and removed if its word is even:
/// a branch would be mispredicted half the time.
fn push_odd<G: Rng>(generator: &mut G, names: &[Node], items: &mut Vec<Item>)
    requires empty { items.old.items ≡ [] }
    requires room { length names.now ≤ vec_capacity items.old }
    ensures drawn { (items.new.items, G.stream generator.new) ≡ as_choice (draw_odd names.now (G.stream generator.old)) }
    ensures kept { vec_capacity items.old ≤ vec_capacity items.new }
{
    for node in names {
        let word = generator.next_u32();
        let len = items.len();
        items
            .push(Item {
                node: *node,
                wish: None,
            })
            .unwrap();
        if word % 2 == 0 {
            items.truncate(len);
        }
    }
}

/// An item for each member whose word is odd. If no word is odd, one more word picks one member.
/// Makes room before the first word is drawn.
fn some_items<G: Rng>(
    alloc: Global,
    generator: &mut G,
    set: &EnabledSet,
    names: &[Node],
) -> Result<Vec<Item>, Want>
    requires some { 1 ≤ length (members set.now) }
    requires all { names.now ≡ members set.now }
    ensures drawn { IfOk result (λ items. (items.items, G.stream generator.new) ≡ as_choice (draw_some (members set.now) (G.stream generator.old))) }
    ensures kept { OnErr result (generator.new ≡ generator.old) }
{
    let mut items = Vec::with_capacity(alloc, names.len())?;
    push_odd(generator, names, &mut items);
    if items.is_empty() {
        let node = next_member(generator, set);
        items.push(Item { node, wish: None }).unwrap();
    }
    Ok(items)
}

fn choose_some<G: Rng>(alloc: Global, generator: &mut G, set: &EnabledSet) -> Result<Choice, Want>
    requires { 1 ≤ length (members set.now) }
    ensures drawn { IfOk result (λ choice. (choice, G.stream generator.new) ≡ as_choice (draw_some (members set.now) (G.stream generator.old))) }
    ensures kept { OnErr result (generator.new ≡ generator.old) }
{
    let names = list_of(set)?;
    let items = some_items(alloc, generator, set, &names)?;
    Ok(Choice::new(items).unwrap())
}

/// A daemon that draws its choices from a random generator. Contracts see the generator.
///
/// A central daemon draws one word w, which picks the member with index (w mod count), ascending from 0.
/// Any other daemon draws one word for each member, ascending, and chooses the members whose words are odd.
/// If no word is odd, one more word picks a member as above. From an empty set the daemon draws no word and
/// makes no choice.
#[derive(Drop)]
pub struct Seeded<G: Rng> {
    alloc: Global,
    generator: G,
}

impl<G: Rng> Model for Seeded<G> {
    ghost Value = { G };

    ghost coded = { G.code };

    ghost view = { λ s. s.generator };
}

impl<G: Rng> Seeded<G> {
    /// A daemon with this generator. Takes no memory until it chooses.
    pub fn new(alloc: Global, generator: G) -> Seeded<G>
        ensures { result ≡ generator }
    {
        Seeded { alloc, generator }
    }
}

impl<G: Rng> Daemon for Seeded<G> {
    ghost chooses = { λ names central old choice new. (choice, G.stream new) ≡ choice_drawn central names (G.stream old) };

    /// The choice that the generator's next words pick; `None` if and only if the set is empty.
    /// Error: out of memory; no word has been drawn.
    /// A central daemon takes some 40 looks and no memory. Any other daemon takes memory for a node and an
    /// item for each member: at most 65,535 of each.
    fn choose(&mut self, set: &EnabledSet, central: bool) -> Result<Option<Choice>, Want>
        ensures lawful { IfOk result (λ choice. IfSome choice (IsLawful set.now central)) }
        ensures drawn { IfOk result (λ choice. (choice, G.stream self.new) ≡ choice_drawn central (members set.now) (G.stream self.old)) }
        ensures none { IfOk result (λ choice. IsNone choice ↔ (members set.now ≡ [])) }
        ensures kept { OnErr result (self.new ≡ self.old) }
    {
        if set.count() == 0 {
            return Ok(None);
        }
        let choice = if central {
            choose_one(&mut self.generator, set)
        } else {
            choose_some(self.alloc, &mut self.generator, set)?
        };
        Ok(Some(choice))
    }
}
