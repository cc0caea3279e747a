//! Which names are pending after a step.

ghost use Rattle.std.specs.Prelude.{◌≡◌, ℕ, false, not, ◌&&◌, nat_eq, IsTrue};
ghost use Rattle.std.specs.List.{list_any};
ghost use Rattle.enabled_set.specs.Members.{is_in};
ghost use Rattle.enabled_set.specs.RemovedNames.{AreNoted};

use enabled_set::{EnabledSet, NameBits, Removals};
use rule_machine::Moved;

fn remove_movers(pending: &mut NameBits, moves: &[Moved])
    ensures { (u : ℕ) → is_in pending.new u ≡ (is_in pending.old u && not (list_any (λ m. nat_eq m.node u) moves.now)) }
{
    for moved in moves {
        pending.remove(moved.node);
    }
}

/// Removes the movers, and the noted names that are not enabled. If names may be missing, removes all that are
/// not enabled.
///
/// Cost: a look or two at each mover and each noted name. If names may be missing, at each mover and at 64 names
/// at a time.
#[inline(never)]
pub fn serve_all(pending: &mut NameBits, enabled: &EnabledSet, removals: &Removals, moves: &[Moved])
    ensures stay { (u : ℕ) → IsTrue (is_in pending.old u) → IsTrue (is_in enabled.now u) → list_any (λ m. nat_eq m.node u) moves.now ≡ false → IsTrue (is_in pending.new u) }
    ensures left { (u : ℕ) → IsTrue (is_in pending.new u) → IsTrue (is_in pending.old u) × (list_any (λ m. nat_eq m.node u) moves.now ≡ false) }
    ensures off { AreNoted pending.old enabled.now removals.now → (u : ℕ) → IsTrue (is_in pending.new u) → IsTrue (is_in enabled.now u) }
{
    remove_movers(pending, moves);
    if removals.is_over() {
        pending.retain(enabled);
    } else {
        pending.retain_among(removals.names(), enabled);
    }
}
