//! A law of seeded daemons.

ghost use Rattle.std.specs.Prelude.{◌≡◌, ◌↔◌, Bool, List, ℕ, [], None};
ghost use Rattle.rand_core.specs.Stream.{Stream};
ghost use Rattle.daemon.specs.DrawnChoices.{choice_drawn};

/// A seeded daemon draws no choice if and only if there are no names to choose from.
pub fn seeded_rests_among_nobody()
    ensures { (central : Bool) (names : List ℕ) (stream : Stream) → ((choice_drawn central names stream).0 ≡ None) ↔ (names ≡ []) }
{}
