//! A law of all lines.

ghost use Rattle.std.specs.Prelude.{◌≡◌, ℕ, List};
ghost use Rattle.rule_machine.specs.declared.event.Event.{Event};
ghost use Rattle.line_text.specs.EventText.{Spells};

/// A line spells at most one event.
pub fn one_reading()
    ensures { (line : List ℕ) (e f : Event) → Spells line e → Spells line f → e ≡ f }
{}
