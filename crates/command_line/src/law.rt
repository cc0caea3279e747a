//! Laws of all verdicts.

ghost use Rattle.std.specs.Prelude.{◌≡◌, ℕ, List};
ghost use Rattle.command_line.specs.declared.verdict.CheckEnd.{CheckEnd};
ghost use Rattle.command_line.specs.CheckResults.{IsVerdict};

/// A text has at most one verdict.
pub fn one_verdict()
    ensures { (bytes : List ℕ) (end also : CheckEnd) → IsVerdict bytes end → IsVerdict bytes also → end ≡ also }
{}
