//! Laws of all scripts.

ghost use Rattle.std.specs.Prelude.{◌≡◌, ◌<◌, ◌≤◌, ℕ, List, [], length};
ghost use Rattle.rand_core.specs.Stream.{Stream};
ghost use Rattle.rule_machine.specs.HsuHuang.{hsu_huang};
ghost use Rattle.rule_machine.specs.Manne.{manne};
ghost use Rattle.rule_machine.specs.RuleTable.{RuleTable, enabled_names};
ghost use Rattle.rule_machine.specs.State.{State, IsState};
ghost use Rattle.script_text.specs.Command.{Says, SaysNothing};
ghost use Rattle.script_text.specs.DriveEnds.{driven};
ghost use Rattle.script_text.specs.declared.command.Command.{Command};
ghost use Rattle.script_text.specs.declared.command.Command.TheVariants.{Drive};
ghost use Rattle.script_text.specs.declared.command.Turns.{Turns};
ghost use Rattle.script_text.specs.Script.{Progress, LineDoes, LinesDo};

/// A line is the text of at most one command. From one start, lines lead to at most one end.
pub fn one_end()
    ensures command { (line : List ℕ) (c d : Command) → Says line c → Says line d → c ≡ d }
    ensures run { (t : RuleTable) (limit : ℕ) (lines : List (List ℕ)) (before after other : Progress)
        → LinesDo t limit lines before after → LinesDo t limit lines before other → after ≡ other }
{}

/// A line of more than 1,048,576 bytes is no command, so a run need not read the rest of the line.
pub fn long_line()
    ensures { (line : List ℕ) → 1048576 < length line → SaysNothing line }
{}

/// The network is silent once a seeded daemon's turns reach the charge at the start, for any seed.
pub fn long_draws_end_silent()
    ensures hsu_huang { (s : State) → IsState s → (turns : ℕ) → hsu_huang.charge s ≤ turns → (stream : Stream) → enabled_names hsu_huang (driven hsu_huang turns stream s) ≡ [] }
    ensures manne { (s : State) → IsState s → (turns : ℕ) → manne.charge s ≤ turns → (stream : Stream) → enabled_names manne (driven manne turns stream s) ≡ [] }
{}

/// A `drive` of at least as many turns as the charge before it leaves no node enabled.
pub fn long_drives_end_silent()
    ensures hsu_huang { (limit : ℕ) (lines : List (List ℕ)) (line : List ℕ) (turns : Turns) (start before after : Progress) → IsState start.moment.state
        → LinesDo hsu_huang limit lines start before → Says line (Drive turns) → LineDoes hsu_huang limit line before after
        → hsu_huang.charge before.moment.state ≤ turns.count → enabled_names hsu_huang after.moment.state ≡ [] }
    ensures manne { (limit : ℕ) (lines : List (List ℕ)) (line : List ℕ) (turns : Turns) (start before after : Progress) → IsState start.moment.state
        → LinesDo manne limit lines start before → Says line (Drive turns) → LineDoes manne limit line before after
        → manne.charge before.moment.state ≤ turns.count → enabled_names manne after.moment.state ≡ [] }
{}
