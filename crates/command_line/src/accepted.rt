//! Laws of the texts that runs and storms write: each function does nothing, and its contract is the law.

ghost use Rattle.std.specs.Prelude.{◌≡◌, ◌≤◌, ℕ, List, Option, Result};
ghost use Rattle.rule_machine.specs.declared.rule_set.RuleSet.{RuleSet};
ghost use Rattle.rule_machine.specs.Tables.{table_of};
ghost use Rattle.auditor.specs.declared.transcript_end.TranscriptEnd.{TranscriptEnd};
ghost use Rattle.auditor.specs.TranscriptEnds.{IsTranscriptEnd};
ghost use Rattle.run_session.specs.RunStart.{first_progress};
ghost use Rattle.script_run.specs.declared.fault.RunFault.{RunFault};
ghost use Rattle.script_run.specs.Outcome.{EndsFrom, IsRunOutcome};
ghost use Rattle.script_run.specs.Restarts.{RestartView, options_at};
ghost use Rattle.script_run.specs.RunOptions.{OptionsView};
ghost use Rattle.storm_runner.specs.declared.fault.StormFault.{StormFault};
ghost use Rattle.storm_runner.specs.Outcome.{IsResumedStorm, IsStormOutcome, opening_start, resumed_start};
ghost use Rattle.transcript_laws.specs.Written.{start_behind};
ghost use Rattle.command_line.specs.RunTexts.{EndsAcceptedFrom, IsAcceptedBehind, IsAcceptedRun};
ghost use Rattle.command_line.specs.StormTexts.{IsAcceptedLog, IsAcceptedLogBehind, WritesAccepted};

/// However the run of a script ends, what it has written is an accepted text, or a beginning of one.
///
/// A beginning only if the writer failed or memory ran out. The auditor counts the entries of the run. The first
/// clause is for what `script_run::run` ensures, the second for `resume`: a resumed run's text is accepted
/// alone, and appended to the text that it continues.
pub fn outcomes_are_accepted()
    ensures run { (rules : RuleSet) (nodes present limit : ℕ) (script : List ℕ) (old new : Option (List ℕ)) (result : Result Unit RunFault)
        → nodes ≤ 65535 → present ≤ nodes → limit ≤ 16777216 → IsRunOutcome rules nodes present limit script old new result
        → EndsAcceptedFrom (table_of rules) limit (first_progress rules nodes present) IsAcceptedRun script old new result }
    ensures resumed { (first : List ℕ) (from : TranscriptEnd) (limit : ℕ) (script : List ℕ) (old new : Option (List ℕ)) (result : Result Unit RunFault)
        → IsTranscriptEnd first from → limit ≤ 16777216 → EndsFrom (table_of from.rules) limit (start_behind from) script old new result
        → EndsAcceptedFrom (table_of from.rules) limit (start_behind from) (IsAcceptedBehind first from) script old new result }
{}

/// However a storm ends, what it has written is an accepted text, or a beginning of one, or nothing.
///
/// A beginning only if the writer failed. The auditor counts the entries of the kept log. The first clause is for
/// what `storm_runner::storm` ensures, the others for `resume_storm`. By the last one also `cat FIRST STORM` is
/// accepted, if the log begins with the base of the end of FIRST, that is, if no checkpoint has dropped entries.
pub fn storms_are_accepted()
    ensures storm { (options : OptionsView) (texts : List (Option (List ℕ))) (old new : Option (List ℕ)) (result : Result Unit StormFault)
        → options.present ≤ options.nodes → IsStormOutcome options texts old new result
        → WritesAccepted (IsAcceptedLog options) (opening_start options) texts old new result }
    ensures resumed { (from : RestartView) (texts : List (Option (List ℕ))) (old new : Option (List ℕ)) (result : Result Unit StormFault)
        → IsResumedStorm from texts old new result → WritesAccepted (IsAcceptedLog (options_at from)) (resumed_start from) texts old new result }
    ensures joined { (first : List ℕ) (end : TranscriptEnd) (from : RestartView) (texts : List (Option (List ℕ))) (old new : Option (List ℕ)) (result : Result Unit StormFault)
        → IsTranscriptEnd first end → from.rules ≡ end.rules → from.state ≡ end.net.state → IsResumedStorm from texts old new result
        → WritesAccepted (IsAcceptedLogBehind first end (options_at from)) (resumed_start from) texts old new result }
{}
