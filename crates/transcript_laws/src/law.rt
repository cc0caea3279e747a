//! Laws of the texts that runs and sessions write: each function does nothing, and its contract is the law.

ghost use Rattle.std.specs.Prelude.{◌≡◌, ◌≤◌, ◌+◌, ℕ, List, [], ◌++◌, length, Result};
ghost use Rattle.std.specs.List.{AllByRecursion};
ghost use Rattle.rule_machine.specs.Base.{base_of};
ghost use Rattle.rule_machine.specs.declared.rule_set.RuleSet.{RuleSet};
ghost use Rattle.rule_machine.specs.Tables.{table_of, weight_of};
ghost use Rattle.step_log.specs.RetainedLogs.{RetainedLog, IsRetainedRun};
ghost use Rattle.auditor.specs.declared.transcript_end.TranscriptEnd.{TranscriptEnd};
ghost use Rattle.auditor.specs.declared.summary.Summary.{Summary};
ghost use Rattle.auditor.specs.AcceptedRuns.{IsAccepted};
ghost use Rattle.auditor.specs.Parts.{Based, Named, Opening, size_of};
ghost use Rattle.auditor.specs.Transcript.{IsEntryValue};
ghost use Rattle.auditor.specs.TranscriptEnds.{IsTranscriptEnd, end_moment};
ghost use Rattle.run_session.specs.Line.{CommandEnds, LineEnds};
ghost use Rattle.run_session.specs.RunStart.{first_progress};
ghost use Rattle.run_session.specs.declared.line_error.LineError.{LineError};
ghost use Rattle.script_text.specs.Command.{IsCommand};
ghost use Rattle.script_text.specs.Script.{Progress};
ghost use Rattle.script_text.specs.declared.command.Command.{Command};
ghost use Rattle.step_log.specs.declared.fault.RecordFault.{RecordFault};
ghost use Rattle.transcript_laws.specs.Written.{IsWrittenBehind, entries_before, LinesReachEnd, log_text, start_behind, without_text};

/// What lines append to a transcript is a transcript again.
///
/// `first` is what was written before the text of the progress, if anything was.
pub fn runs_stay_transcripts()
    ensures { (first : List ℕ) (opening : Opening) (rules : RuleSet) (limit : ℕ) (lines : List (List ℕ)) (start end : Progress)
        → limit ≤ 16777216 → start.rules ≡ rules → IsWrittenBehind first opening start → LinesReachEnd (table_of rules) limit lines start end → IsWrittenBehind first opening end }
{}

/// Each call of a session keeps what it has written a transcript: a header or a base, and all since.
///
/// `first` is what was taken of the session's text. `line` is for what `Run::carry_out` ensures, and
/// `command` for a command that is carried out alone: each also if the log is full, or memory runs out.
/// Whenever it is read, `first` with the text that was not taken is accepted. The auditor counts the entries of
/// the session, but for those that a base at the beginning has dropped.
pub fn sessions_stay_transcripts()
    ensures begins { (rules : RuleSet) (nodes present : ℕ)
        → nodes ≤ 65535 → present ≤ nodes → IsWrittenBehind [] (Named nodes present) (first_progress rules nodes present) }
    ensures resumes { (first : List ℕ) (from : TranscriptEnd) (is : IsTranscriptEnd first from)
        → IsWrittenBehind first is.opening (start_behind from) }
    ensures alone { (first : List ℕ) (from : TranscriptEnd) (is : IsTranscriptEnd first from)
        → IsWrittenBehind [] (Based (size_of is.opening) (base_of from.number (end_moment from).moment)) (start_behind from) }
    ensures line { (first : List ℕ) (opening : Opening) (limit number : ℕ) (line : List ℕ) (before after : Progress) (result : Result Unit LineError)
        → limit ≤ 16777216 → IsWrittenBehind first opening before → LineEnds (table_of before.rules) limit number line before after result → IsWrittenBehind first opening after }
    ensures command { (first : List ℕ) (opening : Opening) (limit : ℕ) (command : Command) (before after : Progress) (result : Result Unit RecordFault)
        → limit ≤ 16777216 → IsCommand command → IsWrittenBehind first opening before → CommandEnds (table_of before.rules) limit command before after result → IsWrittenBehind first opening after }
    ensures taken { (first : List ℕ) (opening : Opening) (p : Progress)
        → IsWrittenBehind first opening p → IsWrittenBehind (first ++ p.text) opening (without_text p) }
    ensures accepted { (first : List ℕ) (opening : Opening) (p : Progress)
        → IsWrittenBehind first opening p → (c : Summary) × IsAccepted (first ++ p.text) c × (c.entries + entries_before opening ≡ p.count) }
{}

/// The auditor accepts the text of a run: the header, and what the lines append to it.
///
/// The run may have stopped at a full log. The auditor counts as many entries as the run.
pub fn runs_are_accepted()
    ensures { (rules : RuleSet) (nodes present limit : ℕ) (lines : List (List ℕ)) (end : Progress)
        → nodes ≤ 65535 → present ≤ nodes → limit ≤ 16777216 → LinesReachEnd (table_of rules) limit lines (first_progress rules nodes present) end
        → (c : Summary) × IsAccepted end.text c × (c.entries ≡ end.count) }
{}

/// The auditor accepts the text of a run that continues an accepted text, alone and appended to that text.
///
/// The auditor counts as many entries of both texts together as the run has, but for those that a base at the
/// beginning of the first text has dropped.
pub fn continued_runs_are_accepted()
    ensures alone { (first : List ℕ) (from : TranscriptEnd) (limit : ℕ) (lines : List (List ℕ)) (end : Progress)
        → IsTranscriptEnd first from → limit ≤ 16777216 → LinesReachEnd (table_of from.rules) limit lines (start_behind from) end
        → (c : Summary) × IsAccepted end.text c × (c.entries + from.number ≡ end.count) }
    ensures joined { (first : List ℕ) (from : TranscriptEnd) (limit : ℕ) (lines : List (List ℕ)) (end : Progress)
        → IsTranscriptEnd first from → limit ≤ 16777216 → LinesReachEnd (table_of from.rules) limit lines (start_behind from) end
        → (c : Summary) × IsAccepted (first ++ end.text) c × (c.entries + from.number ≡ from.summary.entries + end.count) }
{}

/// The auditor accepts the text of the log that a journal keeps, as a storm writes it.
///
/// The log may be one whose older entries a checkpoint has dropped. Whichever allowed targets the machine chose,
/// the auditor counts the entries that are kept.
pub fn kept_logs_are_accepted()
    ensures { (rules : RuleSet) (kept : RetainedLog)
        → IsRetainedRun (table_of rules) (weight_of rules) kept → kept.present ≤ kept.state.network.size → AllByRecursion IsEntryValue kept.entries
        → (c : Summary) × IsAccepted (log_text rules kept) c × (c.entries ≡ length kept.entries) }
{}
