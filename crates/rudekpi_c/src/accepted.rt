//! Laws of the text of sessions: each function does nothing, and its contract is the law.

ghost use Rattle.std.specs.Prelude.{◌≡◌, ◌≢◌, ◌≤◌, ◌<◌, ℕ, List, [], true, length, Option, Some};
ghost use Rattle.rule_machine.specs.Base.{base_of};
ghost use Rattle.script_text.specs.declared.command.Command.{Command};
ghost use Rattle.script_text.specs.declared.command.Command.TheVariants.{Checkpoint};
ghost use Rattle.auditor.specs.declared.transcript_end.TranscriptEnd.{TranscriptEnd};
ghost use Rattle.auditor.specs.Parts.{Based, Named, Opening, size_of};
ghost use Rattle.auditor.specs.TranscriptEnds.{IsTranscriptEnd, end_moment};
ghost use Rattle.rudekpi_c.specs.CommandCalls.{AnswersCommand};
ghost use Rattle.rudekpi_c.specs.Renumbering.{AnswersRenumber};
ghost use Rattle.rudekpi_c.specs.Resumption.{ResumesSession};
ghost use Rattle.rudekpi_c.specs.RoundCalls.{AnswersCounting};
ghost use Rattle.rudekpi_c.specs.Session.{stands};
ghost use Rattle.rudekpi_c.specs.SessionQuestions.{AnswersKeep};
ghost use Rattle.rudekpi_c.specs.SessionTexts.{BeginsNextTranscript, HasRunEnd, HasTranscript, HasAcceptedText, IsSessionCall, ReadsTranscript, StaysTranscript, base_opening};
ghost use Rattle.rudekpi_c.specs.Slot.{AnswersFeed, Handed, OpensSession};
ghost use Rattle.rudekpi_c.specs.declared.call_result.CallResult.{CallResult};
ghost use Rattle.rudekpi_c.specs.declared.session.Session.{Session};
ghost use Rattle.rudekpi_c.specs.declared.verdict.Verdict.{Verdict};

/// What C reads of a session that keeps its text is a transcript, which the auditor accepts.
///
/// | Clause | Call |
/// |---|---|
/// | `opened`, `resumed` | `rudekpi_session_new`, `rudekpi_session_resume`: where the transcript begins |
/// | `line`, `command` | `rudekpi_session_feed`, and the calls that are commands, whatever the status |
/// | `counted`, `kept` | `rudekpi_count_rounds`, and `rudekpi_transcript` with true |
/// | `read`, `unread` | `rudekpi_session_read`, with room for the text, and without |
/// | `renumbered`, `unchanged` | `rudekpi_session_renumber`, with status 0, and with another |
///
/// After a resumption the text is a transcript alone, and also appended to the bytes that it continues. By
/// `accepted` the auditor accepts what was read with what is unread. It counts the session's entries, but for
/// those before a base at the beginning. All other calls leave the session as it is.
pub fn session_texts_are_accepted()
    ensures opened { (rules nodes present : ℕ) (new : Option Session)
        → OpensSession rules nodes present 0 new → HasTranscript [] [] (Named nodes present) new }
    ensures resumed { (bytes : List ℕ) (verdict : Verdict) (new : Option Session)
        → ResumesSession bytes 0 verdict new
        → (end : TranscriptEnd) × (is : IsTranscriptEnd bytes end) × HasTranscript [] bytes is.opening new × HasTranscript [] [] (Based (size_of is.opening) (base_of end.number (end_moment end).moment)) new }
    ensures line { (line : List ℕ) (was status number : ℕ) (old new : Option Session)
        → AnswersFeed line was status number old new → StaysTranscript old new }
    ensures command { (command : Command) (status : ℕ) (outcome : CallResult) (old new : Option Session)
        → AnswersCommand command status outcome old new → StaysTranscript old new }
    ensures counted { (status : ℕ) (old new : Option Session)
        → AnswersCounting status old new → StaysTranscript old new }
    ensures kept { (status : ℕ) (old new : Option Session)
        → AnswersKeep true status old new → StaysTranscript old new }
    ensures read { (was out : List ℕ) (n : ℕ) (old new : Option Session) (ended first : List ℕ) (opening : Opening)
        → Handed was out n old new → n ≤ length was → HasTranscript ended first opening old → ReadsTranscript ended first opening was out n new }
    ensures unread { (was out : List ℕ) (n : ℕ) (old new : Option Session)
        → Handed was out n old new → length was < n → StaysTranscript old new }
    ensures renumbered { (n : ℕ) (s : Session) (new : Option Session) (ended first : List ℕ) (opening : Opening)
        → AnswersRenumber 0 n (Some s) new → HasTranscript ended first opening (Some s) → BeginsNextTranscript ended first opening n s new }
    ensures unchanged { (status n : ℕ) (old new : Option Session)
        → AnswersRenumber status n old new → status ≢ 0 → StaysTranscript old new }
    ensures accepted { (s : Session) (ended first : List ℕ) (opening : Opening)
        → HasTranscript ended first opening (Some s) → HasAcceptedText ended first opening s }
{}

/// If a session's text is empty, a checkpoint begins a transcript that is accepted alone.
///
/// So it does after C has read the text, and after `rudekpi_transcript` with false and then with true. `begins`
/// and `goes_on` are for what `anew` needs: some run has come as far as the session, from the first call to the
/// last, whether or not the session keeps its text.
pub fn session_texts_begin_anew()
    ensures begins { (ended first : List ℕ) (opening : Opening) (kept : Option Session)
        → HasTranscript ended first opening kept → HasRunEnd kept }
    ensures goes_on { (old new : Option Session)
        → IsSessionCall old new → HasRunEnd old → HasRunEnd new }
    ensures anew { (outcome : CallResult) (s : Session) (new : Option Session)
        → AnswersCommand Checkpoint 0 outcome (Some s) new → HasRunEnd (Some s) → s.keeps ≡ true → (stands s).text ≡ []
        → HasTranscript [] [] (base_opening (stands s).count s) new }
{}
