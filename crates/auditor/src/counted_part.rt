//! The next part of a transcript, with its rounds counted.

ghost use Rattle.std.specs.Prelude.{◌≡◌, ◌≢◌, ◌≤◌, ◌+◌, ℕ, List, [], IfErr, IfOk, cond, true, nat_eq, is_some};
ghost use Rattle.std.specs.List.{list_any};
ghost use Rattle.rule_machine.specs.Base.{LogPart};
ghost use Rattle.rule_machine.specs.Run.{Entry as Pair};
ghost use Rattle.rule_machine.specs.State.{State};
ghost use Rattle.entry_grammar.specs.Spelling.{SpellsEntry};
ghost use Rattle.judged_rounds.specs.Following.{CountsIn};
ghost use Rattle.auditor.specs.CountedParts.{FollowsAhead, IsReadyAhead, KeepsCount};
ghost use Rattle.auditor.specs.Epochs.{IsEntryAhead, IsNextCost, changes};
ghost use Rattle.auditor.specs.EntryWindows.{IsMetBehind};
ghost use Rattle.auditor.specs.TranscriptCursors.{IsCompared, IsCursorAt, IsPassed, IsReachable};

use crate::AuditFault;
use crate::check::Audit;
use crate::transcript_cursor::TranscriptCursor;
use byte_streams::split_line;
use entry_grammar::{EntryFault, read_entry};
use judged_rounds::JudgedRounds;
use log_entry::Entry;
use reply_checker::cost_of;
use rule_machine::{Reply, RuleSet, Want};
use std::alloc::{AllocError, Global};

fn has_colon(line: &[u8]) -> bool
    ensures { result ≡ list_any (λ b. nat_eq b 58) line.now }
{
    for &b in line {
        if b == b':' {
            return true;
        }
    }
    false
}

/// Whether a line may be that of an accepted disturbance, or of a step with moves.
fn may_change(line: &[u8]) -> bool
    ensures { (number : ℕ) (entry : Pair) → SpellsEntry line.now number entry → changes entry.1 ≡ true → result ≡ true }
{
    if line.ends_with(b" = ok") {
        return true;
    }
    has_colon(line)
}

/// The entry of the next line, if it is that of an accepted disturbance or of a step with moves.
///
/// `None` if no entry comes next; `None` or the entry if it is another one.
fn entry_ahead(alloc: Global, rest: &[u8]) -> Result<Option<Entry>, Want>
    ensures { IfOk result (IsEntryAhead rest.now) }
{
    let Some((line, _)) = split_line(rest) else {
        return Ok(None);
    };
    if !may_change(line) {
        return Ok(None);
    }
    match read_entry(alloc, line) {
        Ok((_, entry)) => Ok(Some(entry)),
        Err(EntryFault::NotALine) => Ok(None),
        Err(EntryFault::Memory) => Err(AllocError),
    }
}

impl Audit {
    /// The cost of the next entry, if that is an accepted disturbance.
    fn cost_ahead(&self, rules: RuleSet, ahead: &Option<Entry>) -> Option<u32>
        ensures { (rest : List ℕ) → IsEntryAhead rest ahead.now → IsNextCost rules self.now.state rest result }
    {
        let Some(entry) = ahead else {
            return None;
        };
        match entry.reply() {
            Reply::Accepted => Some(cost_of(self.judge.net(), rules, entry.event())),
            _ => None,
        }
    }

    /// A count of rounds that begins in the state reached.
    pub(crate) fn begin_rounds(&self, alloc: Global, rules: RuleSet) -> Result<JudgedRounds, Want>
        ensures rules { IfOk result (λ it. it.rules ≡ rules) }
        ensures rounds { IfOk result (λ it. it.counter.rounds ≡ 0) }
        ensures counts { IfOk result (CountsIn self.now.state [] self.now.state) }
    {
        JudgedRounds::new(alloc, rules, &self.judge)
    }

    fn prepare(&self, rounds: &mut JudgedRounds, ahead: &Option<Entry>)
        ensures rules { rounds.new.rules ≡ rounds.old.rules }
        ensures rounds { rounds.new.counter.rounds ≡ rounds.old.counter.rounds }
        ensures ready { (start : State) (log : List Pair) → CountsIn start log self.now.state rounds.old → IsReadyAhead start log self.now.state ahead.now rounds.new }
    {
        if let Some(entry) = ahead {
            rounds.prepare(&self.judge, entry.event(), entry.reply());
        }
    }

    fn follow(&self, rounds: &mut JudgedRounds, ahead: &Option<Entry>)
        ensures rules { rounds.new.rules ≡ rounds.old.rules }
        ensures few { rounds.new.counter.rounds ≤ rounds.old.counter.rounds + cond (is_some ahead.now) 1 0 }
        ensures counts { FollowsAhead self.now.state ahead.now rounds.old rounds.new }
    {
        if let Some(entry) = ahead {
            rounds.follow(&self.judge, entry.reply());
        }
    }
}

impl TranscriptCursor {
    /// As `advance_whole`, and counts the part's rounds; returns also the cost if the part is an accepted
    /// disturbance.
    pub(crate) fn advance_counted<'a>(
        &mut self,
        alloc: Global,
        rest: &'a [u8],
        rounds: &mut JudgedRounds,
    ) -> Result<(&'a [u8], Option<u32>), AuditFault>
        requires at { IsReachable self.old rest.now }
        requires some { rest.now ≢ [] }
        requires compared { IsCompared self.old rest.now }
        ensures passed { IfOk result (λ found. IsPassed self.old self.new rest.now found.0.now) }
        ensures cost { IfOk result (λ found. IsNextCost self.old.rules self.old.audit.state rest.now found.1) }
        ensures rules { rounds.new.rules ≡ rounds.old.rules }
        ensures counts { IfOk result (λ found. rounds.old.rules ≡ self.old.rules → (part : LogPart) (start : State) (log : List Pair)
            → KeepsCount self.old self.new rest.now found.0.now part start log rounds.old rounds.new) }
        ensures fault { IfErr result (λ fault. (bytes : List ℕ) → IsCursorAt bytes self.old rest.now → IsMetBehind bytes self.old.audit.number fault) }
    {
        let ahead = entry_ahead(alloc, rest)?;
        let cost = self.audit.cost_ahead(self.rules, &ahead);
        self.audit.prepare(rounds, &ahead);
        match self.advance_whole(alloc, rest) {
            Ok(behind) => {
                self.audit.follow(rounds, &ahead);
                Ok((behind, cost))
            }
            Err(fault) => Err(fault),
        }
    }
}
