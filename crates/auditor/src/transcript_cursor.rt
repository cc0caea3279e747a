//! Going through a transcript part by part.

ghost use Rattle.std.specs.Prelude.{◌≡◌, ◌≢◌, ◌≤◌, ◌+◌, ◌*◌, ◌++◌, ℕ, List, [], false, length, None, Some, IfErr, IfOk, MatchOption, OnOk};
ghost use Rattle.line_text.specs.BaseText.{base_head};
ghost use Rattle.byte_streams.specs.Lines.{first_line};
ghost use Rattle.entry_grammar.specs.Spelling.{SpellsHeader};
ghost use Rattle.auditor.specs.Damage.{BeginsBase, SpellsNoHead};
ghost use Rattle.auditor.specs.EntryWindows.{IsMetBehind, IsMetFirst};
ghost use Rattle.auditor.specs.TranscriptCursors.{IsCursorAfter, HasCutStart, IsCursorAt, IsCompared, IsMetAt, IsPassed, IsReachable, IsUnended, StaysInPlace, AwaitsBase};

use crate::AuditFault;
use crate::check::Audit;
use crate::lines::{MAX_LINE, common_len, line_feeds, lines_before};
use byte_streams::split_line;
use entry_grammar::{BaseFault, BaseLine, Header, read_base, read_base_line, read_header};
use line_text::{after, put_base};
use log_entry::MAX_ENTRIES;
use reply_checker::Judge;
use rule_machine::{EpochStart, RuleSet, Want};
use std::alloc::Global;

/// The rules and size of a transcript, the start of its first epoch, and its audit after `lines` lines.
///
/// While a base is compared, `wanted` is the text it must have; its first `same` bytes have come and are
/// equal.
#[derive(Drop)]
pub(crate) struct TranscriptCursor {
    pub(crate) rules: RuleSet,
    pub(crate) size: u32,
    pub(crate) begun: EpochStart,
    pub(crate) audit: Audit,
    pub(crate) lines: u64,
    pub(crate) wanted: Vec<u8>,
    pub(crate) same: usize,
}

fn read_head(line: &[u8]) -> Option<(RuleSet, u32)>
    ensures { MatchOption result (SpellsNoHead line.now) (λ head. (head.1 ≤ 65535) × (line.now ≡ base_head head.0 head.1)) }
{
    let Ok(found) = read_base_line(line) else {
        return None;
    };
    match found {
        BaseLine::Head(rules, size) => Some((rules, size)),
        _ => None,
    }
}

fn cut_start(text: &[u8]) -> AuditFault
    requires { HasCutStart text.now }
    ensures { IsMetFirst text.now result }
{
    let line = line_feeds(text) + 1;
    if line == 1 {
        AuditFault::BadHeader
    } else {
        AuditFault::BadBase { line }
    }
}

// Whether the bytes can be a base's beginning of fewer than `number` whole lines, and a line that has not ended.
//
// A whole line of a base has fewer than 128 bytes; so if not, the last line is longer than any line.
fn is_short(rest: &[u8], number: u64) -> bool
    requires { number ≤ length rest.now + 1 }
    ensures { result ≡ false → 128 * number + 128 ≤ length rest.now }
{
    rest.len() as u64 / 128 <= number + 16_384
}

impl Audit {
    pub(crate) fn into_judge(self) -> Judge
        ensures { result ≡ self.state }
    {
        self.judge
    }
}

impl TranscriptCursor {
    fn at_header(
        alloc: Global,
        text: &[u8],
        rest: &[u8],
        header: Header,
    ) -> Result<TranscriptCursor, AuditFault>
        requires few { header.names ≤ 65535 }
        requires within { header.present ≤ header.names }
        requires line { (line : List ℕ) × (first_line text.now ≡ Some (line, rest.now)) × SpellsHeader line header }
        ensures begins { IfOk result (λ replay. IsCursorAfter text.now replay rest.now) }
        ensures fault { IfErr result (λ fault. (more : List ℕ) → IsMetFirst (text.now ++ more) fault) }
    {
        let judge = Judge::with_present(alloc, header.names, header.present)?;
        Ok(TranscriptCursor {
            rules: header.rules,
            size: header.names,
            begun: EpochStart::At(0),
            audit: Audit::new(judge, 0, 0),
            lines: lines_before(text, rest),
            wanted: Vec::new(alloc),
            same: 0,
        })
    }

    /// `None` if the base is cut off.
    fn at_base<'a>(
        alloc: Global,
        text: &[u8],
        rest: &'a [u8],
        rules: RuleSet,
        size: u32,
    ) -> Result<Option<(TranscriptCursor, &'a [u8])>, AuditFault>
        requires few { size ≤ 65535 }
        requires first { first_line text.now ≡ Some (base_head rules size, rest.now) }
        ensures begins { IfOk result (λ found. MatchOption found (HasCutStart text.now) (λ begun. IsCursorAfter text.now begun.0 begun.1.now)) }
        ensures fault { IfErr result (λ fault. (more : List ℕ) → IsMetFirst (text.now ++ more) fault) }
    {
        let (base, behind) = match read_base(alloc, rest) {
            Ok(found) => found,
            Err(BaseFault::BadLine(number)) => {
                if line_feeds(rest) < number && is_short(rest, number) {
                    return Ok(None);
                }
                return Err(AuditFault::BadBase { line: number + 1 });
            }
            Err(BaseFault::Memory) => return Err(AuditFault::Memory),
        };
        if base.number > MAX_ENTRIES {
            return Err(AuditFault::BadBase { line: 2 });
        }
        let Some(judge) = Judge::at_base(alloc, rules, size, &base)? else {
            return Err(AuditFault::BadBase { line: 2 });
        };
        let replay = TranscriptCursor {
            rules,
            size,
            begun: EpochStart::Forgotten,
            audit: Audit::new(judge, base.spent, base.number),
            lines: lines_before(text, behind),
            wanted: Vec::new(alloc),
            same: 0,
        };
        Ok(Some((replay, behind)))
    }

    /// Reads the opening; `None` if the text ends inside it.
    ///
    /// An error is final, whatever would follow the text.
    pub(crate) fn open(
        alloc: Global,
        text: &[u8],
    ) -> Result<Option<(TranscriptCursor, &[u8])>, AuditFault>
        ensures begins { IfOk result (λ found. MatchOption found (HasCutStart text.now) (λ begun. IsCursorAfter text.now begun.0 begun.1.now)) }
        ensures fault { IfErr result (λ fault. (more : List ℕ) → IsMetFirst (text.now ++ more) fault) }
    {
        let Some((line, rest)) = split_line(text) else {
            if text.len() > MAX_LINE {
                return Err(AuditFault::BadHeader);
            }
            return Ok(None);
        };
        if let Ok(header) = read_header(line) {
            let replay = TranscriptCursor::at_header(alloc, text, rest, header)?;
            return Ok(Some((replay, rest)));
        }
        match read_head(line) {
            Some((rules, size)) => TranscriptCursor::at_base(alloc, text, rest, rules, size),
            None => Err(AuditFault::BadHeader),
        }
    }

    pub(crate) fn open_whole(
        alloc: Global,
        text: &[u8],
    ) -> Result<(TranscriptCursor, &[u8]), AuditFault>
        ensures begins { IfOk result (λ begun. IsCursorAfter text.now begun.0 begun.1.now) }
        ensures fault { IfErr result (IsMetFirst text.now) }
    {
        match TranscriptCursor::open(alloc, text) {
            Ok(Some(begun)) => Ok(begun),
            Ok(None) => Err(cut_start(text)),
            Err(fault) => Err(fault),
        }
    }

    // `None` if the entry's line has no LF yet. A line that is too long is refused before its LF comes.
    fn pass_entry<'a>(
        &mut self,
        alloc: Global,
        rest: &'a [u8],
    ) -> Result<Option<&'a [u8]>, AuditFault>
        requires at { IsReachable self.old rest.now }
        requires other { BeginsBase rest.now → ⊥ }
        requires compared { IsCompared self.old rest.now }
        ensures ahead { IfOk result (λ found. MatchOption found (StaysInPlace self.old self.new rest.now) (λ behind. IsPassed self.old self.new rest.now behind.now)) }
        ensures fault { IfErr result (IsMetAt self.old rest.now) }
    {
        let Some((line, behind)) = split_line(rest) else {
            if rest.len() > MAX_LINE {
                let line = self.lines + 1;
                return Err(AuditFault::NotALine { line });
            }
            return Ok(None);
        };
        self.lines += 1;
        match self.audit.check_line(alloc, self.rules, line, self.lines) {
            Ok(()) => Ok(Some(behind)),
            Err(fault) => Err(fault),
        }
    }

    // Writes into `wanted` the text of the base of the state reached, unless `wanted` has it already.
    fn want_base(&mut self, alloc: Global) -> Result<(), Want>
        requires at { (rest : List ℕ) × IsReachable self.old rest }
        requires compared { (rest : List ℕ) × IsCompared self.old rest }
        ensures { OnOk result (AwaitsBase self.old self.new) }
    {
        if !self.wanted.is_empty() {
            return Ok(());
        }
        let base = self.audit.base(alloc)?;
        put_base(&mut self.wanted, self.rules, self.size, &base)?;
        Ok(())
    }

    // `None` if the rest is only a beginning of the base of the state reached.
    fn pass_base<'a>(
        &mut self,
        alloc: Global,
        rest: &'a [u8],
    ) -> Result<Option<&'a [u8]>, AuditFault>
        requires at { IsReachable self.old rest.now }
        requires begins { BeginsBase rest.now }
        requires compared { IsCompared self.old rest.now }
        ensures ahead { IfOk result (λ found. MatchOption found (StaysInPlace self.old self.new rest.now) (λ behind. IsPassed self.old self.new rest.now behind.now)) }
        ensures fault { IfErr result (IsMetAt self.old rest.now) }
    {
        self.want_base(alloc)?;
        let same = common_len(&self.wanted, rest, self.same);
        if same == self.wanted.len() {
            self.lines += line_feeds(&self.wanted);
            self.wanted.clear();
            self.same = 0;
            return Ok(Some(&rest[same..]));
        }
        if same == rest.len() {
            self.same = same;
            return Ok(None);
        }
        let line = self.lines + line_feeds(&rest[..same]) + 1;
        Err(AuditFault::BadBase { line })
    }

    /// Judges the next entry or base, and returns the rest after it; `None` if that part is not complete.
    ///
    /// An error is final, whatever would follow the rest.
    pub(crate) fn advance<'a>(
        &mut self,
        alloc: Global,
        rest: &'a [u8],
    ) -> Result<Option<&'a [u8]>, AuditFault>
        requires at { IsReachable self.old rest.now }
        requires compared { IsCompared self.old rest.now }
        ensures ahead { IfOk result (λ found. MatchOption found (StaysInPlace self.old self.new rest.now) (λ behind. IsPassed self.old self.new rest.now behind.now)) }
        ensures fault { IfErr result (IsMetAt self.old rest.now) }
    {
        if after(rest, b"matching2").is_some() {
            return self.pass_base(alloc, rest);
        }
        self.pass_entry(alloc, rest)
    }

    // The damage of a text that ends inside a part, whose beginning is `rest`.
    fn cut_off(&self, rest: &[u8]) -> AuditFault
        requires at { IsReachable self.now rest.now }
        requires some { rest.now ≢ [] }
        requires unended { IsUnended self.now rest.now }
        ensures { (bytes : List ℕ) → IsCursorAt bytes self.now rest.now → IsMetBehind bytes self.now.audit.number result }
    {
        let line = self.lines + line_feeds(rest) + 1;
        if after(rest, b"matching2").is_some() {
            AuditFault::BadBase { line }
        } else {
            AuditFault::NotALine { line }
        }
    }

    /// Judges the next part of a text that is complete, and returns the rest after it.
    pub(crate) fn advance_whole<'a>(
        &mut self,
        alloc: Global,
        rest: &'a [u8],
    ) -> Result<&'a [u8], AuditFault>
        requires at { IsReachable self.old rest.now }
        requires some { rest.now ≢ [] }
        requires compared { IsCompared self.old rest.now }
        ensures passed { IfOk result (λ behind. IsPassed self.old self.new rest.now behind.now) }
        ensures fault { IfErr result (λ fault. (bytes : List ℕ) → IsCursorAt bytes self.old rest.now → IsMetBehind bytes self.old.audit.number fault) }
    {
        match self.advance(alloc, rest) {
            Ok(Some(behind)) => Ok(behind),
            Ok(None) => Err(self.cut_off(rest)),
            Err(fault) => Err(fault),
        }
    }
}
