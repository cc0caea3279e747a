//! The base of a journal.

ghost use Rattle.std.specs.Prelude.{◌≡◌, ◌≤◌, [], IfOk, OnOk, OnErr, MatchOption};
ghost use Rattle.line_text.specs.BaseText.{base_text};
ghost use Rattle.rule_machine.specs.Base.{dropped};
ghost use Rattle.rule_machine.specs.declared.base.Base.{Base};
ghost use Rattle.step_log.specs.JournalViews.{kept_of};
ghost use Rattle.step_log.specs.RetainedLogs.{checkpointed, last_number};

use crate::Journal;
use crate::epoch::Epochs;
use line_text::put_base;
use rule_engine::{Rules, Want};
use rule_machine::{EpochStart, RuleSet};

impl<R: Rules> Journal<R> {
    /// Makes the present state the base of the log, drops all entries, and returns the base's number.
    /// This number is that of the last entry, dropped now or earlier; 0 if there was no entry. Later entries
    /// continue the numbers. The network, `spent` and `len` do not change. An entry prepared before the
    /// checkpoint cannot be committed after it.
    /// `AllocError` if memory runs out; nothing has changed then.
    /// Takes about eight bytes for each node and four for each edge, and frees the entries. Looks at every
    /// name and at both ends of every edge.
    pub fn checkpoint(&mut self) -> Result<u32, Want>
        ensures number { IfOk result (λ number. number ≡ last_number (kept_of self.old)) }
        ensures log { OnOk result (kept_of self.new ≡ checkpointed (kept_of self.old)) }
        ensures room { OnOk result ((self.new.spare ≡ 0) × (self.new.spare_epochs ≡ 0)) }
        ensures counting { self.new.counting ≡ self.old.counting }
        ensures from { self.new.counted_from ≡ self.old.counted_from }
        ensures kept { OnErr result (self.new ≡ self.old) }
    {
        let number = self.len();
        let base = self.net.base(number)?;
        let entries = Vec::new(self.alloc);
        let epochs = Epochs::new(self.alloc, EpochStart::Forgotten);
        self.base = Some(base);
        self.entries = entries;
        self.epochs = epochs;
        Ok(number)
    }

    /// The number of the last entry that a checkpoint dropped; `None` without a checkpoint.
    /// Takes no memory.
    pub fn base(&self) -> Option<u32>
        ensures { MatchOption result (self.now.base ≡ None) (λ number. (base : Base) × (self.now.base ≡ Some base) × (base.number ≡ number)) }
    {
        self.base.as_ref().map(|base| base.number)
    }

    pub(crate) fn dropped(&self) -> u32
        ensures count { result ≡ dropped self.now.base }
        ensures few { result ≤ 16777216 }
    {
        match &self.base {
            Some(base) => base.number,
            None => 0,
        }
    }

    /// The lines of the base, each ending with an LF; empty without a base.
    /// A transcript of the entries after the base begins with these lines. At most about 18 megabytes.
    /// `AllocError` if memory runs out.
    pub fn base_text(&self, rules: RuleSet) -> Result<Vec<u8>, Want>
        ensures { IfOk result (λ text. MatchOption self.now.base (text.items ≡ []) (λ base. text.items ≡ base_text rules self.now.state.network.size base)) }
    {
        let mut text = Vec::new(self.alloc);
        if let Some(base) = &self.base {
            put_base(&mut text, rules, self.net.store().capacity(), base)?;
        }
        Ok(text)
    }
}
