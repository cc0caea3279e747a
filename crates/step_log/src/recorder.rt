//! A network whose entries are numbered.

ghost use Rattle.std.specs.Prelude.{◌≡◌, ◌<◌, ◌≤◌, ◌+◌, ◌++◌, ◌↔◌, IfOk, IfSome, OnOk, OnErr, IsErrOf, IsTrue};
ghost use Rattle.rule_machine.specs.declared.event.Event.TheVariants.{Step};
ghost use Rattle.rule_machine.specs.Answer.{Answers};
ghost use Rattle.rule_machine.specs.Least.{reply_of};
ghost use Rattle.rule_engine.specs.ChoiceMoves.{verdicts_of};
ghost use Rattle.rule_engine.specs.PreparedEvents.{net_moment};
ghost use Rattle.line_text.specs.EntryText.{entry_line};
ghost use Rattle.line_text.specs.EventText.{event_text};
ghost use Rattle.step_log.specs.declared.fault.RecordFault.TheVariants.{LogFull};
ghost use Rattle.step_log.specs.Recording.{max_entries, resumed_recording, counting_from, entered, entered_line};

use crate::{Answer, MAX_ENTRIES, RecordFault};
use line_text::{put_entry, put_entry_of_line};
use rule_engine::{Choice, Event, Net, Reply, Rules, Verdict, Want};
use std::marker::Model;

/// A network under the rules `R` that numbers its entries up to a limit, hands them out and keeps none.
#[derive(Drop)]
pub struct Recorder<R: Rules> {
    pub(crate) net: Net<R>,
    pub(crate) len: u32,
    pub(crate) limit: u32,
    pub(crate) present: u32,
}

impl<R: Rules> Model for Recorder<R> {
    ghost use Rattle.std.specs.Coded.{codes};
    ghost use Rattle.rule_machine.specs.State.{state_code};
    ghost use Rattle.step_log.specs.Recording.{Recording, IsRecording};

    ghost Value = { Recording };

    ghost coded = { Prim.hlevel (codes, state_code) };

    ghost view = { λ r. record { state = r.net.state; spent = r.net.spent; len = r.len; limit = r.limit; present = r.present; counting = r.net.counting } };

    ghost invariant = { λ r. IsRecording (record { state = r.net.state; spent = r.net.spent; len = r.len; limit = r.limit; present = r.present; counting = r.net.counting }) };
}

impl<R: Rules> Recorder<R> {
    /// A recorder that goes on with a network after `number` entries. It counts rounds if the network does.
    ///
    /// The limit counts all entries. A limit above 16,777,216 counts as 16,777,216, and a limit below
    /// `number` as `number`.
    pub fn of_net(net: Net<R>, number: u32, limit: u32) -> Recorder<R>
        requires few { number ≤ max_entries }
        ensures { result ≡ resumed_recording (net_moment net) net.counting number limit }
    {
        let present = net.store().nodes();
        // Gives the prover `IsState`.
        let _ = net.registers();
        Recorder {
            net,
            len: number,
            limit: number.max(limit.min(MAX_ENTRIES)),
            present,
        }
    }

    /// How many entries have been recorded.
    pub fn len(&self) -> u32
        ensures count { result ≡ self.now.len }
        ensures room { result ≤ self.now.limit }
    {
        self.len
    }

    /// Whether the limit of entries is reached.
    pub fn is_full(&self) -> bool
        ensures full { IsTrue result ↔ (self.now.len ≡ self.now.limit) }
        ensures room { self.now.len ≤ self.now.limit }
    {
        self.len >= self.limit
    }

    /// The network after all entries, for looks at it: `Net::spent`, `cost_of`, `silent_cost_of`, `is_at_rest`,
    /// `reach_of`, `rounds`.
    pub fn net(&self) -> &Net<R>
        ensures state { result.now.state ≡ self.now.state }
        ensures spent { result.now.spent ≡ self.now.spent }
        ensures counting { result.now.counting ≡ self.now.counting }
    {
        &self.net
    }

    /// Counts rounds from here on, or from here anew. See `Net::count_rounds`, also for the cost.
    /// `AllocError` if memory runs out; nothing has changed then.
    pub fn count_rounds(&mut self) -> Result<(), Want>
        ensures ok { OnOk result (self.new ≡ counting_from R.table self.old) }
        ensures err { OnErr result (self.new ≡ self.old) }
    {
        self.net.count_rounds()
    }

    /// Numbers the next entry 1, so that the whole limit is left. The network and `spent` do not change.
    pub fn renumber(&mut self)
        ensures { self.new ≡ record self.old { len = 0 } }
    {
        self.len = 0;
    }

    /// Carries out an event, writes the reply into `reply`, and appends the entry's text with an LF.
    /// Afterwards `len` is the entry's number. A caller that has the event's text may pass it as `line`, and
    /// that text is copied.
    /// `LogFull` exactly if the limit is reached, before any other fault; `Memory` if memory runs out. After
    /// a fault the network, `len` and the text are unchanged, and the value of `reply` is unspecified.
    /// Takes memory only for the reply and the text.
    #[inline(always)]
    pub fn log_entry(
        &mut self,
        event: &Event,
        line: Option<&[u8]>,
        reply: &mut Reply,
        text: &mut Vec<u8>,
    ) -> Result<(), RecordFault>
        requires { IfSome line (λ line. line.now ≡ event_text event.now) }
        ensures number { OnOk result (self.new.len ≡ self.old.len + 1) }
        ensures reply { OnOk result (reply.new ≡ reply_of R.table self.old.state self.old.spent event.now) }
        ensures machine { OnOk result (Answers R.table self.old.state self.old.spent event.now reply.new self.new.state) }
        ensures below { OnOk result (self.old.len < self.old.limit) }
        ensures recording { OnOk result (self.new ≡ entered R.table self.old event.now) }
        ensures text { OnOk result (text.new.items ≡ text.old.items ++ entered_line R.table self.old event.now) }
        ensures full { IsErrOf result LogFull ↔ (self.old.len ≡ self.old.limit) }
        ensures kept { OnErr result (self.new ≡ self.old) }
        ensures kept_text { OnErr result (text.new.items ≡ text.old.items) }
    {
        if self.is_full() {
            return Err(RecordFault::LogFull);
        }
        self.net.prepare_into(event, reply)?;
        put_text(text, self.len + 1, event, line, reply)?;
        self.net.commit(event, reply);
        self.len += 1;
        Ok(())
    }

    /// Carries out a step from the verdicts of its items; returns the entry's number and the reply.
    /// Appends no text. Evaluates no guard again to find the reply.
    /// `LogFull` and `Memory` come as in `log_entry`. After a fault nothing has changed.
    pub fn log_step(&mut self, choice: &Choice, verdicts: &[Verdict]) -> Result<Answer, RecordFault>
        requires { verdicts.now ≡ verdicts_of R.table self.old.state choice.now }
        ensures number { IfOk result (λ answer. answer.seq ≡ self.old.len + 1) }
        ensures reply { IfOk result (λ answer. answer.reply ≡ reply_of R.table self.old.state self.old.spent (Step choice.now)) }
        ensures machine { IfOk result (λ answer. Answers R.table self.old.state self.old.spent (Step choice.now) answer.reply self.new.state) }
        ensures below { OnOk result (self.old.len < self.old.limit) }
        ensures recording { OnOk result (self.new ≡ entered R.table self.old (Step choice.now)) }
        ensures full { IsErrOf result LogFull ↔ (self.old.len ≡ self.old.limit) }
        ensures kept { OnErr result (self.new ≡ self.old) }
    {
        if self.is_full() {
            return Err(RecordFault::LogFull);
        }
        let reply = self.net.apply_step(choice, verdicts)?;
        self.len += 1;
        Ok(Answer {
            seq: self.len,
            reply,
        })
    }
}

/// Copies the event's text from `line`, if given. If memory runs out the text is unchanged.
#[inline(always)]
fn put_text(
    out: &mut Vec<u8>,
    number: u32,
    event: &Event,
    line: Option<&[u8]>,
    reply: &Reply,
) -> Result<(), Want>
    requires { IfSome line (λ line. line.now ≡ event_text event.now) }
    ensures ok { OnOk result (out.new.items ≡ out.old.items ++ entry_line number event.now reply.now) }
    ensures kept { OnErr result (out.new.items ≡ out.old.items) }
{
    match line {
        Some(line) => put_entry_of_line(out, number, line, reply),
        None => put_entry(out, number, event, reply),
    }
}
