//! A session: a network, and the run of its commands.

ghost use Rattle.std.specs.Prelude.{◌≡◌, ◌≤◌, IfOk, IsOk, OnOk};
ghost use Rattle.run_session.specs.Line.{progress_of, CommandEnds};
ghost use Rattle.run_session.specs.RunStart.{first_progress};
ghost use Rattle.rule_machine.specs.declared.reply.Reply.TheVariants.{Accepted};
ghost use Rattle.rule_machine.specs.State.{IsState};
ghost use Rattle.script_text.specs.declared.command.Command.TheVariants.{Tell, Checkpoint};
ghost use Rattle.rule_machine.specs.Tables.{table_of, weight_of};
ghost use Rattle.auditor.specs.TranscriptEnds.{MayGoOn};
ghost use Rattle.rudekpi_c.specs.CommandCalls.{number_at, reply_kept};
ghost use Rattle.rudekpi_c.specs.Resumption.{resumed};
ghost use Rattle.rudekpi_c.specs.SilentDrives.{LineSilences, Silences};
ghost use Rattle.rudekpi_c.specs.Session.{stands, limit_of, rules_of, stands_at, limit_at, rules_at, with_text_if, HasSameRules, IsNewSession, LineEnded, CommandEnded};

use auditor::TranscriptEnd;
use graph_store::EdgeStore;
use registers::Registers;
use rule_engine::Net;
use rule_machine::{Event, Reply, RuleSet, Rules, Want};
use rules_hsu_huang::HsuHuang;
use rules_manne::Manne;
use run_session::{LineError, Run};
use script_text::Command;
use std::alloc::Global;
use step_log::{Answer, MAX_ENTRIES, RecordFault, Recorder};

#[derive(Drop)]
pub(crate) enum Machine {
    Hh(Run<HsuHuang>),
    Manne(Run<Manne>),
}

/// The value of an expression about the machine's run, under either rule set.
macro_rules! with_run {
    ($machine:expr, $run:ident => $value:expr) => {
        match $machine {
            Machine::Hh($run) => $value,
            Machine::Manne($run) => $value,
        }
    };
}

pub(crate) use with_run;

/// A run that goes on from call to call.
///
/// Beside the run: how many lines were fed, whether a transcript is kept, and the answer to the last command
/// that was not given as a line.
#[derive(Drop)]
pub struct Session {
    pub(crate) machine: Machine,
    pub(crate) lines: u64,
    pub(crate) keeps: bool,
    pub(crate) answer: Answer,
}

/// Carries out an event and stores its answer; the answer is empty if the event made no entry.
fn tell<R: Rules>(run: &mut Run<R>, event: &Event, answer: &mut Answer) -> Result<(), RecordFault>
    ensures ends { CommandEnds R.table run.old.recorder.limit (Tell event.now) (progress_of run.old) (progress_of run.new) result }
    ensures number { answer.new.seq ≡ number_at (Tell event.now) run.new.recorder.len result }
    ensures reply { answer.new.reply ≡ reply_kept R.table (Tell event.now) (progress_of run.old) result }
    ensures limit { run.new.recorder.limit ≡ run.old.recorder.limit }
{
    match run.log(event, None, &mut answer.reply) {
        Ok(()) => {
            answer.seq = run.recorder.len();
            Ok(())
        }
        Err(fault) => {
            *answer = unanswered(0);
            Err(fault)
        }
    }
}

/// An answer without a reply. `seq` is the number of an entry, or 0.
pub(crate) fn unanswered(seq: u32) -> Answer
    ensures number { result.seq ≡ seq }
    ensures reply { result.reply ≡ Accepted }
{
    Answer {
        seq,
        reply: Reply::Accepted,
    }
}

fn follow<R: Rules>(
    run: &mut Run<R>,
    alloc: Global,
    command: &Command,
    answer: &mut Answer,
) -> Result<(), RecordFault>
    ensures ends { CommandEnds R.table run.old.recorder.limit command.now (progress_of run.old) (progress_of run.new) result }
    ensures silent { OnOk result (Silences R.table command.now run.old.recorder.state run.new.recorder.state) }
    ensures number { answer.new.seq ≡ number_at command.now run.new.recorder.len result }
    ensures reply { answer.new.reply ≡ reply_kept R.table command.now (progress_of run.old) result }
    ensures limit { run.new.recorder.limit ≡ run.old.recorder.limit }
{
    match command {
        Command::Tell(event) => tell(run, event, answer),
        Command::Drive(turns) => {
            let done = run.drive(alloc, *turns);
            *answer = unanswered(run.recorder.len());
            done
        }
        Command::Scramble(turns) => {
            let done = run.scramble(*turns);
            *answer = unanswered(run.recorder.len());
            done
        }
        Command::Checkpoint => {
            let done = run.checkpoint();
            *answer = unanswered(run.recorder.len());
            Ok(done?)
        }
    }
}

fn resumed_run<R: Rules>(alloc: Global, end: TranscriptEnd) -> Result<Run<R>, Want>
    requires table { table_of end.rules ≡ R.table }
    requires weight { weight_of end.rules ≡ R.NODE_WEIGHT }
    requires goes_on { MayGoOn end }
    ensures begins { IfOk result (λ run. progress_of run ≡ resumed end) }
    ensures limit { IfOk result (λ run. run.recorder.limit ≡ 16777216) }
{
    let TranscriptEnd {
        rules,
        number,
        spent,
        net,
        ..
    } = end;
    let net = Net::of_state(alloc, net, spent)?;
    Run::resume(alloc, rules, Recorder::of_net(net, number, MAX_ENTRIES))
}

impl Machine {
    pub(crate) fn feed(&mut self, alloc: Global, number: u64, line: &[u8]) -> Result<(), LineError>
        ensures ends { LineEnded (rules_at self.old) (limit_at self.old) number line.now (stands_at self.old) (stands_at self.new) result }
        ensures silent { IsOk result → LineSilences (table_of (rules_at self.old)) line.now (stands_at self.old).moment.state (stands_at self.new).moment.state }
        ensures same { HasSameRules self.old self.new }
    {
        with_run!(self, run => run.carry_out(alloc, number, line))
    }

    /// Drops the text unless `keeps`.
    pub(crate) fn settle(&mut self, keeps: bool)
        ensures stands { stands_at self.new ≡ with_text_if keeps (stands_at self.old) }
        ensures same { HasSameRules self.old self.new }
    {
        if !keeps {
            with_run!(self, run => run.text.clear());
        }
    }
}

impl Session {
    /// A session of a new network. The session keeps its transcript.
    pub(crate) fn new(
        alloc: Global,
        rules: RuleSet,
        nodes: u32,
        present: u32,
    ) -> Result<Session, Want>
        requires few { nodes ≤ 65535 }
        requires within { present ≤ nodes }
        ensures { IfOk result (IsNewSession (first_progress rules nodes present)) }
    {
        let machine = match rules {
            RuleSet::Hh => Machine::Hh(Run::new(alloc, rules, nodes, present, MAX_ENTRIES)?),
            RuleSet::Manne => Machine::Manne(Run::new(alloc, rules, nodes, present, MAX_ENTRIES)?),
        };
        Ok(Session {
            machine,
            lines: 0,
            keeps: true,
            answer: unanswered(0),
        })
    }

    /// A session that goes on from the end of a run. The session keeps its transcript.
    pub(crate) fn resume(alloc: Global, end: TranscriptEnd) -> Result<Session, Want>
        requires { MayGoOn end }
        ensures { IfOk result (IsNewSession (resumed end)) }
    {
        let machine = match end.rules {
            RuleSet::Hh => Machine::Hh(resumed_run(alloc, end)?),
            RuleSet::Manne => Machine::Manne(resumed_run(alloc, end)?),
        };
        Ok(Session {
            machine,
            lines: 0,
            keeps: true,
            answer: unanswered(0),
        })
    }

    pub(crate) fn follow(&mut self, alloc: Global, command: &Command) -> Result<(), RecordFault>
        ensures ends { CommandEnded (rules_of self.old) (limit_of self.old) command.now (stands self.old) (stands self.new) result }
        ensures silent { OnOk result (Silences (table_of (rules_of self.old)) command.now (stands self.old).moment.state (stands self.new).moment.state) }
        ensures number { self.new.answer.seq ≡ number_at command.now (stands self.new).count result }
        ensures reply { self.new.answer.reply ≡ reply_kept (table_of (rules_of self.old)) command.now (stands self.old) result }
        ensures same { HasSameRules self.old.machine self.new.machine }
        ensures lines { self.new.lines ≡ self.old.lines }
        ensures keeps { self.new.keeps ≡ self.old.keeps }
    {
        with_run!(&mut self.machine, run => follow(run, alloc, command, &mut self.answer))
    }

    /// The edges, and who is present.
    pub(crate) fn store(&self) -> &EdgeStore
        ensures { result.now.network ≡ (stands self.now).moment.state.network }
    {
        with_run!(&self.machine, run => run.recorder.net().store())
    }

    pub(crate) fn registers(&self) -> &Registers
        ensures value { result.now ≡ (stands self.now).moment.state.registers }
        ensures state { IsState (stands self.now).moment.state }
    {
        with_run!(&self.machine, run => run.recorder.net().registers())
    }

    /// The text of the entries that C has not taken.
    pub(crate) fn text(&self) -> &[u8]
        ensures { result.now ≡ (stands self.now).text }
    {
        with_run!(&self.machine, run => &run.text)
    }
}
