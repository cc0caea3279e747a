//! The run of a script under one rule set.

ghost use Rattle.std.specs.Prelude.{◌≡◌, ◌≤◌, [], IfOk, IfSome, IsOk, OnErr, OnOk, min};
ghost use Rattle.line_text.specs.EventText.{event_text};
ghost use Rattle.rule_machine.specs.Least.{reply_of};
ghost use Rattle.rule_machine.specs.RuleTable.{enabled_names};
ghost use Rattle.rule_machine.specs.State.{IsState};
ghost use Rattle.script_text.specs.declared.command.Command.TheVariants.{Drive};
ghost use Rattle.script_text.specs.declared.command.Turns.{Turns};
ghost use Rattle.script_text.specs.Command.{Says};
ghost use Rattle.script_text.specs.Script.{with_checkpoint};
ghost use Rattle.seeded_turns.specs.DrawnEvents.{seeded_stream, drawn_step, drawn_fault};
ghost use Rattle.run_session.specs.RunStart.{first_progress};
ghost use Rattle.run_session.specs.Line.{progress, progress_of, EventEnds, SomeTurnsEnd, TurnsEnd, CommandEnds, LineEnds};

use crate::{LineError, read_command};
use line_text::{put_base, put_header};
use rule_engine::Net;
use rule_machine::{Event, Reply, RuleSet, Rules, Want};
use script_text::{Command, Turns};
use seeded_turns::{EventSource, daemon_of_seed, injector_of_seed};
use std::alloc::{AllocError, Global};
use step_log::{RecordFault, Recorder};

/// The rule set's name, a recorded network, and the text of entries that the caller has not taken yet.
#[derive(Drop)]
pub struct Run<R: Rules> {
    pub rules: RuleSet,
    pub recorder: Recorder<R>,
    pub text: Vec<u8>,
}

impl<R: Rules> Run<R> {
    /// A run of a new network on the names 1 to `nodes`. The run's text is the header.
    ///
    /// The names 1 to `present` are present. `limit` is the most entries; a limit above 16,777,216 counts as
    /// 16,777,216. `Want` if memory runs out. Takes some fifty bytes a name.
    pub fn new(
        alloc: Global,
        rules: RuleSet,
        nodes: u32,
        present: u32,
        limit: u32,
    ) -> Result<Run<R>, Want>
        requires few { nodes ≤ 65535 }
        requires within { present ≤ nodes }
        ensures begins { IfOk result (λ run. progress_of run ≡ first_progress rules nodes present) }
        ensures limit { IfOk result (λ run. run.recorder.limit ≡ min limit 16777216) }
    {
        let Ok(net) = Net::with_present(alloc, nodes, present) else {
            return Err(AllocError);
        };
        let recorder = Recorder::of_net(net, 0, limit);
        let mut text = Vec::new(alloc);
        put_header(&mut text, rules, nodes, present)?;
        Ok(Run {
            rules,
            recorder,
            text,
        })
    }

    /// A run that goes on with a recorded network. The run's text is the network's base.
    ///
    /// `Want` if memory runs out. Costs a `checkpoint`.
    pub fn resume(alloc: Global, rules: RuleSet, recorder: Recorder<R>) -> Result<Run<R>, Want>
        ensures begins { IfOk result (λ run. progress_of run ≡ with_checkpoint (progress rules recorder [])) }
        ensures limit { IfOk result (λ run. run.recorder.limit ≡ recorder.limit) }
    {
        let text = Vec::new(alloc);
        let mut run = Run {
            rules,
            recorder,
            text,
        };
        run.checkpoint()?;
        Ok(run)
    }

    /// Carries out an event and adds its entry's text.
    ///
    /// Writes the machine's reply into `reply`. If the caller passes the event's text as `line`, that text is
    /// copied into the entry. The entry's number is the recorder's `len` after the call. After an error,
    /// nothing but `reply` may have changed.
    // Inlined into the reading of a line, as is every function between that one and this one.
    #[inline(always)]
    pub fn log(
        &mut self,
        event: &Event,
        line: Option<&[u8]>,
        reply: &mut Reply,
    ) -> Result<(), RecordFault>
        requires { IfSome line (λ line. line.now ≡ event_text event.now) }
        ensures ends { EventEnds R.table self.old.recorder.limit event.now (progress_of self.old) (progress_of self.new) result }
        ensures reply { OnOk result (reply.new ≡ reply_of R.table self.old.recorder.state self.old.recorder.spent event.now) }
        ensures limit { self.new.recorder.limit ≡ self.old.recorder.limit }
    {
        self.recorder.log_entry(event, line, reply, &mut self.text)
    }

    // A law in the form of a call: the network's state is one of the machine's.
    #[inline(always)]
    fn has_state(&self)
        ensures { IsState self.now.recorder.state }
    {
        let _ = self.recorder.net().registers();
    }

    /// Takes up to `count` turns; returns `false` if a turn drew no event, so that no turn is left.
    ///
    /// A call with some turns and a call with the others do what one call with all of them does.
    ///
    /// `LogFull` if the log is full at a turn; that turn draws nothing. `Memory` if memory runs out, after
    /// some first turns, each taken whole.
    pub fn take_turns<S: EventSource>(
        &mut self,
        source: &mut S,
        count: u32,
    ) -> Result<bool, RecordFault>
        ensures ends { SomeTurnsEnd S.draws R.table self.old.recorder.limit count (S.stream source.old) (S.stream source.new) (progress_of self.old) (progress_of self.new) result }
        ensures unasked { self.old.recorder.len ≡ self.old.recorder.limit → S.stream source.new ≡ S.stream source.old }
        ensures limit { self.new.recorder.limit ≡ self.old.recorder.limit }
    {
        for _ in 0..count {
            if self.recorder.is_full() {
                return Err(RecordFault::LogFull);
            }
            let Some(event) = source.next_event(self.recorder.net())? else {
                return Ok(false);
            };
            self.log(&event, None, &mut Reply::Accepted)?;
        }
        Ok(true)
    }

    /// Takes up to `turns.count` steps of a daemon seeded with `turns.seed`; stops when no node is enabled.
    ///
    /// `LogFull` if the log is full at a turn; that turn does not ask the daemon. `Memory` if memory runs
    /// out, after some first turns, each taken whole.
    pub fn drive(&mut self, alloc: Global, turns: Turns) -> Result<(), RecordFault>
        ensures ends { TurnsEnd drawn_step R.table self.old.recorder.limit turns.count (seeded_stream turns.seed) (progress_of self.old) (progress_of self.new) result }
        ensures silent { OnOk result (R.table.charge self.old.recorder.state ≤ turns.count → enabled_names R.table self.new.recorder.state ≡ []) }
        ensures limit { self.new.recorder.limit ≡ self.old.recorder.limit }
    {
        self.has_state();
        let mut daemon = daemon_of_seed(alloc, turns.seed);
        self.take_turns(&mut daemon, turns.count)?;
        Ok(())
    }

    /// Makes up to `turns.count` register faults drawn with `turns.seed`; none if the network has no node.
    ///
    /// `LogFull` if the log is full at a turn. `Memory` if memory runs out, after some first turns, each
    /// taken whole.
    pub fn scramble(&mut self, turns: Turns) -> Result<(), RecordFault>
        ensures ends { TurnsEnd drawn_fault R.table self.old.recorder.limit turns.count (seeded_stream turns.seed) (progress_of self.old) (progress_of self.new) result }
        ensures limit { self.new.recorder.limit ≡ self.old.recorder.limit }
    {
        let mut injector = injector_of_seed(turns.seed);
        self.take_turns(&mut injector, turns.count)?;
        Ok(())
    }

    /// Adds the lines of the base of the network's state. No log is kept, so no entries are dropped.
    ///
    /// `Want` if memory runs out; then nothing has changed. Looks at each name and at both ends of each edge;
    /// takes the memory of the base and its text.
    pub fn checkpoint(&mut self) -> Result<(), Want>
        ensures ok { OnOk result (progress_of self.new ≡ with_checkpoint (progress_of self.old)) }
        ensures err { OnErr result (progress_of self.new ≡ progress_of self.old) }
        ensures limit { self.new.recorder.limit ≡ self.old.recorder.limit }
    {
        let net = self.recorder.net();
        let base = net.base(self.recorder.len())?;
        put_base(&mut self.text, self.rules, net.store().capacity(), &base)
    }

    /// Carries out the command of `line`.
    ///
    /// `LogFull` if the command or one of its turns meets a full log. `Memory` if memory runs out. Then
    /// either nothing has changed, or some first turns were taken whole and their text was added.
    #[inline(always)]
    pub fn follow(
        &mut self,
        alloc: Global,
        command: &Command,
        line: &[u8],
    ) -> Result<(), RecordFault>
        requires { Says line.now command.now }
        ensures ends { CommandEnds R.table self.old.recorder.limit command.now (progress_of self.old) (progress_of self.new) result }
        ensures limit { self.new.recorder.limit ≡ self.old.recorder.limit }
    {
        match command {
            Command::Tell(event) => self.log(event, Some(line), &mut Reply::Accepted),
            Command::Drive(turns) => self.drive(alloc, *turns),
            Command::Scramble(turns) => self.scramble(*turns),
            Command::Checkpoint => Ok(self.checkpoint()?),
        }
    }

    /// Carries out line `number`, given without its LF.
    ///
    /// After `BadLine` nothing has changed. After `LogFull` the turns taken before it remain. `Memory` if
    /// memory runs out: either nothing has changed, or some first turns were taken whole and their text was
    /// added. After each of these errors the run can go on.
    #[inline(always)]
    pub fn carry_out(&mut self, alloc: Global, number: u64, line: &[u8]) -> Result<(), LineError>
        ensures ends { LineEnds R.table self.old.recorder.limit number line.now (progress_of self.old) (progress_of self.new) result }
        ensures silent { (turns : Turns) → Says line.now (Drive turns) → IsOk result → R.table.charge self.old.recorder.state ≤ turns.count → enabled_names R.table self.new.recorder.state ≡ [] }
        ensures limit { self.new.recorder.limit ≡ self.old.recorder.limit }
    {
        self.has_state();
        let mut command = Command::Checkpoint;
        if read_command(alloc, number, line, &mut command)? {
            self.follow(alloc, &command, line)?;
        }
        Ok(())
    }
}
