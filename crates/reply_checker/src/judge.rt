//! The judge.

ghost use Rattle.std.specs.Prelude.{◌≡◌, ◌≤◌, false, IsTrue, IfOk, OnErr};
ghost use Rattle.rule_machine.specs.Answer.{Answers};
ghost use Rattle.rule_machine.specs.State.{IsState, State, opening, opening_with};
ghost use Rattle.rule_machine.specs.Tables.{table_of};
ghost use Rattle.reply_checker.specs.ReplyVerdicts.{IsWrong, IsAcceptedLink};

use crate::judging::judge_reply;
use crate::{ChosenItems, CountedNet};
use net_state::NetState;
use rule_machine::{Event, Reply, RuleSet, Want};
use std::alloc::{AllocError, Global};
use std::marker::Model;

/// A network that judges replies; contracts see a state.
///
/// Computes guards and targets at each event from the neighbour lists and the registers.
#[derive(Drop)]
pub struct Judge {
    pub(crate) counted: CountedNet,
    chosen: ChosenItems,
}

impl Model for Judge {
    ghost use Rattle.rule_machine.specs.State.{State, state_code};
    ghost use Rattle.reply_checker.specs.Choices.{IsClearTable};

    ghost Value = { State };

    ghost coded = { state_code };

    ghost view = { λ j. j.counted.net.state };

    ghost invariant = { λ j. IsClearTable j.counted.net.state.network.size j.chosen };
}

impl Judge {
    /// A judge of nodes 1 to `nodes` without an edge; pointers are null and flags false.
    ///
    /// At most 65,535 nodes. `Want` if memory runs out. Takes some forty bytes a node.
    pub fn new(alloc: Global, nodes: u32) -> Result<Judge, Want>
        requires { nodes ≤ 65535 }
        ensures { IfOk result (λ judge. judge ≡ opening nodes) }
    {
        Judge::with_present(alloc, nodes, nodes)
    }

    /// A judge of names 1 to `nodes`, of which 1 to `present` are nodes; otherwise as `new`.
    ///
    /// At most 65,535 names. `Want` if memory runs out. Takes some forty bytes a name.
    pub fn with_present(alloc: Global, nodes: u32, present: u32) -> Result<Judge, Want>
        requires few { nodes ≤ 65535 }
        requires within { present ≤ nodes }
        ensures { IfOk result (λ judge. judge ≡ opening_with nodes present) }
    {
        let Ok(net) = NetState::with_present(alloc, nodes, present) else {
            return Err(AllocError);
        };
        let counted = CountedNet::new(alloc, net)?;
        Judge::of_counted(alloc, counted)
    }

    pub(crate) fn of_counted(alloc: Global, counted: CountedNet) -> Result<Judge, Want>
        ensures { IfOk result (λ judge. judge ≡ counted.net.state) }
    {
        let chosen = ChosenItems::new(alloc, counted.net.capacity())?;
        Ok(Judge { counted, chosen })
    }

    /// Whether the machine may give this reply to the event. If so, carries the event out.
    ///
    /// `spent` is the number of moves since the last accepted disturbance. If an item wishes no target, any
    /// allowed target is right. A wrong reply changes nothing.
    ///
    /// `Want` if memory runs out, which can happen only at a rightly accepted `Link`; the judge is
    /// unchanged then.
    ///
    /// Cost: a disturbance and a `Show` take look-ups, a step a look at the neighbours of its nodes.
    /// `Enabled`, `Matching` and `Status` look at
    ///
    /// - what their replies list;
    /// - the nodes that changed since the last such question, and their neighbours;
    /// - the neighbours of each of those nodes that may marry or seduce, or whose stance towards its edges
    ///   changed.
    pub fn replay(
        &mut self,
        rules: RuleSet,
        spent: u64,
        event: &Event,
        reply: &Reply,
    ) -> Result<bool, Want>
        ensures right { IfOk result (λ right. IsTrue right → Answers (table_of rules) self.old spent event.now reply.now self.new) }
        ensures wrong { IfOk result (λ right. right ≡ false → IsWrong (table_of rules) self.old spent event.now reply.now self.new) }
        ensures err { OnErr result (self.new ≡ self.old) }
        ensures want { OnErr result (IsAcceptedLink (table_of rules) self.old event.now reply.now) }
    {
        let right = judge_reply(
            &mut self.counted,
            rules,
            spent,
            event,
            reply,
            &mut self.chosen,
        );
        if let Event::Step(choice) = event {
            self.chosen.clear(choice.items());
        }
        right
    }

    /// The judge's network, in its present state.
    #[inline(always)]
    pub fn net(&self) -> &NetState
        ensures value { result.now.state ≡ self.now }
        ensures sound { IsState self.now }
    {
        let net = &self.counted.net;
        // Gives the prover `IsState`.
        let _ = net.registers();
        net
    }

    /// The network in the judge's present state.
    pub fn into_net(self) -> NetState
        ensures { result.state ≡ self }
    {
        self.counted.net
    }
}
