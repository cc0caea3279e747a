//! What a worker does.

ghost use Rattle.std.specs.Prelude.{◌≡◌, ◌≤◌, ◌+◌, ◌-◌, length, IfOk, vec_capacity};
ghost use Rattle.steal_pool.specs.Ledgers.{block_places};
ghost use Rattle.rule_engine.specs.ChoiceMoves.{verdicts_of};
ghost use Rattle.steal_pool.specs.Hands.{hand_hold, judged_hold, judged_places, judged_verdicts, AreJudged, GoOnWith};
ghost use Rattle.steal_pool.specs.Once.{StandOnce, places_of};

use crate::deque::Block;
use crate::{Gate, Hand, Share};
use rule_engine::{Choice, Net, Rules, Verdict, Want};
use std::sync::Wait;

impl Hand {
    /// Takes blocks of places until no block is left, and judges each place.
    /// Before each place the worker passes the gate with the worker's number and the place, and may have to
    /// wait there. The worker tries again if another worker takes a block first.
    /// The choice must be the one given to `hands`; the contract checks only that the number of places is
    /// the same.
    /// `AllocError` if memory runs out: then the worker has taken no place, and the hand is used up.
    pub fn work<R: Rules, G: Gate, W: Wait>(
        self,
        rt: &W,
        net: &Net<R>,
        choice: &Choice,
        gate: &G,
    ) -> Result<Share, Want>
        requires choice { (hand_hold self).count ≡ length choice.now }
        ensures hold { IfOk result (λ share. judged_hold share ≡ hand_hold self) }
        ensures judged { IfOk result (AreJudged R.table net.now.state choice.now) }
        ensures once { IfOk result (λ share. StandOnce (length choice.now) (places_of (judged_verdicts share))) }
    {
        let Hand {
            alloc,
            worker,
            mut end,
        } = self;
        let mut verdicts = Vec::with_capacity(alloc, choice.items().len())?;
        while let Some(block) = end.take(rt) {
            judge_block(rt, gate, worker, net, choice, block, &mut verdicts);
        }
        // Unused room is freed at once, so that the next list need not ask the system for more.
        verdicts.shrink_to_fit();
        Ok(Share { end, verdicts })
    }
}

fn judge_block<R: Rules, G: Gate, W: Wait>(
    rt: &W,
    gate: &G,
    worker: u32,
    net: &Net<R>,
    choice: &Choice,
    block: Block,
    verdicts: &mut Vec<Verdict>,
)
    requires within { block.end ≤ length choice.now }
    requires room { length verdicts.old.items + (block.end - block.first) ≤ vec_capacity verdicts.old }
    ensures judged { GoOnWith (verdicts_of R.table net.now.state choice.now) (block_places block) verdicts.old.items verdicts.new.items }
    ensures room { vec_capacity verdicts.old ≤ vec_capacity verdicts.new }
{
    for place in block.first..block.end {
        gate.pass(rt, worker, place);
        verdicts.push(net.verdict(choice, place)).unwrap();
    }
}

impl Share {
    /// What `Net::verdict` returns for each place that the worker took, once, in the order taken.
    pub fn verdicts(&self) -> &[Verdict]
        ensures verdicts { result.now ≡ judged_verdicts self.now }
        ensures taken { places_of result.now ≡ judged_places self.now }
        ensures once { StandOnce (judged_hold self.now).count (places_of result.now) }
    {
        &self.verdicts
    }
}
