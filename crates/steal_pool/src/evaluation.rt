//! The verdicts of a choice, found by several workers.

ghost use Rattle.std.specs.Prelude.{◌≡◌, ◌<◌, ◌≤◌, length, map, All, IfOk, IfErr};
ghost use Rattle.std.specs.Thread.{IsSync};
ghost use Rattle.rule_engine.specs.ChoiceMoves.{verdicts_of};
ghost use Rattle.steal_pool.specs.Faults.{ExplainsPoolFault};
ghost use Rattle.steal_pool.specs.Hands.{hand_hold, judged_hold, AreJudged, AreShares};

use crate::dealing::deal;
use crate::{Gate, Hand, PoolFault, Share, merge};
use rule_engine::{Choice, Net, Rules, Verdict, Want};
use std::alloc::Global;
use std::sync::Wait;
use std::thread::{Threads, join};

/// The verdict of each item of a choice (what the item would do alone), in order of place.
/// At most 64 workers, numbered from 0, take places from each other, each in its own thread if threads are
/// available. Before each place a worker passes the gate. A single worker takes the places in order.
/// `ZeroWorkers` if `workers` is 0, checked first; `Memory` if memory runs out.
/// Waits for the gate and for the workers.
pub fn evaluate<R: Rules + Sync, G: Gate + Sync, T: Threads + Wait + Sync>(
    rt: &T,
    alloc: Global,
    net: &Net<R>,
    choice: &Choice,
    workers: u32,
    gate: &G,
) -> Result<Vec<Verdict>, PoolFault>
    ensures some { IfOk result (λ _. 0 < workers) }
    ensures verdicts { IfOk result (λ verdicts. verdicts.items ≡ verdicts_of R.table net.now.state choice.now) }
    ensures fault { IfErr result (ExplainsPoolFault workers) }
{
    if workers == 0 {
        return Err(PoolFault::ZeroWorkers);
    }
    let workers = workers.min(choice.items().len() as u32);
    if workers < 2 {
        return Ok(judge_all(rt, alloc, net, choice, gate)?);
    }
    let hands = deal(alloc, choice, workers)?;
    let shares = work_all(rt, net, choice, gate, hands)?;
    Ok(merge(alloc, shares, net, choice)?)
}

fn judge_all<R: Rules, G: Gate, W: Wait>(
    rt: &W,
    alloc: Global,
    net: &Net<R>,
    choice: &Choice,
    gate: &G,
) -> Result<Vec<Verdict>, Want>
    ensures { IfOk result (λ verdicts. verdicts.items ≡ verdicts_of R.table net.now.state choice.now) }
{
    let items = choice.items();
    let mut verdicts = Vec::with_capacity(alloc, items.len())?;
    for place in 0..items.len() {
        gate.pass(rt, 0, place as u32);
        verdicts.push(net.verdict(choice, place as u32))?;
    }
    Ok(verdicts)
}

// Each call splits the hands in half and gives one half to a new thread.
#[cycle(work)]
fn work_all<R: Rules + Sync, G: Gate + Sync, T: Threads + Wait + Sync>(
    rt: &T,
    net: &Net<R>,
    choice: &Choice,
    gate: &G,
    mut low: Vec<Hand>,
) -> Result<Vec<Share>, Want>
    requires { All (λ hand. (hand_hold hand).count ≡ length choice.now) low.items }
    ensures hold { IfOk result (λ shares. map judged_hold shares.items ≡ map hand_hold low.items) }
    ensures judged { IfOk result (λ shares. All (AreJudged R.table net.now.state choice.now) shares.items) }
{
    if low.len() < 2 {
        let mut shares = Vec::new(*low.allocator());
        if let Some(hand) = low.pop() {
            shares.push(hand.work(rt, net, choice, gate)?)?;
        }
        return Ok(shares);
    }
    let high = low.split_off(low.len() / 2)?;
    let (ours, theirs) = join(
        rt,
        move || -> Result<Vec<Share>, Want>
            requires { IsSync T.row × IsSync G.row × IsSync R.row × All (λ hand. (hand_hold hand).count ≡ length choice.now) low.items }
            ensures { IfOk result (λ shares. AreShares R.table net.entry.now.state choice.entry.now low.items shares.items) }
        { work_all(rt, net, choice, gate, low) },
        move || -> Result<Vec<Share>, Want>
            requires { IsSync T.row × IsSync G.row × IsSync R.row × All (λ hand. (hand_hold hand).count ≡ length choice.now) high.items }
            ensures { IfOk result (λ shares. AreShares R.table net.entry.now.state choice.entry.now high.items shares.items) }
        { work_all(rt, net, choice, gate, high) },
    );
    let mut shares = ours?;
    let mut others = theirs?;
    shares.append(&mut others)?;
    Ok(shares)
}
