//! The verdicts of all shares, by place.

ghost use Rattle.std.specs.Prelude.{◌≡◌, ◌<◌, ◌≤◌, ℕ, List, ◌++◌, length, map, All, IfOk};
ghost use Rattle.std.specs.List.{sum_by};
ghost use Rattle.steal_pool.specs.Ends.{end_hold, end_taken, owner_ledger, AreAllEnds};
ghost use Rattle.steal_pool.specs.Ledgers.{block_places, AreAllPlaces};
ghost use Rattle.rule_engine.specs.ChoiceMoves.{verdicts_of};
ghost use Rattle.steal_pool.specs.Hands.{all_taken, judged_hold, AreJudged};
ghost use Rattle.steal_pool.specs.VerdictTables.{laid, HavePlacesBelow, IsVerdictTable, IsRightWith, taken_by, taken_in};
ghost use Rattle.steal_pool.specs.Once.{AllStandOnce};

use crate::Share;
use crate::deque::{Block, DequeEnd, Owner, gather};
use rule_engine::{Choice, Net, Outcome, Rules, Verdict, Want};
use std::alloc::Global;

/// Joins the shares of all hands of one call of `hands`, and returns the verdicts in order of place.
/// The shares must come from work with this choice on this net. `merge` itself judges the places left on the
/// deque, without a gate.
/// Each place is taken once, so no verdict is missing or doubled.
/// `AllocError` if memory runs out; the shares are used up then.
pub fn merge<R: Rules>(
    alloc: Global,
    shares: Vec<Share>,
    net: &Net<R>,
    choice: &Choice,
) -> Result<Vec<Verdict>, Want>
    requires all { AreAllEnds (length choice.now) (map judged_hold shares.items) }
    requires judged { All (AreJudged R.table net.now.state choice.now) shares.items }
    ensures verdicts { IfOk result (λ verdicts. verdicts.items ≡ verdicts_of R.table net.now.state choice.now) }
    ensures places { IfOk result (λ _. (left : List ℕ) × AllStandOnce (length choice.now) (all_taken shares.items ++ left)) }
{
    let Some(first) = choice.items().first() else {
        return Ok(Vec::new(alloc));
    };
    let blank = Verdict {
        place: 0,
        node: first.node,
        outcome: Outcome::Absent,
    };
    let mut verdicts = Vec::from_elem(alloc, blank, choice.items().len())?;
    let ends = lay_out(alloc, shares, net, choice, &mut verdicts)?;
    let owner = gather(ends, choice.items().len() as u32);
    judge_left(owner, net, choice, &mut verdicts);
    Ok(verdicts)
}

fn lay_out<R: Rules>(
    alloc: Global,
    mut shares: Vec<Share>,
    net: &Net<R>,
    choice: &Choice,
    table: &mut [Verdict],
) -> Result<Vec<DequeEnd>, Want>
    requires size { length table.old ≡ length choice.now }
    requires all { AreAllEnds (length choice.now) (map judged_hold shares.items) }
    requires judged { All (AreJudged R.table net.now.state choice.now) shares.items }
    ensures all { IfOk result (λ ends. AreAllEnds (length choice.now) (map end_hold ends.items)) }
    ensures right { IfOk result (λ ends. IsVerdictTable (verdicts_of R.table net.now.state choice.now) table.new (taken_by ends.items)) }
    ensures taken { IfOk result (λ ends. (h : ℕ → ℕ) → sum_by (λ e. sum_by h (end_taken e)) ends.items ≡ sum_by h (all_taken shares.items)) }
{
    let mut ends = Vec::with_capacity(alloc, shares.len())?;
    while let Some(share) = shares.pop() {
        let Share { end, verdicts } = share;
        lay(table, &verdicts);
        ends.push(end)?;
    }
    Ok(ends)
}

fn lay(table: &mut [Verdict], verdicts: &[Verdict])
    requires { HavePlacesBelow (length table.old) verdicts.now }
    ensures { table.new ≡ laid table.old verdicts.now }
{
    for verdict in verdicts {
        table[verdict.place as usize] = *verdict;
    }
}

fn judge_left<R: Rules>(mut owner: Owner, net: &Net<R>, choice: &Choice, table: &mut [Verdict])
    requires whole { (owner_ledger owner).parts ≡ 64 }
    requires count { (owner_ledger owner).count ≡ length choice.now }
    requires right { IsVerdictTable (verdicts_of R.table net.now.state choice.now) table.old (taken_in (owner_ledger owner)) }
    ensures verdicts { table.new ≡ verdicts_of R.table net.now.state choice.now }
    ensures places { (left : List ℕ) × AreAllPlaces (length choice.now) ((owner_ledger owner).taken ++ left) }
{
    while let Some(block) = owner.take() {
        write_block(net, choice, block, table);
    }
}

fn write_block<R: Rules>(net: &Net<R>, choice: &Choice, block: Block, table: &mut [Verdict])
    requires within { block.end ≤ length choice.now }
    requires size { length table.old ≡ length choice.now }
    ensures { IsRightWith (verdicts_of R.table net.now.state choice.now) (block_places block) table.old table.new }
{
    for place in block.first..block.end {
        table[place as usize] = net.verdict(choice, place);
    }
}
