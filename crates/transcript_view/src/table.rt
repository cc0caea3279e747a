//! The table of epochs.

ghost use Rattle.std.specs.Prelude.{◌≡◌, ◌++◌, IfOk, OnOk};
ghost use Rattle.transcript_view.specs.Table.{cell, cost_text, epoch_row, epoch_table, start_cell};

use crate::words::put_number;
use auditor::{CostedEpoch, Epochs};
use rule_machine::{EpochStart, RuleSet, Want};
use std::alloc::Global;

fn put_cell(out: &mut Vec<u8>, number: u64) -> Result<(), Want>
    ensures { OnOk result (out.new.items ≡ out.old.items ++ cell number) }
{
    put_number(out, number)?;
    out.extend_from_slice(b",")
}

fn put_start(out: &mut Vec<u8>, start: EpochStart) -> Result<(), Want>
    ensures { OnOk result (out.new.items ≡ out.old.items ++ start_cell start) }
{
    match start {
        EpochStart::At(number) => put_cell(out, u64::from(number)),
        EpochStart::Forgotten => out.extend_from_slice(b"-,"),
    }
}

fn put_cost(out: &mut Vec<u8>, cost: Option<u32>) -> Result<(), Want>
    ensures { OnOk result (out.new.items ≡ out.old.items ++ cost_text cost) }
{
    match cost {
        Some(cost) => put_number(out, u64::from(cost)),
        None => out.extend_from_slice(b"-"),
    }
}

fn put_row(out: &mut Vec<u8>, rules: RuleSet, row: CostedEpoch) -> Result<(), Want>
    ensures { OnOk result (out.new.items ≡ out.old.items ++ epoch_row rules row) }
{
    let epoch = row.epoch;
    put_start(out, epoch.start())?;
    put_cell(out, epoch.moves())?;
    put_cell(out, u64::from(epoch.edges()))?;
    put_cell(out, u64::from(epoch.nodes()))?;
    put_cell(out, epoch.bound(rules))?;
    put_cost(out, row.cost)?;
    out.extend_from_slice(b",")?;
    put_number(out, u64::from(row.rounds))?;
    out.extend_from_slice(b"\n")
}

/// The table of a run's epochs, some forty bytes a line. Fails only if memory runs out.
pub(crate) fn epoch_table(alloc: Global, epochs: &Epochs) -> Result<Vec<u8>, Want>
    ensures { IfOk result (λ text. text.items ≡ epoch_table epochs.now.rules epochs.now.list.items) }
{
    let mut out = Vec::new(alloc);
    out.extend_from_slice(b"start,moves,edges,nodes,bound,cost,rounds\n")?;
    for &row in &epochs.list {
        put_row(&mut out, epochs.rules, row)?;
    }
    Ok(out)
}
