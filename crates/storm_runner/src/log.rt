//! A log as a transcript, and writing it.

ghost use Rattle.std.specs.Prelude.{◌≡◌, ◌+◌, ◌++◌, OnOk, OnErr, true, IfErr, IsErrOf};
ghost use Rattle.line_text.specs.EntryText.{entry_lines};
ghost use Rattle.line_text.specs.Words.{Extends};
ghost use Rattle.rule_machine.specs.Base.{dropped};
ghost use Rattle.storm_runner.specs.RetainedText.{AreWritable, kept_text, retained_opening};
ghost use Rattle.std.specs.Io.KnownBytes.{Appends};
ghost use Rattle.script_run.specs.RunOptions.{asked_of};
ghost use Rattle.step_log.specs.JournalViews.{kept_of};
ghost use Rattle.storm_runner.specs.Outcome.{WritesKept};
ghost use Rattle.storm_runner.specs.StormParts.{FailsToWrite};
ghost use Rattle.storm_runner.specs.declared.fault.StormFault.TheVariants.{Write as Unwritten};

use crate::StormFault;
use byte_streams::FailStopWriter;
use line_text::{put_entry, put_header};
use rule_machine::{RuleSet, Rules, Want};
use script_run::Options;
use std::alloc::Global;
use std::io::Write;
use step_log::Journal;

fn append_entries<R: Rules>(out: &mut Vec<u8>, journal: &Journal<R>) -> Result<(), Want>
    ensures ok { OnOk result (out.new.items ≡ out.old.items ++ entry_lines (dropped journal.now.base + 1) journal.now.entries) }
    ensures err { OnErr result (Extends out.old.items out.new.items) }
    ensures values { OnOk result (AreWritable journal.now.entries) }
{
    for before in journal.base().unwrap_or(0)..journal.len() {
        let entry = journal.entry(before + 1).unwrap();
        put_entry(out, before + 1, entry.event(), entry.reply())?;
    }
    Ok(())
}

// Writes a header, or the base's lines if the log has a base.
fn put_opening<R: Rules>(
    out: &mut Vec<u8>,
    rules: RuleSet,
    nodes: u32,
    present: u32,
    journal: &Journal<R>,
) -> Result<(), Want>
    ensures ok { OnOk result (out.new.items ≡ out.old.items ++ retained_opening rules nodes present journal.now.state.network.size journal.now.base) }
    ensures err { OnErr result (out.new.items ≡ out.old.items) }
{
    if journal.base().is_none() {
        return put_header(out, rules, nodes, present);
    }
    let text = journal.base_text(rules)?;
    out.extend_from_slice(&text)
}

/// Writes the text of the log that a journal keeps.
///
/// The text is a header (rule set, names, nodes at the start), or the lines of the base if entries were
/// dropped; then a numbered line for each entry. `Want` if memory runs out; then nothing was written. Looks
/// at each entry; takes the memory of the text, and twice the memory of the base's text.
pub fn put_log<R: Rules>(
    out: &mut Vec<u8>,
    rules: RuleSet,
    nodes: u32,
    present: u32,
    journal: &Journal<R>,
) -> Result<(), Want>
    ensures ok { OnOk result (out.new.items ≡ out.old.items ++ kept_text rules nodes present journal.now.state.network.size journal.now.base journal.now.entries) }
    ensures err { OnErr result (out.new.items ≡ out.old.items) }
    ensures values { OnOk result (AreWritable journal.now.entries) }
{
    let len = out.len();
    put_opening(out, rules, nodes, present, journal)?;
    let done = append_entries(out, journal);
    if done.is_err() {
        out.truncate(len);
    }
    done
}

/// Writes the text of the log that a journal keeps. If it fails with `Memory`, nothing was written.
pub(crate) fn write_log<R: Rules, Out: Write>(
    alloc: Global,
    options: &Options,
    journal: &Journal<R>,
    writer: &mut FailStopWriter<Out>,
) -> Result<(), StormFault>
    ensures ok { OnOk result (WritesKept (Appends (Out.contents writer.old.writer) (Out.contents writer.new.writer)) (asked_of options.now) (kept_of journal.now)) }
    ensures fault { IfErr result (FailsToWrite (Out.contents writer.old.writer) (Out.contents writer.new.writer) (asked_of options.now) (kept_of journal.now)) }
    ensures unwritten { IsErrOf result Unwritten → writer.new.failed ≡ true }
{
    let mut text = Vec::new(alloc);
    let (rules, nodes, present) = (options.rules(), options.nodes(), options.present());
    if put_log(&mut text, rules, nodes, present, journal).is_err() {
        return Err(StormFault::Memory);
    }
    match writer.finish(&text) {
        Ok(()) => Ok(()),
        Err(_) => Err(StormFault::Write),
    }
}
