//! How a locked network ends.

ghost use Rattle.std.specs.Prelude.{◌≡◌, ◌≢◌, false, map, IfOk, IfErr, IfSome, OnOk, IsTrue};
ghost use Rattle.std.specs.List.{All};
ghost use mathlib.Core.List.{IsPrefix};
ghost use Rattle.step_log.specs.JournalViews.{kept_of};
ghost use Rattle.step_log.specs.RetainedLogs.{IsRetainedRun};
ghost use Rattle.locked_net.specs.RetainedParts.{IsBack, IsPartOfLog, IsPartNoted};
ghost use Rattle.locked_net.specs.Nets.{book_of, name_count_of, first_nodes_of, start_number_of, log_limit_of, setting_of};
ghost use Rattle.locked_net.specs.Receipts.{HasNoteOf, IsOfBook, noted, receipts_of};
ghost use Rattle.step_log.specs.Headline.{Headline};
ghost use Rattle.step_log.specs.Settlements.{Settlement, Unsettles};
ghost use Rattle.step_log.specs.declared.settle_fault.SettleFault.TheVariants.{Memory};

use crate::{Clerk, LockedNet, SettleFault, Unsettled};
use rule_engine::{Rules, Want};
use snapshots::Note;
use std::alloc::Global;
use std::sync::Wait;
use step_log::{Journal, Receipts, settle_journal};

/// Takes the journal out of a network that no thread shares, and settles clerks against the journal.
///
/// Each receipt must be the log's entry with the receipt's number, and each entry must belong to one clerk.
/// In a network from a base the entries are those after the base. After a checkpoint the base's number must be
/// the greatest that `checkpoint` returned to one of these clerks. So no clerk with a greater number is
/// missing. Receipts with numbers up to the base are compared by number only, and each of these numbers must
/// occur once.
///
/// `CountDiffers` if there are not as many receipts as entries, kept or dropped; then `BaseDiffers` if the
/// base's number is not that greatest number; then `Stranger` for the first receipt that does not agree.
/// `Memory` may come in place of any result. A fault is returned with the journal.
pub fn settle<R: Rules, W: Wait>(
    rt: &W,
    net: LockedNet<R>,
    clerks: Vec<Clerk>,
) -> Result<Journal<R>, Unsettled<R>>
    ensures headline { IfOk result (λ journal. Headline (start_number_of net) R.table R.NODE_WEIGHT (kept_of journal) (map receipts_of clerks.items)) }
    ensures settled { IfOk result (λ journal. Settlement (start_number_of net) (kept_of journal) (map receipts_of clerks.items)) }
    ensures run { IfOk result (λ journal. IsRetainedRun R.table R.NODE_WEIGHT (kept_of journal)) }
    ensures whole { IfOk result (λ journal. IsPartOfLog (setting_of R.table net) (kept_of journal)) }
    ensures size { IfOk result (λ journal. (journal.state.network.size ≡ name_count_of net) × (journal.present ≡ first_nodes_of net) × (journal.limit ≡ log_limit_of net)) }
    ensures fault { IfErr result (λ unsettled. Unsettles (start_number_of net) (kept_of unsettled.journal) (map receipts_of clerks.items) unsettled.why) }
    ensures back { IfErr result (λ unsettled. IsBack (setting_of R.table net) R.NODE_WEIGHT unsettled.journal) }
{
    let (alloc, start) = (net.alloc(), net.start());
    settle_clerks(alloc, start, net.into_journal(rt), clerks)
}

/// Like `settle`, for clerks that have called only this network or none.
/// The log of each clerk's note then is a prefix of the whole log; the journal keeps the part of the whole
/// log above the base. Both are also true of a journal that comes with a fault, except with `Memory`.
/// `Memory` also reports a note whose log is no such prefix, which never happens.
pub fn settle_own<R: Rules, W: Wait>(
    rt: &W,
    net: LockedNet<R>,
    clerks: Vec<Clerk>,
) -> Result<Journal<R>, Unsettled<R>>
    requires { All (IsOfBook (book_of net)) clerks.items }
    ensures headline { IfOk result (λ journal. Headline (start_number_of net) R.table R.NODE_WEIGHT (kept_of journal) (map receipts_of clerks.items)) }
    ensures settled { IfOk result (λ journal. Settlement (start_number_of net) (kept_of journal) (map receipts_of clerks.items)) }
    ensures noted { IfOk result (λ journal. IsPartNoted (setting_of R.table net) (kept_of journal) clerks.items) }
    ensures run { IfOk result (λ journal. IsRetainedRun R.table R.NODE_WEIGHT (kept_of journal)) }
    ensures whole { IfOk result (λ journal. IsPartOfLog (setting_of R.table net) (kept_of journal)) }
    ensures size { IfOk result (λ journal. (journal.state.network.size ≡ name_count_of net) × (journal.present ≡ first_nodes_of net) × (journal.limit ≡ log_limit_of net)) }
    ensures fault { IfErr result (λ unsettled. Unsettles (start_number_of net) (kept_of unsettled.journal) (map receipts_of clerks.items) unsettled.why) }
    ensures back { IfErr result (λ unsettled. IsBack (setting_of R.table net) R.NODE_WEIGHT unsettled.journal) }
    ensures back_noted { IfErr result (λ unsettled. (unsettled.why ≢ Memory) → IsPartNoted (setting_of R.table net) (kept_of unsettled.journal) clerks.items) }
{
    let (alloc, start) = (net.alloc(), net.start());
    let (journal, last) = net.into_noted(rt);
    if !all_begin(&clerks, &last) {
        let why = SettleFault::Memory;
        return Err(Unsettled { why, journal });
    }
    settle_clerks(alloc, start, journal, clerks)
}

fn all_begin(clerks: &[Clerk], last: &Note) -> bool
    requires { All (IsOfBook last.now.book) clerks.now }
    ensures yes { IsTrue result → All (λ clerk. IsPrefix (noted clerk.note) last.now.log) clerks.now }
{
    for clerk in clerks {
        if !begins(clerk, last) {
            return false;
        }
    }
    true
}

pub(crate) fn begins(clerk: &Clerk, last: &Note) -> bool
    requires { IsOfBook last.now.book clerk.now }
    ensures yes { IsTrue result → IsPrefix (noted clerk.now.note) last.now.log }
    ensures no { result ≡ false → IsPrefix last.now.log (noted clerk.now.note) }
    ensures none { result ≡ false → HasNoteOf last.now.book clerk.now }
    ensures base { IfSome clerk.now.note (λ note. note.base ≡ last.now.base) }
{
    match clerk.note() {
        Some(note) => note.begins(last),
        None => true,
    }
}

fn settle_clerks<R: Rules>(
    alloc: Global,
    start: Option<u32>,
    journal: Journal<R>,
    clerks: Vec<Clerk>,
) -> Result<Journal<R>, Unsettled<R>>
    ensures same { IfOk result (λ settled. settled ≡ journal) }
    ensures headline { OnOk result (Headline start R.table R.NODE_WEIGHT (kept_of journal) (map receipts_of clerks.items)) }
    ensures fault { IfErr result (λ unsettled. Unsettles start (kept_of unsettled.journal) (map receipts_of clerks.items) unsettled.why) }
    ensures back { IfErr result (λ unsettled. unsettled.journal ≡ journal) }
{
    match all_receipts(alloc, clerks) {
        Ok(receipts) => settle_journal(start, journal, &receipts),
        Err(_) => Err(Unsettled {
            why: SettleFault::Memory,
            journal,
        }),
    }
}

fn all_receipts(alloc: Global, clerks: Vec<Clerk>) -> Result<Vec<Receipts>, Want>
    ensures { IfOk result (λ all. all.items ≡ map receipts_of clerks.items) }
{
    let mut all = Vec::with_capacity(alloc, clerks.len())?;
    for clerk in clerks {
        all.push(clerk.into_receipts())?;
    }
    Ok(all)
}
