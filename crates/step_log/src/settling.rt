//! Whether receipts account for a log.

ghost use Rattle.std.specs.Prelude.{◌≡◌, ◌↔◌, ◌+◌, ◌^◌, ◌<◌, ◌≤◌, ◌⊎◌, ℕ, List, Option, Some, length, slice_get, IsTrue, IfErr, IfOk, OnOk, MatchOption};
ghost use Rattle.step_log.specs.declared.receipt.Receipt.{Receipt};
ghost use Rattle.step_log.specs.Headline.{Headline};
ghost use Rattle.step_log.specs.JournalViews.{kept_of};
ghost use Rattle.step_log.specs.RetainedLogs.{IsRetainedRun, RetainedLog};
ghost use Rattle.step_log.specs.declared.settle_fault.SettleFault.{SettleFault};
ghost use Rattle.step_log.specs.declared.settle_fault.SettleFault.TheVariants.{Stranger, Memory};
ghost use Rattle.step_log.specs.Receipts.{ReceiptsView, RiseAbove, base_from};
ghost use Rattle.step_log.specs.Settlements.{receipt_count, entry_count, greatest_base, StandsAt, HasReceiptNumber, IsEntryAbove, Agrees, Settlement, IsFirstStranger, Unsettles, AreReceiptMarks};

use crate::{Journal, NoEntry, Receipt, Receipts, SettleFault, Unsettled};
use log_entry::{same_event, same_reply};
use rule_engine::Rules;

/// Settles the receipts of all callers of a network against the network's journal.
///
/// Each receipt must be the log's entry with the receipt's number, and each entry must belong to one caller.
/// `start` is the number after which the log's entries are numbered, if the log began at a base. After a
/// checkpoint the base's number must be the greatest of these callers' bases. Receipts with numbers up to the
/// base are compared by number only, and each of these numbers must occur once.
///
/// `CountDiffers` if there are not as many receipts as entries, kept or dropped; then `BaseDiffers` if the
/// base's number is not that greatest number; then `Stranger` for the first receipt that does not agree.
/// `Memory` may come in place of any result. A fault is returned with the journal.
/// Takes one byte for each entry, and looks at each entry, caller and receipt.
pub fn settle_journal<R: Rules>(
    start: Option<u32>,
    journal: Journal<R>,
    clerks: &[Receipts],
) -> Result<Journal<R>, Unsettled<R>>
    ensures same { IfOk result (λ settled. settled ≡ journal) }
    ensures headline { OnOk result (Headline start R.table R.NODE_WEIGHT (kept_of journal) clerks.now) }
    ensures fault { IfErr result (λ unsettled. Unsettles start (kept_of unsettled.journal) clerks.now unsettled.why) }
    ensures back { IfErr result (λ unsettled. unsettled.journal ≡ journal) }
{
    match settled_with(start, &journal, clerks) {
        Ok(()) => Ok(journal),
        Err(why) => Err(Unsettled { why, journal }),
    }
}

fn settled_with<R: Rules>(
    start: Option<u32>,
    journal: &Journal<R>,
    clerks: &[Receipts],
) -> Result<(), SettleFault>
    ensures run { IsRetainedRun R.table R.NODE_WEIGHT (kept_of journal.now) }
    ensures settled { OnOk result (Settlement start (kept_of journal.now) clerks.now) }
    ensures fault { IfErr result (λ why. Unsettles start (kept_of journal.now) clerks.now why) }
{
    let len = count_entries(journal, start);
    if !has_count(clerks, len) {
        return Err(SettleFault::CountDiffers);
    }
    if journal.base() != greatest(start, clerks) {
        return Err(SettleFault::BaseDiffers);
    }
    let mut marks = vec![in journal.alloc; false; len]?;
    let taken = marks.as_mut_slice();
    for clerk in 0..clerks.len() {
        if let Some(place) = first_stranger(journal, start, clerks, clerk, taken) {
            return Err(stranger(clerk, place));
        }
    }
    Ok(())
}

fn stranger(clerk: usize, place: usize) -> SettleFault
    requires { place < 2 ^ 32 }
    ensures { ((clerk < 2 ^ 32) × (result ≡ Stranger clerk place)) ⊎ ((2 ^ 32 ≤ clerk) × (result ≡ Memory)) }
{
    match u32::try_from(clerk) {
        Ok(clerk) => SettleFault::Stranger {
            clerk,
            place: place as u32,
        },
        Err(_) => SettleFault::Memory,
    }
}

fn count_entries<R: Rules>(journal: &Journal<R>, start: Option<u32>) -> usize
    ensures count { result ≡ entry_count start (kept_of journal.now) }
    ensures run { IsRetainedRun R.table R.NODE_WEIGHT (kept_of journal.now) }
    ensures small { result < 2 ^ 32 }
{
    journal.len().saturating_sub(number_or_zero(start)) as usize
}

fn number_or_zero(start: Option<u32>) -> u32
    ensures { result ≡ base_from start }
{
    start.unwrap_or(0)
}

fn has_count(clerks: &[Receipts], count: usize) -> bool
    ensures { IsTrue result ↔ (receipt_count clerks.now ≡ count) }
{
    let mut left = count;
    for clerk in clerks {
        let receipts = clerk.list();
        if receipts.len() > left {
            return false;
        }
        left -= receipts.len();
    }
    left == 0
}

fn greatest(start: Option<u32>, clerks: &[Receipts]) -> Option<u32>
    ensures { result ≡ greatest_base start clerks.now }
{
    let mut found = start;
    for clerk in clerks {
        found = found.max(clerk.base());
    }
    found
}

/// The index of the clerk's first receipt that does not agree, if any. Marks the receipts before it.
/// All receipts of the clerks before this clerk agree and are marked already.
fn first_stranger<R: Rules>(
    journal: &Journal<R>,
    start: Option<u32>,
    clerks: &[Receipts],
    clerk: usize,
    taken: &mut [bool],
) -> Option<usize>
    requires inside { clerk < length clerks.now }
    requires marked { AreReceiptMarks start (kept_of journal.now) clerks.now clerk 0 taken.old }
    ensures { MatchOption result
        (AreReceiptMarks start (kept_of journal.now) clerks.now (clerk + 1) 0 taken.new)
        (λ place. IsFirstStranger start (kept_of journal.now) clerks.now clerk place) }
{
    let first = number_or_zero(start);
    for (place, receipt) in clerks[clerk].list().iter().enumerate() {
        if !is_entry(journal, start, receipt) {
            return Some(place);
        }
        let number = (receipt.seq - first) as usize - 1;
        if taken[number] {
            return Some(place);
        }
        taken[number] = true;
    }
    None
}

fn is_entry<R: Rules>(journal: &Journal<R>, start: Option<u32>, receipt: &Receipt) -> bool
    ensures { IsTrue result ↔ IsEntryAbove start (kept_of journal.now) receipt.now }
{
    if receipt.seq <= number_or_zero(start) {
        return false;
    }
    match journal.entry(receipt.seq) {
        Ok(entry) => {
            same_event(entry.event(), &receipt.event) && same_reply(entry.reply(), &receipt.reply)
        }
        Err(NoEntry::Forgotten) => true,
        Err(NoEntry::Beyond) => false,
    }
}

/// If a log and clerks are settled, settling them can fail only with `Memory`.
pub fn settling_is_exact()
    ensures { (begun : Option ℕ) (kept : RetainedLog) (clerks : List ReceiptsView) (why : SettleFault)
        → Settlement begun kept clerks → Unsettles begun kept clerks why → why ≡ Memory }
{}

/// When a receipt agrees, given that each clerk's numbers rise.
/// The receipt is the log's entry with the receipt's number, or the number is that of a dropped entry. Also,
/// no earlier clerk has a receipt with that number.
pub fn own_numbers_never_clash()
    ensures { (begun : Option ℕ) (kept : RetainedLog) (clerks : List ReceiptsView) (c p : ℕ) (receipt : Receipt)
        → ((d : ℕ) (clerk : ReceiptsView) → slice_get clerks d ≡ Some clerk → RiseAbove 0 clerk.receipts)
        → StandsAt clerks c p receipt
        → Agrees begun kept clerks c p receipt ↔ (IsEntryAbove begun kept receipt × ((d : ℕ) → d < c → HasReceiptNumber clerks d receipt.seq → ⊥)) }
{}
