//! The views of a transcript.

ghost use Rattle.std.specs.Prelude.{IfOk};
ghost use Rattle.transcript_view.specs.Views.{IsPicture, IsEpochTable};

use crate::picture;
use crate::table::epoch_table;
use auditor::{AuditFault, ReplayFault, epochs_of, state_after};
use rule_machine::Want;
use std::alloc::{AllocError, Global};

/// A view of a transcript, or why there is none.
#[derive(Drop)]
pub enum View {
    /// The text of the view.
    Text(Vec<u8>),
    /// The bytes are no transcript of a run; this is their first damage.
    Refused(AuditFault),
    /// The transcript ends before entry `number`.
    TooFew { number: u32, entries: u32 },
    /// The transcript begins with a base after entry `number`.
    Forgotten { number: u32, base: u32 },
}

/// The picture of the state after entry `last`, or after all entries if `last` is `None`.
///
/// For the opening state, `last` is 0, or the number of the base that opens the transcript. No line after
/// entry `last` is looked at. Fails only if memory runs out. Costs the audit of the lines up to that entry,
/// and a look at each node and its neighbours.
pub fn view_picture(alloc: Global, bytes: &[u8], last: Option<u32>) -> Result<View, Want>
    ensures { IfOk result (IsPicture bytes.now last) }
{
    match state_after(alloc, bytes, last) {
        Ok(reached) => {
            let text = picture(alloc, &reached.judge, reached.rules)?;
            Ok(View::Text(text))
        }
        Err(ReplayFault::Judged(AuditFault::Memory)) => Err(AllocError),
        Err(ReplayFault::Judged(damage)) => Ok(View::Refused(damage)),
        Err(ReplayFault::TooFew { number, entries }) => Ok(View::TooFew { number, entries }),
        Err(ReplayFault::Forgotten { number, base }) => Ok(View::Forgotten { number, base }),
    }
}

/// The table of the run's epochs.
///
/// Fails only if memory runs out. Costs the audit with a count of rounds, and a line for each epoch.
pub fn view_epochs(alloc: Global, bytes: &[u8]) -> Result<View, Want>
    ensures { IfOk result (IsEpochTable bytes.now) }
{
    match epochs_of(alloc, bytes) {
        Ok(epochs) => Ok(View::Text(epoch_table(alloc, &epochs)?)),
        Err(AuditFault::Memory) => Err(AllocError),
        Err(damage) => Ok(View::Refused(damage)),
    }
}
