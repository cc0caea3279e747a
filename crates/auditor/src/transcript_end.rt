//! Where the run of a transcript ends.

ghost use Rattle.std.specs.Prelude.{◌≡◌, ℕ, List, []};
ghost use Rattle.auditor.specs.TranscriptCursors.{IsCursorAt, IsReachable};
ghost use Rattle.auditor.specs.TranscriptEnds.{IsTranscriptEnd, MayGoOn, summary_in};

use crate::transcript_cursor::TranscriptCursor;
use crate::{AuditFault, Summary};
use net_state::NetState;
use rule_machine::{MAX_EDGES, MAX_NAME, RuleSet};

/// Where the run of a transcript ends: all that a run needs to go on from there.
#[derive(Drop)]
pub struct TranscriptEnd {
    /// The rules of the run.
    pub rules: RuleSet,
    /// The counts of the transcript.
    pub summary: Summary,
    /// The number of the last entry; if there is none, that of the base that opens the transcript, or 0.
    pub number: u32,
    /// The moves since the last accepted disturbance, or since the start.
    pub spent: u32,
    /// The network.
    pub net: NetState,
}

pub(crate) fn summary_of(found: Result<TranscriptEnd, AuditFault>) -> Result<Summary, AuditFault>
    ensures { result ≡ summary_in found }
{
    match found {
        Ok(end) => Ok(end.summary),
        Err(fault) => Err(fault),
    }
}

impl TranscriptCursor {
    pub(crate) fn into_end(self) -> TranscriptEnd
        requires { IsReachable self [] }
        ensures ended { (bytes : List ℕ) → IsCursorAt bytes self [] → IsTranscriptEnd bytes result }
        ensures goes_on { MayGoOn result }
    {
        let TranscriptCursor { rules, audit, .. } = self;
        let summary = audit.counted();
        let number = audit.number();
        let spent = audit.spent();
        let net = audit.into_judge().into_net();
        prove!(net.nodes() <= MAX_NAME);
        prove!(net.edges() <= MAX_EDGES);
        TranscriptEnd {
            rules,
            summary,
            number,
            // The cast is exact: the moves are within the bound of the network.
            spent: spent as u32,
            net,
        }
    }
}
