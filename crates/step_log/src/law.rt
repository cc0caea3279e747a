//! Consequences of the headline `Upholds`: each rule set's bound, and the moments of prefixes.
//! A consequence of `AreEpochRounds`: each epoch's rounds by its number.

ghost use Rattle.std.specs.Prelude.{◌≡◌, ◌≤◌, ◌+◌, ◌*◌, ◌++◌, ℕ, List, Option, All, map};
ghost use Rattle.rule_machine.specs.HsuHuang.{hsu_huang};
ghost use Rattle.rule_machine.specs.Manne.{manne};
ghost use Rattle.rule_machine.specs.Network.{node_count, edge_count};
ghost use Rattle.rule_machine.specs.Run.{Entry, Moment};
ghost use Rattle.rule_machine.specs.RuleTable.{RuleTable};
ghost use Rattle.rule_machine.specs.State.{State};
ghost use Rattle.machine_laws.specs.ChargeWords.{IsUndisturbed, moves_in};
ghost use Rattle.machine_laws.specs.Epochs.{IsPath};
ghost use Rattle.round_laws.specs.RoundCounts.{RoundCount};
ghost use Rattle.step_log.specs.declared.epoch.Epoch.{Epoch};
ghost use Rattle.step_log.specs.Epochs.{epochs_along};
ghost use Rattle.step_log.specs.Headline.{Upholds, LeadsTo};
ghost use Rattle.step_log.specs.JournalRounds.{AreEpochRounds, HasRoundsByNumber};
ghost use Rattle.step_log.specs.RetainedLogs.{RetainedLog, Begins};

/// Between two disturbances a log has at most 2m + n moves under `hh` and 2m + 3n under `manne`.
/// Here m and n are the numbers of edges and nodes in that time; the remaining charge counts as moves too.
/// Rules: Hsu and Huang (1992); Manne, Mjelde, Pilard and Tixeuil (2009).
pub fn budgets_by_name()
    ensures hsu_huang { (kept : RetainedLog) → Upholds hsu_huang 1 kept
        → (before calm after : List Entry) (m n : Moment) → before ++ (calm ++ after) ≡ kept.entries
        → LeadsTo hsu_huang 1 kept before m → LeadsTo hsu_huang 1 kept (before ++ calm) n → IsUndisturbed calm
        → moves_in calm + hsu_huang.charge n.state ≤ 2 * edge_count m.state.network + node_count m.state.network }
    ensures manne { (kept : RetainedLog) → Upholds manne 3 kept
        → (before calm after : List Entry) (m n : Moment) → before ++ (calm ++ after) ≡ kept.entries
        → LeadsTo manne 3 kept before m → LeadsTo manne 3 kept (before ++ calm) n → IsUndisturbed calm
        → moves_in calm + manne.charge n.state ≤ 2 * edge_count m.state.network + 3 * node_count m.state.network }
{}

/// An epoch with m edges and n nodes has at most 2m + n moves under `hh` and 2m + 3n under `manne`.
pub fn epochs_by_name()
    ensures hsu_huang { (kept : RetainedLog) → Upholds hsu_huang 1 kept
        → (start : Moment) (path : List (Entry × State)) → Begins hsu_huang 1 kept start → map (λ step. step.0) path ≡ kept.entries → IsPath hsu_huang start path
        → All (λ epoch. epoch.moves ≤ 2 * epoch.edges + epoch.nodes) (epochs_along kept start path) }
    ensures manne { (kept : RetainedLog) → Upholds manne 3 kept
        → (start : Moment) (path : List (Entry × State)) → Begins manne 3 kept start → map (λ step. step.0) path ≡ kept.entries → IsPath manne start path
        → All (λ epoch. epoch.moves ≤ 2 * epoch.edges + 3 * epoch.nodes) (epochs_along kept start path) }
{}

/// Each prefix of the kept entries leads to exactly one moment.
pub fn beginnings_lead_somewhere()
    ensures { (t : RuleTable) (weight : ℕ) (kept : RetainedLog) → Upholds t weight kept
        → (before after : List Entry) → before ++ after ≡ kept.entries
        → (m : Moment) × LeadsTo t weight kept before m × ((n : Moment) → LeadsTo t weight kept before n → n ≡ m) }
{}

/// If a journal's count begins with an epoch, the epoch's rounds are those of its entries.
/// The epoch's entries are those from its start up to the next accepted disturbance, or the last.
pub fn epoch_rounds_by_number()
    ensures { (t : RuleTable) (weight : ℕ) (kept : RetainedLog) (from : Option ℕ) (counting : Option RoundCount) (epochs : List Epoch)
        → AreEpochRounds t weight kept from counting epochs → All (HasRoundsByNumber t weight kept from counting) epochs }
{}
