//! Where a run goes on.

ghost use Rattle.std.specs.Prelude.{◌≡◌, ◌+◌, ◌≤◌, ℕ, false, max, min};
ghost use Rattle.std.proofs.Props.{props};
ghost use Rattle.machine_laws.specs.ChargeWords.{charge_bound};
ghost use Rattle.rule_machine.specs.State.{flag};
ghost use Rattle.rule_machine.specs.Tables.{table_of, weight_of};

use crate::options::{Options, USUAL_TURNS};
use net_state::NetState;
use rule_machine::RuleSet;
use script_text::MAX_TURNS;
use steal_pool::MAX_WORKERS;
use step_log::MAX_ENTRIES;

/// Where a run or a storm goes on: a network, the moves since its last accepted disturbance, and the number of
/// its last entry. Also the options of the run or storm from there.
#[derive(Drop)]
pub struct Restart {
    /// The rule set.
    pub rules: RuleSet,
    /// The network.
    pub net: NetState,
    /// The moves since the last accepted disturbance.
    pub spent: u32,
    /// The number of the last entry.
    pub number: u32,
    /// The greatest number of an entry, at most `MAX_ENTRIES`.
    pub limit: u32,
    /// How many workers evaluate a step, 1 to 64.
    pub workers: u32,
    /// How many workers roam a storm's network, at most 64.
    pub roamers: u32,
    /// How many turns each roaming worker takes, at most 1,000,000.
    pub turns: u32,
    ghost within: { spent + (table_of rules).charge net.state ≤ charge_bound (weight_of rules) net.state.network },
    ghost unflagged: { (table_of rules).flags ≡ false → (v : ℕ) → flag net.state v ≡ false } by { Prim.hlevel props },
    ghost numbered: { number ≤ limit },
    ghost few_entries: { limit ≤ 16777216 },
    ghost some_workers: { 1 ≤ workers },
    ghost few_workers: { workers ≤ 64 },
    ghost few_roamers: { roamers ≤ 64 },
    ghost few_turns: { turns ≤ 1000000 },
}

impl Restart {
    ghost use Rattle.script_run.specs.Restarts.{RestartView, options_at, restart_of};
    ghost use Rattle.script_run.specs.RunOptions.{asked_of};

    /// A run or storm under `rules` that goes on with `net` after `spent` moves and `number` entries.
    ///
    /// It has at most `MAX_ENTRIES` entries, the first `number` included, one worker, and no roaming worker.
    pub fn new(rules: RuleSet, net: NetState, spent: u32, number: u32) -> Restart
        requires within { spent + (table_of rules).charge net.state ≤ charge_bound (weight_of rules) net.state.network }
        requires unflagged { (table_of rules).flags ≡ false → (v : ℕ) → flag net.state v ≡ false }
        requires few { number ≤ 16777216 }
        ensures { restart_of result ≡ record { rules = rules; state = net.state; spent = spent; number = number; limit = 16777216; workers = 1; roamers = 0; turns = 1000 } }
    {
        Restart {
            rules,
            net,
            spent,
            number,
            limit: MAX_ENTRIES,
            workers: 1,
            roamers: 0,
            turns: USUAL_TURNS,
        }
    }

    /// This restart, with at most `limit` entries in all.
    ///
    /// A `limit` above `MAX_ENTRIES` counts as `MAX_ENTRIES`, and one below the number of the last entry as
    /// that number.
    pub fn with_limit(mut self, limit: u32) -> Restart
        ensures { restart_of result ≡ record (restart_of self) { limit = max self.number (min limit 16777216) } }
    {
        self.limit = self.number.max(limit.min(MAX_ENTRIES));
        self
    }

    /// This restart, with `workers` workers for each step: 0 counts as 1, and more than 64 as 64.
    pub fn with_workers(mut self, workers: u32) -> Restart
        ensures { restart_of result ≡ record (restart_of self) { workers = min (max workers 1) 64 } }
    {
        self.workers = workers.max(1).min(MAX_WORKERS);
        self
    }

    /// This restart, with `workers` workers that roam a storm's network for `turns` turns each.
    ///
    /// More than 64 workers count as 64, and more than 1,000,000 turns as 1,000,000.
    pub fn with_roam(mut self, workers: u32, turns: u32) -> Restart
        ensures { restart_of result ≡ record (restart_of self) { roamers = min workers 64; turns = min turns 1000000 } }
    {
        self.roamers = workers.min(MAX_WORKERS);
        self.turns = turns.min(MAX_TURNS);
        self
    }

    /// The options of a run on this restart's network: its names, and its nodes as those at the start.
    pub fn options(&self) -> Options
        ensures { asked_of result ≡ options_at (restart_of self.now) }
    {
        Options {
            rules: self.rules,
            nodes: self.net.capacity(),
            present: self.net.nodes(),
            limit: self.limit,
            workers: self.workers,
            roamers: self.roamers,
            turns: self.turns,
        }
    }
}
