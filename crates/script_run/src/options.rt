//! The options of a run or a storm.

ghost use Rattle.std.specs.Prelude.{◌≡◌, ◌<◌, ◌≤◌, ◌↔◌, max, min, IsNone, IfSome};

use rule_machine::{MAX_NAME, RuleSet};
use script_text::MAX_TURNS;
use steal_pool::MAX_WORKERS;
use step_log::MAX_ENTRIES;

/// How many turns a roaming worker takes by default.
pub(crate) const USUAL_TURNS: u32 = 1_000;

/// The options of a run, and the roaming workers of a storm.
#[derive(Clone, Copy, Debug, PartialEq, Eq)]
pub struct Options {
    pub(crate) rules: RuleSet,
    pub(crate) nodes: u32,
    pub(crate) present: u32,
    pub(crate) limit: u32,
    pub(crate) workers: u32,
    pub(crate) roamers: u32,
    pub(crate) turns: u32,
    ghost few_nodes: { nodes ≤ 65535 },
    ghost within: { present ≤ nodes },
    ghost few_entries: { limit ≤ 16777216 },
    ghost some_workers: { 1 ≤ workers },
    ghost few_workers: { workers ≤ 64 },
    ghost few_roamers: { roamers ≤ 64 },
    ghost few_turns: { turns ≤ 1000000 },
}

impl Options {
    ghost use Rattle.script_run.specs.RunOptions.{asked_of, usual};

    /// The options of a run on the nodes 1 to `nodes`, all present; `None` if `nodes` is above 65,535.
    ///
    /// The run has at most `MAX_ENTRIES` entries, one worker, and no roaming worker.
    pub fn new(rules: RuleSet, nodes: u32) -> Option<Options>
        ensures none { IsNone result ↔ 65535 < nodes }
        ensures options { IfSome result (λ options. asked_of options ≡ usual rules nodes) }
    {
        if nodes > MAX_NAME {
            return None;
        }
        Some(Options {
            rules,
            nodes,
            present: nodes,
            limit: MAX_ENTRIES,
            workers: 1,
            roamers: 0,
            turns: USUAL_TURNS,
        })
    }

    /// These options, with the names 1 to `present` present at the start and the others absent.
    ///
    /// A `present` above the number of names counts as that number.
    pub fn with_present(mut self, present: u32) -> Options
        ensures { asked_of result ≡ record (asked_of self) { present = min present self.nodes } }
    {
        self.present = present.min(self.nodes);
        self
    }

    /// These options, with at most `limit` entries; a `limit` above `MAX_ENTRIES` counts as `MAX_ENTRIES`.
    pub fn with_limit(mut self, limit: u32) -> Options
        ensures { asked_of result ≡ record (asked_of self) { limit = min limit 16777216 } }
    {
        self.limit = limit.min(MAX_ENTRIES);
        self
    }

    /// These options, with `workers` workers for each step: 0 counts as 1, and more than 64 as 64.
    pub fn with_workers(mut self, workers: u32) -> Options
        ensures { asked_of result ≡ record (asked_of self) { workers = min (max workers 1) 64 } }
    {
        self.workers = workers.max(1).min(MAX_WORKERS);
        self
    }

    /// These options, with `workers` workers that roam a storm's network for `turns` turns each.
    ///
    /// More than 64 workers count as 64, and more than 1,000,000 turns as 1,000,000.
    pub fn with_roam(mut self, workers: u32, turns: u32) -> Options
        ensures { asked_of result ≡ record (asked_of self) { roamers = min workers 64; turns = min turns 1000000 } }
    {
        self.roamers = workers.min(MAX_WORKERS);
        self.turns = turns.min(MAX_TURNS);
        self
    }

    /// The rule set.
    pub fn rules(&self) -> RuleSet
        ensures { result ≡ self.now.rules }
    {
        self.rules
    }

    /// How many names there are, at most 65,535.
    pub fn nodes(&self) -> u32
        ensures count { result ≡ self.now.nodes }
        ensures few { result ≤ 65535 }
    {
        self.nodes
    }

    /// How many names, from 1 on, are present at the start.
    pub fn present(&self) -> u32
        ensures count { result ≡ self.now.present }
        ensures within { result ≤ self.now.nodes }
    {
        self.present
    }

    /// The greatest number of entries, at most `MAX_ENTRIES`.
    pub fn limit(&self) -> u32
        ensures count { result ≡ self.now.limit }
        ensures few { result ≤ 16777216 }
    {
        self.limit
    }

    /// How many workers evaluate a step, 1 to 64.
    pub fn workers(&self) -> u32
        ensures count { result ≡ self.now.workers }
        ensures some { 1 ≤ result }
        ensures few { result ≤ 64 }
    {
        self.workers
    }

    /// How many workers roam a storm's network, at most 64.
    pub fn roamers(&self) -> u32
        ensures count { result ≡ self.now.roamers }
        ensures few { result ≤ 64 }
    {
        self.roamers
    }

    /// How many turns each roaming worker takes, at most 1,000,000.
    pub fn turns(&self) -> u32
        ensures count { result ≡ self.now.turns }
        ensures few { result ≤ 1000000 }
    {
        self.turns
    }
}
