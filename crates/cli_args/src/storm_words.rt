//! The words of a storm.

ghost use Rattle.std.specs.Prelude.{◌≡◌, ◌^◌, ℕ, Some, IfErr, IfOk, MatchOption, codes};
ghost use Rattle.clap.specs.Words.{first_of, found_of, kind_of, rows_of};
ghost use Rattle.clap.specs.declared.error.kind.ErrorKind.TheVariants.{OutOfMemory};
ghost use Rattle.cli_args.specs.StormLoads.{HoldsLoad, Load, load_of};
ghost use Rattle.cli_args.specs.TaskWords.{GivesNumber, HoldsNoStorm, HoldsResumeStorm, HoldsStorm, IsLeftOut, MatchesTask, ResumedStorm, Storm};

use crate::task::{Task, is_given, network, number};
use clap::{ArgMatches, Error};
use rule_machine::RuleSet;
use std::alloc::Global;

/// The arguments of a storm.
#[derive(Debug, Drop)]
pub struct StormWords<'a> {
    /// The rule set.
    pub rules: RuleSet,
    /// How many names there are; the names begin at 1.
    pub nodes: u16,
    /// How many nodes are present at the start; `None` means all.
    pub present: Option<u16>,
    /// How many workers evaluate a step, 1 to 64.
    pub workers: u16,
    /// How many workers roam during the scripts, at most 64.
    pub roamers: u16,
    /// How many turns each roaming worker takes, at most 1,000,000.
    pub turns: u32,
    /// The names of the script files as given, at least one.
    pub scripts: Vec<&'a str>,
}

/// The arguments of a storm that goes on where the run of a file ended.
#[derive(Debug, Drop)]
pub struct ResumeStormWords<'a> {
    /// The name of that file as given.
    pub from: &'a str,
    /// How many workers evaluate a step, 1 to 64.
    pub workers: u16,
    /// How many workers roam during the scripts, at most 64.
    pub roamers: u16,
    /// How many turns each roaming worker takes, at most 1,000,000.
    pub turns: u32,
    /// The names of the script files as given, at least one.
    pub scripts: Vec<&'a str>,
}

/// What a storm plays, on whichever network.
#[derive(Drop)]
struct StormLoad<'a> {
    roamers: u16,
    turns: u32,
    scripts: Vec<&'a str>,
}

fn turns(storm: &ArgMatches<'_>) -> Option<u32>
    ensures { MatchOption result
        ((n : ℕ) → GivesNumber (2 ^ 32) (codes "turns") (rows_of (found_of storm.now)) n → ⊥)
        (λ n. GivesNumber (2 ^ 32) (codes "turns") (rows_of (found_of storm.now)) n) }
{
    storm.get_one::<u32>("turns")
}

fn load<'a>(alloc: Global, storm: &ArgMatches<'a>) -> Result<Option<StormLoad<'a>>, Error>
    ensures read { IfOk result (λ read. MatchOption read
        ((load : Load) → HoldsLoad (rows_of (found_of storm.now)) load → ⊥)
        (λ load. HoldsLoad (rows_of (found_of storm.now)) (load_of load))) }
    ensures memory { IfErr result (λ e. kind_of e ≡ OutOfMemory) }
{
    let Some(roamers) = number(storm, "roam") else {
        return Ok(None);
    };
    let Some(turns) = turns(storm) else {
        return Ok(None);
    };
    let Some(given) = storm.get_strs("SCRIPT") else {
        return Ok(None);
    };
    let mut scripts = Vec::new(alloc);
    scripts.extend_from_slice(given)?;
    Ok(Some(StormLoad {
        roamers,
        turns,
        scripts,
    }))
}

fn fresh_storm<'a>(alloc: Global, storm: &ArgMatches<'a>) -> Result<Option<Task<'a>>, Error>
    requires { IsLeftOut (codes "from") (rows_of (found_of storm.now)) }
    ensures read { IfOk result (λ read. MatchOption read
        ((words : Storm) → HoldsStorm (rows_of (found_of storm.now)) words → ⊥)
        (λ task. MatchesTask (Some (codes "storm", rows_of (found_of storm.now))) task)) }
    ensures memory { IfErr result (λ e. kind_of e ≡ OutOfMemory) }
{
    let Some((rules, nodes, present, workers)) = network(storm) else {
        return Ok(None);
    };
    let Some(load) = load(alloc, storm)? else {
        return Ok(None);
    };
    Ok(Some(Task::Storm(StormWords {
        rules,
        nodes,
        present,
        workers,
        roamers: load.roamers,
        turns: load.turns,
        scripts: load.scripts,
    })))
}

fn resumed_storm<'a>(
    alloc: Global,
    storm: &ArgMatches<'a>,
    from: &'a str,
) -> Result<Option<Task<'a>>, Error>
    requires { first_of (codes "from") (rows_of (found_of storm.now)) ≡ Some from.now }
    ensures read { IfOk result (λ read. MatchOption read
        ((words : ResumedStorm) → HoldsResumeStorm (rows_of (found_of storm.now)) words → ⊥)
        (λ task. MatchesTask (Some (codes "storm", rows_of (found_of storm.now))) task)) }
    ensures memory { IfErr result (λ e. kind_of e ≡ OutOfMemory) }
{
    if is_given(storm, "rules") || is_given(storm, "nodes") || is_given(storm, "present") {
        return Ok(None);
    }
    let Some(load) = load(alloc, storm)? else {
        return Ok(None);
    };
    let Some(workers) = number(storm, "workers") else {
        return Ok(None);
    };
    Ok(Some(Task::ResumeStorm(ResumeStormWords {
        from,
        workers,
        roamers: load.roamers,
        turns: load.turns,
        scripts: load.scripts,
    })))
}

/// `None` if a value is missing or is not one that its argument allows, or if values do not go together.
pub(crate) fn storm_task<'a>(
    alloc: Global,
    storm: &ArgMatches<'a>,
) -> Result<Option<Task<'a>>, Error>
    ensures read { IfOk result (λ read. MatchOption read
        (HoldsNoStorm (rows_of (found_of storm.now)))
        (λ task. MatchesTask (Some (codes "storm", rows_of (found_of storm.now))) task)) }
    ensures memory { IfErr result (λ e. kind_of e ≡ OutOfMemory) }
{
    match storm.get_str("from") {
        Some(from) => resumed_storm(alloc, storm, from),
        None => fresh_storm(alloc, storm),
    }
}
