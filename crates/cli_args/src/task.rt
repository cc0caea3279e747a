//! The tasks of the command line.

ghost use Rattle.std.specs.Prelude.{◌≡◌, ◌≤◌, ◌^◌, ℕ, Option, Some, is_some, IfErr, IfOk, IfSome, MatchOption, codes};
ghost use Rattle.clap.specs.Words.{first_of, found_of, kind_of, rows_of, subcommand_rows_of};
ghost use Rattle.clap.specs.declared.error.kind.ErrorKind.TheVariants.{OutOfMemory};
ghost use Rattle.rule_machine.specs.declared.rule_set.RuleSet.{RuleSet};
ghost use Rattle.rule_machine.specs.Tables.{rules_word};
ghost use Rattle.cli_args.specs.TaskWords.{GivesNumber, HasInput, HoldsNoTask, HoldsRun, IsInput, IsLeftOut, MatchesTask, HoldsNothing, present_at_start};

use crate::storm_words::{ResumeStormWords, StormWords, storm_task};
use clap::{ArgMatches, Error};
use rule_machine::RuleSet;
use std::alloc::Global;

/// The task that good words ask for.
#[derive(Debug, Drop)]
pub enum Task<'a> {
    /// Run a script under a rule set, with this many names, and this many workers for each step.
    ///
    /// The nodes 1 to `present` are present at the start, or all if `present` is `None`.
    Run {
        rules: RuleSet,
        nodes: u16,
        present: Option<u16>,
        workers: u16,
    },
    /// Run a script from where the run of the file `from` ended, with this many workers for each step.
    Resume {
        from: &'a str,
        workers: u16,
    },
    /// Judge a transcript.
    Audit,
    /// Draw the network after this entry of a transcript, or after the last entry.
    Picture {
        entry: Option<u32>,
    },
    /// List the epochs of a transcript.
    Epochs,
    /// Play several scripts at once.
    Storm(StormWords<'a>),
    /// Play several scripts at once, from where the run of a file ended.
    ResumeStorm(ResumeStormWords<'a>),
    /// Show this text: the help or the version.
    Show(Error),
}

fn rules_named(word: &str) -> Option<RuleSet>
    ensures { MatchOption result
        ((rules : RuleSet) → word.now ≡ rules_word rules → ⊥)
        (λ rules. word.now ≡ rules_word rules) }
{
    if word == RuleSet::Hh.word() {
        return Some(RuleSet::Hh);
    }
    if word == RuleSet::Manne.word() {
        return Some(RuleSet::Manne);
    }
    None
}

/// The number that is an argument's value; `None` if there is none, or none below 65,536.
pub(crate) fn number(found: &ArgMatches<'_>, id: &str) -> Option<u16>
    ensures { MatchOption result
        ((n : ℕ) → GivesNumber (2 ^ 16) id.now (rows_of (found_of found.now)) n → ⊥)
        (λ n. GivesNumber (2 ^ 16) id.now (rows_of (found_of found.now)) n) }
{
    found.get_one::<u16>(id)
}

/// `None` if a value is missing or is not one that its argument allows.
pub(crate) fn network(found: &ArgMatches<'_>) -> Option<(RuleSet, u16, Option<u16>, u16)>
    ensures { MatchOption result
        ((rules : RuleSet) (nodes : ℕ) (present : Option ℕ) (workers : ℕ) → HoldsRun (rows_of (found_of found.now)) rules nodes present workers → ⊥)
        (λ network. HoldsRun (rows_of (found_of found.now)) network.0 network.1 network.2 network.3) }
{
    let Some(word) = found.get_str("rules") else {
        return None;
    };
    let Some(rules) = rules_named(word) else {
        return None;
    };
    let Some(nodes) = number(found, "nodes") else {
        return None;
    };
    let Ok(present) = found.try_get_one::<u16>("present") else {
        return None;
    };
    let Some(workers) = number(found, "workers") else {
        return None;
    };
    Some((rules, nodes, present, workers))
}

/// Whether the argument is given.
pub(crate) fn is_given(found: &ArgMatches<'_>, id: &str) -> bool
    ensures { result ≡ is_some (first_of id.now (rows_of (found_of found.now))) }
{
    found.get_str(id).is_some()
}

fn fresh_run<'a>(run: &ArgMatches<'a>) -> Option<Task<'a>>
    requires { IsLeftOut (codes "from") (rows_of (found_of run.now)) }
    ensures { MatchOption result (HoldsNoTask (codes "run") (rows_of (found_of run.now)))
        (λ task. MatchesTask (Some (codes "run", rows_of (found_of run.now))) task) }
{
    let Some((rules, nodes, present, workers)) = network(run) else {
        return None;
    };
    Some(Task::Run {
        rules,
        nodes,
        present,
        workers,
    })
}

fn resumed_run<'a>(run: &ArgMatches<'a>, from: &'a str) -> Option<Task<'a>>
    requires { first_of (codes "from") (rows_of (found_of run.now)) ≡ Some from.now }
    ensures { MatchOption result (HoldsNoTask (codes "run") (rows_of (found_of run.now)))
        (λ task. MatchesTask (Some (codes "run", rows_of (found_of run.now))) task) }
{
    if is_given(run, "rules") || is_given(run, "nodes") || is_given(run, "present") {
        return None;
    }
    let Some(workers) = number(run, "workers") else {
        return None;
    };
    Some(Task::Resume { from, workers })
}

fn run_task<'a>(run: &ArgMatches<'a>) -> Option<Task<'a>>
    ensures { MatchOption result (HoldsNoTask (codes "run") (rows_of (found_of run.now)))
        (λ task. MatchesTask (Some (codes "run", rows_of (found_of run.now))) task) }
{
    match run.get_str("from") {
        Some(from) => resumed_run(run, from),
        None => fresh_run(run),
    }
}

fn picture_task<'a>(picture: &ArgMatches<'a>) -> Option<Task<'a>>
    ensures { MatchOption result
        (HoldsNoTask (codes "picture") (rows_of (found_of picture.now)))
        (λ task. MatchesTask (Some (codes "picture", rows_of (found_of picture.now))) task) }
{
    match picture.try_get_one::<u32>("entry") {
        Ok(entry) => Some(Task::Picture { entry }),
        Err(_) => None,
    }
}

/// The task that clap's result asks for; `None` if it asks for none. Fails only if memory runs out.
pub(crate) fn task_of<'a>(alloc: Global, found: &ArgMatches<'a>) -> Result<Option<Task<'a>>, Error>
    ensures read { IfOk result (λ read. MatchOption read
        (HoldsNothing (subcommand_rows_of found.now))
        (λ task. MatchesTask (subcommand_rows_of found.now) task)) }
    ensures memory { IfErr result (λ e. kind_of e ≡ OutOfMemory) }
{
    let Some((name, inner)) = found.subcommand() else {
        return Ok(None);
    };
    if name == "run" {
        return Ok(run_task(inner));
    }
    if name == "audit" {
        return Ok(Some(Task::Audit));
    }
    if name == "picture" {
        return Ok(picture_task(inner));
    }
    if name == "epochs" {
        return Ok(Some(Task::Epochs));
    }
    if name == "storm" {
        return storm_task(alloc, inner);
    }
    Ok(None)
}

fn unless_dash(name: &str) -> Option<&str>
    ensures { IsInput (Some name.now) result }
{
    if name == "-" {
        return None;
    }
    Some(name)
}

// `None` if no file is named, or `-`.
fn input_named<'a>(found: &ArgMatches<'a>) -> Option<&'a str>
    ensures { IsInput (first_of (codes "FILE") (rows_of (found_of found.now))) result }
{
    match found.get_str("FILE") {
        Some(name) => unless_dash(name),
        None => None,
    }
}

/// The file that is read in place of standard input; `None` if no file is named, or `-`.
pub(crate) fn input<'a>(found: &ArgMatches<'a>) -> Option<&'a str>
    ensures { HasInput (subcommand_rows_of found.now) result }
{
    match found.subcommand() {
        Some((_, inner)) => input_named(inner),
        None => None,
    }
}

/// How many of `nodes` names are present at the start: `named`, or all if `named` is `None`.
///
/// `None` if `named` is above `nodes`.
pub fn present_at_start(nodes: u16, named: Option<u16>) -> Option<u16>
    ensures number { result ≡ present_at_start nodes named }
    ensures within { IfSome result (λ present. present ≤ nodes) }
{
    match named {
        Some(present) if present > nodes => None,
        Some(present) => Some(present),
        None => Some(nodes),
    }
}
