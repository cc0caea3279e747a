//! Reading the words of the command line.

ghost use Rattle.std.specs.Prelude.{◌≡◌, ◌≢◌, ◌≤◌, ℕ, List, Option, IfOk, IfErr, IfSome, codes, map, unwrap_or};
ghost use Rattle.std.specs.Borrow.{Bor};
ghost use Rattle.clap.specs.Words.{Text, kind_of, subcommand_rows_of};
ghost use Rattle.clap.specs.declared.error.kind.ErrorKind.TheVariants.{OutOfMemory};
ghost use Rattle.rule_machine.specs.declared.rule_set.RuleSet.{RuleSet};
ghost use Rattle.cli_args.specs.declared.task.Task.{Task};
ghost use Rattle.cli_args.specs.declared.task.Task.TheVariants.{Run, Resume, Audit, Picture, Epochs};
ghost use Rattle.cli_args.specs.Mistake.{IsMistake};
ghost use Rattle.cli_args.specs.TaskWords.{ParsesTo, AreRoamers, AreWorkers, ResumedStorm, Storm, ParsesAsTask, ParsesOnFile, ReadsFrom, WantsResumeStorm, WantsStorm, audit_file_words, audit_words, epochs_file_words, epochs_words, has_from, picture_words, resume_storm_words, resume_words, run_words, usual_resumed_storm};

use crate::command::{command, strict_command};
use crate::task::{Task, input, is_given, task_of};
use clap::error::ErrorKind;
use clap::{ArgMatches, Error};
use std::alloc::Global;
use std::convert::AsStr;

/// What good words ask for.
#[derive(Debug, Drop)]
pub struct Request<'a> {
    /// The task.
    pub task: Task<'a>,
    /// The file that the task reads in place of standard input, as given; `None` for standard input.
    pub file: Option<&'a str>,
}

fn goes_on(found: &ArgMatches<'_>) -> bool
    ensures { result ≡ has_from (subcommand_rows_of found.now) }
{
    match found.subcommand() {
        Some((_, inner)) => is_given(inner, "from"),
        None => false,
    }
}

// Why words that clap took ask for no task: arguments of `run` or `storm` that do not go together, or are
// missing. Or memory ran out.
fn refuse<'a, S: AsStr>(
    alloc: Global,
    found: &ArgMatches<'a>,
    words: &'a [S],
) -> Result<Request<'a>, Error>
    ensures none { IfOk result (λ request. ⊥) }
    ensures mistake { IfErr result (λ e. IsMistake (kind_of e)) }
{
    let mut command = strict_command(alloc, !goes_on(found))?;
    match command.try_get_matches_from_mut(words) {
        Err(error) if error.use_stderr() => Err(error),
        Err(_shown) => Err(command.error(ErrorKind::ValueValidation, "no such task")?),
        Ok(_found) => Err(command.error(ErrorKind::ValueValidation, "no such task")?),
    }
}

/// Reads the words of the command line as clap defines the command. The first is the program's name.
///
/// The file is the one that the words name for the task, if they name one other than `-`.
/// The error is clap's: the words are bad, or memory ran out. For good words that ask for a task, the only
/// error is that memory ran out.
pub fn read_words<'a, S: AsStr>(alloc: Global, words: &'a [S]) -> Result<Request<'a>, Error>
    ensures answers { IfOk result (λ request. ParsesTo (map S.text words.entry.now) request.task) }
    ensures input { IfOk result (λ request. ReadsFrom (map S.text words.entry.now) request.task request.file) }
    ensures mistake { IfErr result (λ e. IsMistake (kind_of e)) }
    ensures wanted { IfErr result (λ e. (task : Task) → ParsesAsTask (map S.text words.entry.now) task → kind_of e ≡ OutOfMemory) }
    ensures wanted_storm { IfErr result (λ e. (storm : Storm) → WantsStorm (map S.text words.entry.now) storm → kind_of e ≡ OutOfMemory) }
    ensures wanted_resume { IfErr result (λ e. (storm : ResumedStorm) → WantsResumeStorm (map S.text words.entry.now) storm → kind_of e ≡ OutOfMemory) }
{
    let mut command = command(alloc)?;
    match command.try_get_matches_from_mut(words) {
        Ok(found) => match task_of(alloc, &found) {
            Ok(Some(task)) => Ok(Request {
                task,
                file: input(&found),
            }),
            Ok(None) => refuse(alloc, &found, words),
            Err(error) => Err(error),
        },
        Err(error) if error.use_stderr() => Err(error),
        Err(text) => Ok(Request {
            task: Task::Show(text),
            file: None,
        }),
    }
}

/// The usual words are good and ask for their tasks. By default a run has one worker, also one that goes on;
/// and a storm that goes on has one worker for a step and no roaming worker. A file is named after `--`.
pub fn usual_words()
    ensures run { (program : Text) (rules : RuleSet) (nodes : ℕ) (present workers : Option ℕ)
        → nodes ≤ 65535 → IfSome present (λ p. p ≤ 65535) → AreWorkers workers
        → ParsesAsTask (run_words program rules nodes present workers) (Run rules nodes present (unwrap_or workers 1)) }
    ensures resume { (program : Text) (from : Bor Text) (workers : Option ℕ) → AreWorkers workers
        → ParsesAsTask (resume_words program from.now workers) (Resume from (unwrap_or workers 1)) }
    ensures resume_storm { (program from : Text) (workers : Option ℕ) (roam : Option (ℕ × ℕ)) (script : Text)
        → AreWorkers workers → AreRoamers roam
        → WantsResumeStorm (resume_storm_words program from workers roam script) (usual_resumed_storm from workers roam script) }
    ensures audit { (program : Text) → ParsesAsTask (audit_words program) Audit }
    ensures picture { (program : Text) (entry : Option ℕ) → IfSome entry (λ k. k ≤ 16777216) → ParsesAsTask (picture_words program entry) (Picture entry) }
    ensures epochs { (program : Text) → ParsesAsTask (epochs_words program) Epochs }
    ensures audit_file { (program : Text) (file : Bor Text) → file.now ≢ codes "-" → ParsesOnFile (audit_file_words program file.now) Audit file }
    ensures epochs_file { (program : Text) (file : Bor Text) → file.now ≢ codes "-" → ParsesOnFile (epochs_file_words program file.now) Epochs file }
{}
