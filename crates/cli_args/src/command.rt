//! The clap command that reads the words.

ghost use Rattle.std.specs.Prelude.{◌≡◌, false, map, IfOk, codes};
ghost use Rattle.clap.specs.Words.{app_of, new_app};
ghost use Rattle.clap.specs.declared.builder.command.Command.TheViews.{out-Command as fields_of};
ghost use Rattle.cli_args.specs.TaskWords.{AreRules, Builds, Declares, Names, console_app, entry_rule, file_rule, filed_app, from_rule, judging_app, network_app, nodes_rule, picture_app, present_rule, roam_rule, roaming_app, rules_rule, run_app, script_rule, showing_app, storm_app, strict_app, strict_from_rule, strict_run_app, strict_storm_app, top_app, turns_rule, valued_rule, without_from, workers_rule};

use crate::help::{
    ABOUT, AUDIT_ABOUT, AUDIT_NOTES, AUDIT_USAGE, ENTRY_HELP, EPOCHS_ABOUT, EPOCHS_NOTES,
    EPOCHS_USAGE, EXAMPLES, FILE_HELP, FROM_HELP, NODES_HELP, PICTURE_ABOUT, PICTURE_NOTES,
    PICTURE_USAGE, PRESENT_HELP, ROAM_HELP, RULES_HELP, RUN_ABOUT, RUN_NOTES, RUN_USAGE,
    SCRIPT_HELP, STORM_ABOUT, STORM_NOTES, STORM_USAGE, TURNS_HELP, WORKERS_HELP,
};
use clap::{Arg, Command, value_parser};
use std::alloc::{AllocError, Global};

static RULES: [&str; 2] = ["hh", "manne"];

fn valued_arg<'a>(alloc: Global, name: &'a str, value: &'a str, help: &'a str) -> Arg<'a>
    ensures { Declares result (valued_rule name.entry.now) }
{
    Arg::new(alloc, name)
        .long(name)
        .value_name(value)
        .help(help)
}

fn rules_arg<'a>(alloc: Global, required: bool, names: &'a [&'a str]) -> Arg<'a>
    ensures { Declares result (rules_rule required names.entry) }
{
    valued_arg(alloc, "rules", "RULES", RULES_HELP)
        .required(required)
        .value_parser(names)
}

fn nodes_arg<'a>(alloc: Global, required: bool) -> Arg<'a>
    ensures { Declares result (nodes_rule required) }
{
    valued_arg(alloc, "nodes", "N", NODES_HELP)
        .required(required)
        .value_parser(value_parser!(u16))
}

fn present_arg<'a>(alloc: Global) -> Arg<'a>
    ensures { Declares result present_rule }
{
    valued_arg(alloc, "present", "P", PRESENT_HELP).value_parser(value_parser!(u16))
}

fn workers_arg<'a>(alloc: Global) -> Arg<'a>
    ensures { Declares result workers_rule }
{
    valued_arg(alloc, "workers", "K", WORKERS_HELP)
        .default_value("1")
        .value_parser(value_parser!(u16).range(1..=64))
}

fn from_arg<'a>(alloc: Global) -> Arg<'a>
    ensures { Declares result from_rule }
{
    valued_arg(alloc, "from", "FILE", FROM_HELP)
}

fn file_arg<'a>(alloc: Global, value: &'a str, help: &'a str) -> Arg<'a>
    ensures { Declares result file_rule }
{
    Arg::new(alloc, "FILE").value_name(value).help(help)
}

fn told_command<'a>(alloc: Global, name: &'a str, about: &'a str, notes: &'a str) -> Command<'a>
    ensures { Builds result (new_app name.entry.now) }
{
    Command::new(alloc, name).about(about).after_help(notes)
}

fn reading_command<'a>(
    alloc: Global,
    name: &'a str,
    about: &'a str,
    notes: &'a str,
    usage: &'a str,
) -> Command<'a>
    ensures { Builds result (new_app name.entry.now) }
{
    told_command(alloc, name, about, notes).override_usage(usage)
}

fn network_command<'a>(
    alloc: Global,
    command: Command<'a>,
    required: bool,
    names: &'a [&'a str],
) -> Result<Command<'a>, AllocError>
    requires { (fields_of command).has_globals ≡ false }
    ensures { IfOk result (λ more. Builds more (network_app (app_of command.entry) required names.entry)) }
{
    command
        .arg(rules_arg(alloc, required, names))?
        .arg(nodes_arg(alloc, required))?
        .arg(present_arg(alloc))?
        .arg(workers_arg(alloc))
}

fn run_command<'a>(alloc: Global, names: &'a [&'a str]) -> Result<Command<'a>, AllocError>
    ensures { IfOk result (λ run. Builds run (run_app names.entry)) }
{
    let run = reading_command(alloc, "run", RUN_ABOUT, RUN_NOTES, RUN_USAGE);
    network_command(alloc, run, false, names)?
        .arg(from_arg(alloc))?
        .arg(file_arg(alloc, "SCRIPT", SCRIPT_HELP))
}

fn filed_command<'a>(
    alloc: Global,
    name: &'a str,
    about: &'a str,
    notes: &'a str,
    usage: &'a str,
) -> Result<Command<'a>, AllocError>
    ensures { IfOk result (λ filed. Builds filed (filed_app name.entry.now)) }
{
    reading_command(alloc, name, about, notes, usage).arg(file_arg(alloc, "FILE", FILE_HELP))
}

fn entry_arg<'a>(alloc: Global) -> Arg<'a>
    ensures { Declares result entry_rule }
{
    valued_arg(alloc, "entry", "K", ENTRY_HELP).value_parser(value_parser!(u32).range(
        ..=16_777_216,
    ))
}

fn picture_command<'a>(alloc: Global) -> Result<Command<'a>, AllocError>
    ensures { IfOk result (λ picture. Builds picture picture_app) }
{
    reading_command(
        alloc,
        "picture",
        PICTURE_ABOUT,
        PICTURE_NOTES,
        PICTURE_USAGE,
    )
    .arg(entry_arg(alloc))?
    .arg(file_arg(alloc, "FILE", FILE_HELP))
}

fn roam_arg<'a>(alloc: Global) -> Arg<'a>
    ensures { Declares result roam_rule }
{
    valued_arg(alloc, "roam", "W", ROAM_HELP)
        .default_value("0")
        .value_parser(value_parser!(u16).range(..=64))
}

fn turns_arg<'a>(alloc: Global) -> Arg<'a>
    ensures { Declares result turns_rule }
{
    valued_arg(alloc, "turns", "T", TURNS_HELP)
        .default_value("1000")
        .value_parser(value_parser!(u32).range(..=1_000_000))
}

fn script_arg<'a>(alloc: Global) -> Arg<'a>
    ensures { Declares result script_rule }
{
    Arg::new(alloc, "SCRIPT")
        .required(true)
        .num_args(1..)
        .help("The file of a script; at most 64 of them")
}

fn roaming_command<'a>(alloc: Global, command: Command<'a>) -> Result<Command<'a>, AllocError>
    requires { (fields_of command).has_globals ≡ false }
    ensures { IfOk result (λ more. Builds more (roaming_app (app_of command.entry))) }
{
    command
        .arg(roam_arg(alloc))?
        .arg(turns_arg(alloc))?
        .arg(script_arg(alloc))
}

fn storm_command<'a>(alloc: Global, names: &'a [&'a str]) -> Result<Command<'a>, AllocError>
    ensures { IfOk result (λ storm. Builds storm (storm_app names.entry)) }
{
    let storm = reading_command(alloc, "storm", STORM_ABOUT, STORM_NOTES, STORM_USAGE);
    let storm = network_command(alloc, storm, false, names)?.arg(from_arg(alloc))?;
    roaming_command(alloc, storm)
}

fn top_command<'a>(alloc: Global) -> Command<'a>
    ensures { app_of result ≡ top_app }
{
    Command::new(alloc, "console")
        .version("1.0.0")
        .about(ABOUT)
        .after_help(EXAMPLES)
        .subcommand_required(true)
        .arg_required_else_help(true)
}

fn judging_command<'a>(alloc: Global, names: &'a [&'a str]) -> Result<Command<'a>, AllocError>
    ensures { IfOk result (λ command. app_of command ≡ judging_app names.entry) }
{
    top_command(alloc)
        .subcommand(run_command(alloc, names)?)?
        .subcommand(filed_command(alloc, "audit", AUDIT_ABOUT, AUDIT_NOTES, AUDIT_USAGE)?)
}

fn showing_command<'a>(alloc: Global, names: &'a [&'a str]) -> Result<Command<'a>, AllocError>
    ensures { IfOk result (λ command. app_of command ≡ showing_app names.entry) }
{
    judging_command(alloc, names)?
        .subcommand(picture_command(alloc)?)?
        .subcommand(filed_command(alloc, "epochs", EPOCHS_ABOUT, EPOCHS_NOTES, EPOCHS_USAGE)?)
}

/// The command with all subcommands.
///
/// | Subcommand | Arguments |
/// |---|---|
/// | `run` | `--rules`, `--nodes`, `--present`, `--workers`, `--from`, and a file |
/// | `audit`, `epochs` | a file |
/// | `picture` | `--entry`, and a file |
/// | `storm` | the options of `run`, `--roam`, `--turns`, and scripts |
///
/// All arguments of `run` are optional here, also in `storm`; `strict_command` has the rules between them.
pub(crate) fn command<'a>(alloc: Global) -> Result<Command<'a>, AllocError>
    ensures { IfOk result (λ command. (names : Names) × AreRules names × (app_of command ≡ console_app names)) }
{
    let names = RULES.as_slice();
    showing_command(alloc, names)?.subcommand(storm_command(alloc, names)?)
}

fn strict_from<'a>(alloc: Global) -> Result<Arg<'a>, AllocError>
    ensures rule { IfOk result (λ from. Declares from strict_from_rule) }
    ensures excluded { IfOk result (λ from. map (λ id. id.now) from.conflicts.items ≡ without_from) }
{
    from_arg(alloc)
        .conflicts_with("rules")?
        .conflicts_with("nodes")?
        .conflicts_with("present")
}

fn strict_run<'a>(
    alloc: Global,
    required: bool,
    names: &'a [&'a str],
) -> Result<Command<'a>, AllocError>
    ensures { IfOk result (λ run. Builds run (strict_run_app required names.entry)) }
{
    let run = told_command(alloc, "run", RUN_ABOUT, RUN_NOTES);
    network_command(alloc, run, required, names)?
        .arg(strict_from(alloc)?)?
        .arg(file_arg(alloc, "SCRIPT", SCRIPT_HELP))
}

fn strict_storm<'a>(
    alloc: Global,
    required: bool,
    names: &'a [&'a str],
) -> Result<Command<'a>, AllocError>
    ensures { IfOk result (λ storm. Builds storm (strict_storm_app required names.entry)) }
{
    let storm = told_command(alloc, "storm", STORM_ABOUT, STORM_NOTES);
    let storm = network_command(alloc, storm, required, names)?;
    roaming_command(alloc, storm)?.arg(strict_from(alloc)?)
}

/// The command with `run` and `storm` alone, whose arguments have rules on each other.
///
/// `--from` excludes `--rules`, `--nodes` and `--present`; of these the first two are optional or `required`. The
/// contracts of clap say nothing of how such rules are enforced, so this command only gives the text for words
/// that break them.
pub(crate) fn strict_command<'a>(alloc: Global, required: bool) -> Result<Command<'a>, AllocError>
    ensures { IfOk result (λ command. (names : Names) × AreRules names × (app_of command ≡ strict_app required names)) }
{
    let names = RULES.as_slice();
    top_command(alloc)
        .subcommand(strict_run(alloc, required, names)?)?
        .subcommand(strict_storm(alloc, required, names)?)
}
