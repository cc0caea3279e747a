//! The options of a run, from its words.

ghost use Rattle.std.specs.Prelude.{◌≡◌, MatchOption, None, Some};
ghost use Rattle.cli_args.specs.TaskWords.{present_at_start};
ghost use Rattle.script_run.specs.RunOptions.{asked_of};
ghost use Rattle.command_line.specs.Network.{asked_network};

use cli_args::present_at_start;
use rule_machine::RuleSet;
use script_run::Options;

/// The options of a run on the names 1 to `nodes`; `None` if `named` is above `nodes`.
///
/// `named` nodes are present at the start, or all if `named` is `None`. `workers` workers evaluate each step.
/// All other options have their defaults.
pub fn network_options(
    rules: RuleSet,
    nodes: u16,
    named: Option<u16>,
    workers: u16,
) -> Option<Options>
    ensures { MatchOption result (present_at_start nodes named ≡ None) (λ options.
        (present_at_start nodes named ≡ Some options.present)
        × (asked_of options ≡ asked_network rules nodes options.present workers)) }
{
    let Some(present) = present_at_start(nodes, named) else {
        return None;
    };
    let all = Options::new(rules, u32::from(nodes)).unwrap();
    Some(
        all.with_present(u32::from(present))
            .with_workers(u32::from(workers)),
    )
}
