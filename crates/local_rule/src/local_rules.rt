//! Rule sets whose targets are local.

ghost use Rattle.local_rule.specs.Moves.{TargetsAreLocal};

use rule_machine::Rules;
use rules_hsu_huang::HsuHuang;
use rules_manne::Manne;

/// A rule set whose targets, too, depend only on the node and its neighbours.
pub trait LocalRules: Rules {
    /// Which targets a rule allows depends only on what is shown at its node.
    ghost targets: { TargetsAreLocal Self.table };
}

impl LocalRules for HsuHuang {
    ghost use Rattle.local_rule.specs.Locals.{hsu_huang_targets};

    ghost targets = { hsu_huang_targets };
}

impl LocalRules for Manne {
    ghost use Rattle.local_rule.specs.Locals.{manne_targets};

    ghost targets = { manne_targets };
}
