//! Rule sets by name.

/// A rule set.
#[derive(Clone, Copy, Debug, PartialEq, Eq)]
pub enum RuleSet {
    /// The algorithm of Hsu and Huang, 1992, under a central daemon: one node moves at a time.
    Hh,
    /// The algorithm of Manne, Mjelde, Pilard and Tixeuil, 2009, under a distributed daemon.
    /// Any set of enabled nodes moves at once.
    Manne,
}

impl RuleSet {
    ghost use Rattle.std.specs.Prelude.{◌≡◌, ◌≤◌};
    ghost use Rattle.rule_machine.specs.Tables.{rules_word, weight_of};

    /// The rule set's word on a command line and in a transcript's header.
    pub fn word(self) -> &'static str
        ensures { result.now ≡ rules_word self }
    {
        match self {
            RuleSet::Hh => "hh",
            RuleSet::Manne => "manne",
        }
    }

    /// How much each node adds to the bound on moves after a disturbance: 1 for `Hh`, 3 for `Manne`.
    /// Each edge adds 2.
    pub fn node_weight(self) -> u64
        ensures weight { result ≡ weight_of self }
        ensures light { result ≤ 3 }
    {
        match self {
            RuleSet::Hh => 1,
            RuleSet::Manne => 3,
        }
    }
}
