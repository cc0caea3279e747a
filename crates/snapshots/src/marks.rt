//! The marks of a board's history, which exist in contracts only.

use log_entry::Entry;
use logbook::{Opening, Plain};
use rule_machine::Base;

/// Where the entries of a board begin. No value of it is ever made.
pub enum Origin {
    /// At an opening state whose nodes are this many names from 1.
    FirstNames(u32),
    /// At a base.
    FromBase(Base),
}

/// One step of a board's history. No value of it is ever made.
pub enum Mark {
    /// The history begins. Its first mark is of this kind.
    Beginning(Origin),
    /// An entry is posted, in place of any entry that is posted but not published.
    Posting(Entry),
    /// The last posted entry is published.
    Publication,
}

pub(crate) struct AtNames;

impl Opening<u32, Mark> for AtNames {
    ghost use Rattle.std.specs.Prelude.{◌∷◌, []};
    ghost use Rattle.snapshots.specs.declared.marks.Origin.TheVariants.{FirstNames};
    ghost use Rattle.snapshots.specs.declared.marks.Mark.TheVariants.{Beginning};

    ghost log = { λ words count. Beginning (FirstNames count) ∷ [] };
}

pub(crate) struct AtBase;

impl Opening<Base, Mark> for AtBase {
    ghost use Rattle.std.specs.Prelude.{◌∷◌, []};
    ghost use Rattle.snapshots.specs.declared.marks.Origin.TheVariants.{FromBase};
    ghost use Rattle.snapshots.specs.declared.marks.Mark.TheVariants.{Beginning};

    ghost log = { λ words base. Beginning (FromBase base) ∷ [] };
}

/// The mark that an entry is posted.
pub(crate) struct Posts;

impl Plain<Entry, Mark, u64> for Posts {
    ghost use Rattle.std.specs.Prelude.{None};
    ghost use Rattle.snapshots.specs.declared.marks.Mark.TheVariants.{Posting};

    ghost ask = { λ entry. Posting entry };

    ghost state = { λ entry. None };
}

/// The mark that the last posted entry is published.
pub(crate) struct Publishes;

impl Plain<(), Mark, u64> for Publishes {
    ghost use Rattle.std.specs.Prelude.{None};
    ghost use Rattle.snapshots.specs.declared.marks.Mark.TheVariants.{Publication};

    ghost ask = { λ nothing. Publication };

    ghost state = { λ nothing. None };
}
