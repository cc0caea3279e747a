//! Rows that hold records.

ghost use Rattle.std.specs.Prelude.{◌≡◌};
ghost use Rattle.rule_machine.specs.declared.base.NodeRecord.{NodeRecord};

use rule_machine::NodeRecord;

/// A row that holds a node's record, in whatever form its caller keeps it.
pub trait AsRecord {
    /// The record.
    ghost shows: { Self → NodeRecord };

    /// Returns the record.
    fn as_record(&self) -> NodeRecord
        ensures { result ≡ shows self.now };
}

impl AsRecord for NodeRecord {
    ghost shows = { λ r. r };

    fn as_record(&self) -> NodeRecord {
        *self
    }
}
