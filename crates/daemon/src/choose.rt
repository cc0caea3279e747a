//! The contract of every daemon.

ghost use Rattle.std.specs.Prelude.{◌≡◌, ◌≤◌, ℕ, Bool, List, Option, IfOk, IfSome, OnOk, length};
ghost use Rattle.enabled_set.specs.Members.{members};
ghost use Rattle.rule_machine.specs.declared.choice.Item.{Item};
ghost use Rattle.daemon.specs.DaemonLaws.{IsLawful};

use enabled_set::EnabledSet;
use rule_machine::{Choice, MAX_NAME, Node, Want};

/// A daemon chooses which enabled nodes move in the next step.
pub trait Daemon {
    /// Relates the names (ascending), whether the daemon is central, and the daemon before
    /// to the daemon's choice and the daemon afterwards.
    ghost chooses: { List ℕ → Bool → Self → Option (List Item) → Self → Type 0 };

    /// The choice for the next step; `None` if the daemon makes no choice.
    /// The nodes of a choice are distinct members of the set, ascending, without wishes: one node if
    /// `central`, else 1 to 65,535.
    /// Error: out of memory.
    fn choose(&mut self, set: &EnabledSet, central: bool) -> Result<Option<Choice>, Want>
        ensures lawful { IfOk result (λ choice. IfSome choice (IsLawful set.now central)) }
        ensures chosen { IfOk result (λ choice. chooses (members set.now) central self.old choice self.new) };
}

pub(crate) fn list_of(set: &EnabledSet) -> Result<Vec<Node>, Want>
    ensures list { IfOk result (λ list. list.items ≡ members set.now) }
    ensures few { OnOk result (length (members set.now) ≤ 65535) }
{
    let list = set.to_list()?;
    if !list.is_empty() {
        prove!(list[0].name() >= 1);
        prove!(list[list.len() - 1].name() <= MAX_NAME);
    }
    Ok(list)
}
