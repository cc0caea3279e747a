//! What an edit changed.

ghost use Rattle.std.specs.Prelude.{◌≡◌, ℕ, ◌<◌, false, length, IfSome};
ghost use Rattle.enabled_set.specs.Members.{is_in};
ghost use Rattle.rule_machine.specs.State.{is_at};
ghost use Rattle.net_state.specs.AffectedNames.{affected_by, AreNamesBelow, IsUnaffected};

use enabled_set::Marks;
use rule_machine::Node;

/// What an edit of a state changed.
#[derive(Clone, Copy)]
pub enum Change {
    /// A node's pointer: the node, the old pointer, the new pointer.
    Pointed(Node, Option<Node>, Option<Node>),
    /// A node's flag: the node, the old flag, the new flag.
    Flagged(Node, bool, bool),
    /// An edge was added.
    Linked(Node, Node),
    /// An edge that no pointer crossed was removed.
    Unlinked(Node, Node),
    /// An absent name became a node without an edge.
    Joined(Node),
    /// A node without an edge became absent.
    Removed(Node),
}

/// The names whose surroundings a change may alter: at most three.
#[derive(Clone, Copy)]
pub(crate) struct AffectedNames {
    node: Node,
    one: Option<Node>,
    two: Option<Node>,
}

impl Change {
    /// Marks the names whose surroundings the change may alter: at most three.
    #[inline(always)]
    pub fn mark_names(self, marks: &mut Marks)
        requires { AreNamesBelow (length marks.old) (affected_by self) }
        ensures places { length marks.new ≡ length marks.old }
        ensures marked { (w : ℕ) → is_in marks.new w ≡ false → (is_in marks.old w ≡ false) × IsUnaffected (affected_by self) w }
    {
        let names = self.names();
        mark_target(marks, Some(names.node));
        mark_target(marks, names.one);
        mark_target(marks, names.two);
    }

    #[inline(always)]
    fn names(self) -> AffectedNames
        ensures { result ≡ affected_by self }
    {
        match self {
            Change::Pointed(node, one, two) => AffectedNames { node, one, two },
            Change::Flagged(node, _, _) | Change::Joined(node) | Change::Removed(node) => {
                AffectedNames {
                    node,
                    one: None,
                    two: None,
                }
            }
            Change::Linked(node, other) | Change::Unlinked(node, other) => AffectedNames {
                node,
                one: Some(other),
                two: None,
            },
        }
    }
}

#[inline(always)]
fn mark_target(marks: &mut Marks, target: Option<Node>)
    requires { IfSome target (λ w. w < length marks.old) }
    ensures places { length marks.new ≡ length marks.old }
    ensures marked { (w : ℕ) → is_in marks.new w ≡ false → (is_in marks.old w ≡ false) × (is_at target w ≡ false) }
{
    if let Some(w) = target {
        marks.mark(w);
    }
}
