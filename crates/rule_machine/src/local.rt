//! What a guard may read.

ghost use Rattle.std.specs.Prelude.{◌≡◌, ℕ, Bool, Option, ◌&&◌, is_some};
ghost use Rattle.rule_machine.specs.Network.{linked};
ghost use Rattle.rule_machine.specs.State.{State, IsState, pointer, flag, suits, first_suitor, has_suitor, married};
ghost use Rattle.rule_machine.specs.RuleTable.{is_open, first_open, last_open_above};
ghost use Rattle.rule_machine.specs.Target.{IsNear};

use crate::Node;

/// What a guard may read at a node: the registers of the node and of its neighbours.
pub trait Local {
    /// The state that the view shows.
    ghost state: { Self → State };

    /// The node whose guard reads the view.
    ghost at: { Self → ℕ };

    /// Which pointers and flags make a neighbour open to a seduction.
    ghost opens: { Option ℕ → Bool → Bool };

    /// The pointer of the node or of a neighbour.
    fn pointer(&self, v: Node) -> Option<Node>
        requires near { IsNear (state self.now) (at self.now) v }
        requires state { IsState (state self.now) }
        ensures { result ≡ pointer (state self.now) v };

    /// The married flag of the node or of a neighbour.
    fn flag(&self, v: Node) -> bool
        requires near { IsNear (state self.now) (at self.now) v }
        requires state { IsState (state self.now) }
        ensures { result ≡ flag (state self.now) v };

    /// Whether the node and a neighbour point at each other.
    fn married(&self) -> bool
        requires { IsState (state self.now) }
        ensures { result ≡ married (state self.now) (at self.now) };

    /// Whether a neighbour points at the node.
    fn has_suitor(&self) -> bool
        ensures { result ≡ has_suitor (state self.now) (at self.now) };

    /// The first neighbour that points at the node, by ascending name.
    fn first_suitor(&self) -> Option<Node>
        ensures { result ≡ first_suitor (state self.now) (at self.now) };

    /// Whether `w` is a neighbour that points at the node.
    fn is_suitor(&self, w: Node) -> bool
        ensures { result ≡ (linked (state self.now).network (at self.now) w && suits (state self.now) (at self.now) w) };

    /// Whether a neighbour is open.
    fn has_open(&self) -> bool
        ensures { result ≡ is_some (first_open opens (state self.now) (at self.now)) };

    /// The first open neighbour, by ascending name.
    fn first_open(&self) -> Option<Node>
        ensures { result ≡ first_open opens (state self.now) (at self.now) };

    /// Whether an open neighbour has a name above the node's.
    fn has_open_above(&self) -> bool
        ensures { result ≡ is_some (last_open_above opens (state self.now) (at self.now)) };

    /// The greatest open neighbour with a name above the node's.
    fn last_open_above(&self) -> Option<Node>
        ensures { result ≡ last_open_above opens (state self.now) (at self.now) };

    /// Whether `w` is an open neighbour.
    fn is_open(&self, w: Node) -> bool
        ensures { result ≡ (linked (state self.now).network (at self.now) w && is_open opens (state self.now) w) };
}
