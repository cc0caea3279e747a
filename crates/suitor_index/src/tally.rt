//! The counts of a node.

ghost use Rattle.std.specs.Prelude.{◌≡◌, ◌≤◌, ◌&&◌, SomeIff, is_none, nat_le};
ghost use Rattle.suitor_index.specs.Tallies.{empty_tally};
ghost use Rattle.suitor_index.specs.TallyChanges.{one_if};

use registers::Pointer;
use rule_machine::Node;

/// How many suitors and open neighbours a node has, the sum of the suitors' names, and the node's pointer.
///
/// `reached` counts the open neighbours that the node's guard asks for. The sum is modulo 65,536: if the
/// node has one suitor, it is the suitor's name. The pointer is the register's, for changes of edges.
#[derive(Clone, Copy)]
pub(crate) struct Tally {
    pub(crate) suitors: u16,
    pub(crate) reached: u16,
    pub(crate) sum: u16,
    pub(crate) pointer: Pointer,
}

/// The tally of a node without neighbours that points at `target`.
#[inline(always)]
pub(crate) fn lone_tally(target: Option<Node>) -> Tally
    ensures { result ≡ record empty_tally { pointer = target } }
{
    Tally {
        suitors: 0,
        reached: 0,
        sum: 0,
        pointer: Pointer::new(target),
    }
}

/// The node with this name; `None` for 0.
#[inline(always)]
pub(crate) fn node_named(name: u16) -> Option<Node>
    ensures node { SomeIff result ((1 ≤ name) × (name ≤ 65535)) name }
    ensures short { name ≤ 65535 }
{
    Node::new(u32::from(name))
}

impl Tally {
    /// Whether the pointer is null, and `reached` at most 1 or 0. One comparison: of two the first would often
    /// be mispredicted.
    #[inline(always)]
    pub(crate) fn is_null_with_none_but(self, is_reached: bool) -> bool
        ensures { result ≡ (is_none self.pointer && nat_le self.reached (one_if is_reached)) }
    {
        let pointer = match self.pointer.target() {
            Some(w) => w.name(),
            None => 0,
        };
        pointer * 65_536 + u32::from(self.reached) <= u32::from(is_reached)
    }
}
