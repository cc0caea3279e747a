//! What a cost may depend on.

ghost use Rattle.std.specs.Prelude.{◌≡◌, ◌≤◌, IsTrue, length};
ghost use Rattle.rule_machine.specs.Network.{present, neighbours};
ghost use Rattle.rule_machine.specs.State.{State, points, pointer, has_suitor};

use crate::Node;

/// What a cost may read at the nodes that a disturbance touches.
/// The cost of the disturbance depends on nothing else.
pub trait Touched {
    /// The state that the view shows.
    ghost state: { Self → State };

    /// A node's pointer.
    fn pointer(&self, v: Node) -> Option<Node>
        requires { IsTrue (present (state self.now).network v) }
        ensures { result ≡ pointer (state self.now) v };

    /// The number of a node's neighbours, at most 65,535.
    fn degree(&self, v: Node) -> u32
        requires { IsTrue (present (state self.now).network v) }
        ensures degree { result ≡ length (neighbours (state self.now).network v) }
        ensures few { result ≤ 65535 };

    /// Whether a neighbour points at a node.
    fn has_suitor(&self, v: Node) -> bool
        requires { IsTrue (present (state self.now).network v) }
        ensures { result ≡ has_suitor (state self.now) v };
}

/// Whether `v` points at `w`. One look at a pointer.
pub fn points_at<T: Touched>(touched: &T, v: Node, w: Node) -> bool
    requires { IsTrue (present (T.state touched.now).network v) }
    ensures { result ≡ points (T.state touched.now).registers v w }
{
    match touched.pointer(v) {
        Some(target) => target == w,
        None => false,
    }
}
