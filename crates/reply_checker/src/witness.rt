//! On whose registers it depends whether a rule is enabled at a node.

ghost use Rattle.std.specs.Prelude.{◌≡◌, None};
ghost use Rattle.reply_checker.specs.Witnesses.{depends_on};

use rule_machine::Node;

/// The one other node whose registers decide whether a rule is enabled at a node.
///
/// This is the target of the node's pointer. If the pointer is null, it is the neighbour that was found to call
/// the node, or the node itself if its flag alone decides. If there is none, it depends on all neighbours.
#[derive(Clone, Copy)]
pub struct Witness {
    pub(crate) node: Option<Node>,
    /// The index in the neighbour list of the caller that was found last: the next search begins there.
    pub(crate) place: u16,
}

impl Witness {
    /// The witness of a node before the first look at it.
    pub fn new() -> Witness
        ensures { result.node ≡ None }
    {
        Witness {
            node: None,
            place: 0,
        }
    }

    /// Whether a change of the registers of the neighbour `w` may enable or disable a rule at the node.
    #[inline(always)]
    pub fn depends_on(&self, w: Node) -> bool
        ensures { result ≡ depends_on self.now.node w }
    {
        self.node.is_none_or(|x| x == w)
    }
}
