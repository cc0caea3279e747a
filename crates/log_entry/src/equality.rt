//! Equality of events and of replies.

ghost use Rattle.std.specs.Prelude.{◌≡◌, ◌↔◌, IsTrue};

use rule_machine::{Event, Reply};

/// Whether two events are equal: kind, nodes, values, and items in order.
/// Takes no memory. A step costs a look at each item.
pub fn same_event(a: &Event, b: &Event) -> bool
    ensures { IsTrue result ↔ (a.now ≡ b.now) }
{
    a == b
}

/// Whether two replies are equal: kind, refusal, target, numbers, and items in order.
/// Takes no memory. A list costs a look at each item.
pub fn same_reply(a: &Reply, b: &Reply) -> bool
    ensures { IsTrue result ↔ (a.now ≡ b.now) }
{
    a == b
}
