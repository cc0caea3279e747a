//! Sources of events.

ghost use Rattle.std.specs.Prelude.{◌≡◌, IfOk, OnErr};
ghost use Rattle.rand_core.specs.Stream.{Stream};
ghost use Rattle.seeded_turns.specs.DrawnEvents.{Draws};

use rule_engine::{Event, Net, Rules, Want};

/// A source of events for turns, found from the network's present state and a generator's words.
pub trait EventSource {
    /// What a state and the words to come give: the event, if any, and the words that are left.
    ghost draws: { Draws };

    /// The words to come.
    ghost stream: { Self → Stream };

    /// The event of the next turn; `None` if there is none.
    /// `AllocError` if memory runs out; no word has been taken then.
    fn next_event<R: Rules>(&mut self, net: &Net<R>) -> Result<Option<Event>, Want>
        ensures event { IfOk result (λ event. (event, stream self.new) ≡ draws R.table net.now.state (stream self.old)) }
        ensures kept { OnErr result (stream self.new ≡ stream self.old) };
}
