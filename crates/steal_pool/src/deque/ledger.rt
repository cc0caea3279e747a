//! What an end of the deque knows, and the rule that every end keeps.

use crate::deque::Block;
use crossbeam_deque::protocol::{Join, Outcome, Protocol, Split};
use std::collections::LinkedList;

/// What a pass knows, for contracts only: no value of this type is made.
/// `parts`: how many of the deque's 64 parts the pass has. `count`: how many places were put on the deque.
/// `taken`: the places that the pass has taken.
pub(crate) struct Ledger {
    pub parts: u64,
    pub count: u64,
    pub taken: LinkedList<u32>,
}

/// The rule of the deque: each place that was put is either taken or still on the deque, once.
pub(crate) struct EachOnce;

impl Protocol<Block, Ledger> for EachOnce {
    ghost use Rattle.std.specs.Prelude.{[]};
    ghost use Rattle.steal_pool.specs.Ledgers.{ledger, Balanced};

    ghost holds = { Balanced };

    ghost first = { ledger 64 0 [] };

    ghost guest = { ledger 0 0 [] };
}

pub(crate) struct Put;

impl Outcome<Block, Ledger> for Put {
    ghost use Rattle.std.specs.Prelude.{◌≡◌};
    ghost use Rattle.steal_pool.specs.Ledgers.{with_put};

    ghost then = { λ v xs w. w ≡ with_put v xs };
}

/// The step that takes a block, or finds no block.
pub(crate) struct Took;

impl Outcome<Block, Ledger> for Took {
    ghost use Rattle.steal_pool.specs.Ledgers.{Takes, KnowsAll};

    ghost then = { Takes };

    ghost empty = { KnowsAll };
}

/// The steps that split a pass in two and that join two passes.
pub(crate) struct Cut;

impl Split<Ledger> for Cut {
    ghost use Rattle.steal_pool.specs.Ledgers.{rest_of, part_of};

    ghost left = { rest_of };

    ghost right = { part_of };
}

impl Join<Ledger> for Cut {
    ghost use Rattle.std.specs.Prelude.{[]};
    ghost use Rattle.steal_pool.specs.Ledgers.{joined_ledger, ledger};

    ghost both = { joined_ledger };

    ghost spent = { ledger 0 0 [] };
}
