//! What no call of a network changes.

use crate::published_journal::PublishedJournal;
use keyed_lock::Invariant;
use rule_engine::Rules;
use rule_machine::Base;
use snapshots::Note;

/// The key of a network's lock: how many names, how many nodes at the start, the log's limit, the base at
/// which the network began, if any, and a note. The board gave this note when the board was made.
/// Only contracts compare keys, so the lock keeps no copy of the key.
#[derive(Drop)]
pub(crate) struct NetKey {
    pub(crate) nodes: u32,
    pub(crate) present: u32,
    pub(crate) limit: u32,
    pub(crate) beginning: Option<Base>,
    pub(crate) opening: Note,
}

/// The log under the lock has the key's sizes and beginning, and the board of the key's note publishes this
/// log.
pub(crate) struct KeyInvariant;

impl<R: Rules> Invariant<Box<PublishedJournal<R>>, NetKey> for KeyInvariant {
    ghost use Rattle.locked_net.specs.PublishedJournals.{IsOfKey};

    ghost holds = { λ key published. IsOfKey key published.value };
}
