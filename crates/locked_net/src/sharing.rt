//! How a network begins.

ghost use Rattle.std.specs.Prelude.{◌≡◌, [], length, IfOk, IfSome};
ghost use Rattle.locked_net.specs.Nets.{beginning_of, first_nodes_of, log_limit_of, name_count_of};

use crate::LockedNet;
use crate::net::lock;
use crate::net_key::NetKey;
use crate::published_journal::PublishedJournal;
use rule_engine::Rules;
use rule_machine::Base;
use std::alloc::{AllocError, Global};
use std::sync::Wait;
use step_log::Journal;

/// The network of a journal without entries. It begins at `beginning`, if any; `present` nodes are there then.
pub(crate) fn share<R: Rules, W: Wait>(
    alloc: Global,
    rt: &W,
    journal: Journal<R>,
    present: u32,
    beginning: Option<Base>,
) -> Result<LockedNet<R>, AllocError>
    requires none { journal.entries ≡ [] }
    requires present { journal.present ≡ present }
    requires base { journal.base ≡ beginning }
    requires counted { IfSome beginning (λ b. present ≡ length b.nodes) }
    ensures { IfOk result (λ net. (name_count_of net ≡ journal.state.network.size) × (first_nodes_of net ≡ present) × (log_limit_of net ≡ journal.limit) × (beginning_of net ≡ beginning)) }
{
    let nodes = journal.net().store().capacity();
    let limit = journal.limit();
    let published = PublishedJournal::begin(alloc, journal, present, &beginning)?;
    let opening = published.note();
    let key = NetKey {
        nodes,
        present,
        limit,
        beginning,
        opening,
    };
    lock(alloc, rt, published, &key)
}

/// A copy of the base of a journal without entries, if it has a base: its network is as the base says.
pub(crate) fn copy_base<R: Rules>(journal: &Journal<R>) -> Result<Option<Base>, AllocError>
    requires { journal.now.entries ≡ [] }
    ensures { IfOk result (λ copy. copy ≡ journal.now.base) }
{
    match journal.base() {
        Some(number) => Ok(Some(journal.net().base(number)?)),
        None => Ok(None),
    }
}
