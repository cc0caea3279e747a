//! What is seen at a node, as a guard reads it.

ghost use Rattle.std.specs.Prelude.{◌≡◌, map};
ghost use Rattle.std.proofs.Props.{props};
ghost use Rattle.local_rule.specs.Views.{ShowsAtNode, record_of};
ghost use Rattle.local_rule.specs.Looks.{answered_among, suitor_in, opens_in, first_open_in, open_above_in, name_found};
ghost use Rattle.local_rule.specs.Star.{star, record_in, target_found};
ghost use Rattle.rule_machine.specs.State.{is_at};

use crate::AsRecord;
use crate::fault::record_of;
use rule_machine::{Local, Node, NodeRecord, Rules};
use std::marker::PhantomData;

/// What is seen at a node, which some state shows.
#[derive(Drop)]
pub(crate) struct Seen<'a, R: Rules, T: AsRecord> {
    own: &'a NodeRecord,
    around: &'a [T],
    rules: PhantomData<R>,
    ghost shown: { ShowsAtNode (star own.now (map T.shows around.now)) own.now (map T.shows around.now) } by { Prim.hlevel props },
}

impl<'a, R: Rules, T: AsRecord> Seen<'a, R, T> {
    pub(crate) fn new(own: &'a NodeRecord, around: &'a [T]) -> Self
        requires shown { ShowsAtNode (star own.now (map T.shows around.now)) own.now (map T.shows around.now) }
        ensures own { result.own.now ≡ own.now }
        ensures around { result.around.now ≡ around.now }
    {
        Seen {
            own,
            around,
            rules: PhantomData,
        }
    }
}

fn record_in<T: AsRecord>(own: &NodeRecord, around: &[T], v: Node) -> Option<NodeRecord>
    ensures { result ≡ record_in own.now (map T.shows around.now) v }
{
    if own.node == v {
        return Some(*own);
    }
    record_of(around, v)
}

fn target_of<T: AsRecord>(around: &[T], w: Node) -> Option<Node>
    ensures { result ≡ target_found (record_of (map T.shows around.now) w) }
{
    match record_of(around, w) {
        Some(row) => row.target,
        None => None,
    }
}

/// Whether `w` is a neighbour that points at `v`.
fn is_suitor<T: AsRecord>(around: &[T], v: Node, w: Node) -> bool
    ensures { result ≡ is_at (target_found (record_of (map T.shows around.now) w)) v }
{
    target_of(around, w) == Some(v)
}

/// Whether `w` is an open neighbour.
fn is_open<R: Rules, T: AsRecord>(around: &[T], w: Node) -> bool
    ensures { result ≡ opens_in R.table.opens (record_of (map T.shows around.now) w) }
{
    match record_of(around, w) {
        Some(row) => R::opens(row.target, row.flagged),
        None => false,
    }
}

pub(crate) fn is_answered<T: AsRecord>(own: &NodeRecord, around: &[T]) -> bool
    ensures { result ≡ answered_among own.now (map T.shows around.now) }
{
    match own.target {
        Some(w) => target_of(around, w) == Some(own.node),
        None => false,
    }
}

fn first_suitor<T: AsRecord>(around: &[T], v: Node) -> Option<Node>
    ensures { result ≡ name_found (suitor_in (map T.shows around.now) v) }
{
    for row in around {
        let row = row.as_record();
        if row.target == Some(v) {
            return Some(row.node);
        }
    }
    None
}

fn first_open<R: Rules, T: AsRecord>(around: &[T]) -> Option<Node>
    ensures { result ≡ name_found (first_open_in R.table.opens (map T.shows around.now)) }
{
    for row in around {
        let row = row.as_record();
        if R::opens(row.target, row.flagged) {
            return Some(row.node);
        }
    }
    None
}

fn last_open_above<R: Rules, T: AsRecord>(around: &[T], v: Node) -> Option<Node>
    ensures { result ≡ name_found (open_above_in R.table.opens (map T.shows around.now) v) }
{
    for place in (0..around.len()).rev() {
        let row = around[place].as_record();
        if row.node > v && R::opens(row.target, row.flagged) {
            return Some(row.node);
        }
    }
    None
}

impl<R: Rules, T: AsRecord> Local for Seen<'_, R, T> {
    ghost use Rattle.local_rule.specs.Star.{star};

    ghost state = { λ l. star l.own.now (map T.shows l.around.now) };

    ghost at = { λ l. l.own.now.node };

    ghost opens = { R.table.opens };

    fn pointer(&self, v: Node) -> Option<Node> {
        match record_in(self.own, self.around, v) {
            Some(row) => row.target,
            None => None,
        }
    }

    fn flag(&self, v: Node) -> bool {
        match record_in(self.own, self.around, v) {
            Some(row) => row.flagged,
            None => false,
        }
    }

    fn married(&self) -> bool {
        is_answered(self.own, self.around)
    }

    fn has_suitor(&self) -> bool {
        first_suitor(self.around, self.own.node).is_some()
    }

    fn first_suitor(&self) -> Option<Node> {
        first_suitor(self.around, self.own.node)
    }

    fn is_suitor(&self, w: Node) -> bool {
        is_suitor(self.around, self.own.node, w)
    }

    fn has_open(&self) -> bool {
        first_open::<R, T>(self.around).is_some()
    }

    fn first_open(&self) -> Option<Node> {
        first_open::<R, T>(self.around)
    }

    fn has_open_above(&self) -> bool {
        last_open_above::<R, T>(self.around, self.own.node).is_some()
    }

    fn last_open_above(&self) -> Option<Node> {
        last_open_above::<R, T>(self.around, self.own.node)
    }

    fn is_open(&self, w: Node) -> bool {
        is_open::<R, T>(self.around, w)
    }
}
