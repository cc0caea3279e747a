//! A network that stores its totals, which a question updates by what changed since the last one.

ghost use Rattle.std.specs.Prelude.{◌≡◌, IfOk, None, OnErr, OnOk};
ghost use Rattle.rule_machine.specs.Disturbance.{after_link, after_point};
ghost use Rattle.rule_machine.specs.Refuse.{link_refusal, point_refusal};
ghost use Rattle.std.proofs.Props.{props};
ghost use Rattle.reply_checker.specs.Contributions.{AreExactIfFresh};

use crate::contributions::Contributions;
use net_state::{NetState, link_reserved, set_pointer};
use rule_machine::{Node, Want};
use std::alloc::{AllocError, Global};

/// A network and the contributions of its names, which follow each of its changes.
#[derive(Drop)]
pub(crate) struct CountedNet {
    pub(crate) net: NetState,
    pub(crate) shares: Contributions,
    ghost told: { AreExactIfFresh shares.rules net.state shares.open_edges shares.each.items shares.touched shares.due } by { Prim.hlevel props },
}

impl CountedNet {
    pub(crate) fn new(alloc: Global, net: NetState) -> Result<CountedNet, Want>
        ensures { IfOk result (λ counted. counted.net.state ≡ net.state) }
    {
        let shares = Contributions::new(alloc, net.capacity())?;
        Ok(CountedNet { net, shares })
    }

    pub(crate) fn link(&mut self, a: Node, b: Node) -> Result<(), Want>
        requires { link_refusal self.old.net.state.network a b ≡ None }
        ensures ok { OnOk result (self.new.net.state ≡ after_link self.old.net.state a b) }
        ensures err { OnErr result (self.new.net.state ≡ self.old.net.state) }
    {
        if self.net.reserve_link(a, b).is_err() {
            return Err(AllocError);
        }
        link_reserved(&mut self.net, &mut self.shares, a, b);
        Ok(())
    }

    pub(crate) fn point(&mut self, v: Node, target: Option<Node>)
        requires { point_refusal self.old.net.state.network v target ≡ None }
        ensures { self.new.net.state ≡ after_point self.old.net.state v target }
    {
        set_pointer(&mut self.net, &mut self.shares, v, target);
    }
}
