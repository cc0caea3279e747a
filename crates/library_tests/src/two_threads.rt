//! Two threads and one network: what the page on the libraries shows.

use locked_net::{Clerk, LockedNet, settle};
use rule_engine::{Event, Node, Rules};
use rules_hsu_huang::HsuHuang;
use std::sync::Wait;
use std::thread::{Threads, join_mut};

/// Links two nodes, and asks who is enabled then. Says whether both calls were answered.
fn edit<R: Rules, W: Wait>(
    rt: &W,
    net: &LockedNet<R>,
    clerk: &mut Clerk,
    ends: (u32, u32),
) -> bool {
    let (Some(a), Some(b)) = (Node::new(ends.0), Node::new(ends.1)) else {
        return false;
    };
    clerk.call(rt, net, Event::Link(a, b)).is_ok() && clerk.call(rt, net, Event::Enabled).is_ok()
}

/// Lets two clerks edit at once, each in a thread of its own where one can be had.
fn both<R: Rules + Send, T: Threads + Wait + Sync>(
    rt: &T,
    net: &LockedNet<R>,
    first: &mut Clerk,
    second: &mut Clerk,
) -> (bool, bool) {
    join_mut(
        rt,
        &mut || edit(rt, net, first, (1, 2)),
        &mut || edit(rt, net, second, (2, 3)),
    )
}

#[test]
fn two_threads_edit_one_network(rt: HostRuntime) {
    let net = LockedNet::<HsuHuang>::new(rt.alloc(), &rt, 3).expect(&rt, "a network");
    let mut first = net.clerk().expect(&rt, "memory");
    let mut second = net.clerk().expect(&rt, "memory");
    assert!(rt; both(&rt, &net, &mut first, &mut second) == (true, true));
    let clerks = Vec::from_array(rt.alloc(), [first, second]).ok();
    match settle(&rt, net, clerks.expect(&rt, "memory")) {
        Ok(journal) => assert!(rt; journal.len() == 4),
        Err(_) => panic!(rt; "they do not settle"),
    }
}
