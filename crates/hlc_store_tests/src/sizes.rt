// A history that is longer than a script can make one (.ci/store has others). That memory is had no contract says, so a body that gave up at some
// size would be proved.

use hlc_core::{ActionRef, Cluster};
use hlc_stamp::NodeId;
use std::process::Abort;

// More than 2^20.
const EVENTS: u32 = 1_100_000;

fn write_often(rt: &impl Abort, cluster: &mut Cluster) {
    let write = ActionRef::Write {
        key: b"k",
        value: b"v",
    };
    for _ in 0..EVENTS {
        cluster.ask(NodeId(0), 10, write).expect(rt, "a write");
    }
}

#[test]
fn a_history_has_1_100_000_events(rt: HostRuntime) {
    let mut cluster = Cluster::new(rt.alloc(), 2, EVENTS).expect(&rt, "a cluster");
    write_often(&rt, &mut cluster);
    assert!(rt; cluster.history().len() == EVENTS);
    let copy = cluster.copy_history(rt.alloc()).expect(&rt, "a copy");
    assert!(rt; copy.len() == EVENTS);
}
