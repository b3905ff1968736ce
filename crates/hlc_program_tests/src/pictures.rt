// Messages that didn't arrive, as no script leaves them (.ci/program/pictures.txt shows others): to the sender itself, and to a node that isn't there.

use hlc_core::{ActionRef, Cluster};
use hlc_picture::{Undelivered, View, draw_with};
use hlc_stamp::{EventId, NodeId};
use std::process::Abort;

// It goes around the dots of node 0 at 22 pixels, and ends midway below the last event.
const CROSS: &str =
    "<polyline class=\"x\" points=\"61,84 83,92 83,127 61,135\"><title>the message of event 1 didn't reach node 0</title></polyline>\n";

static UNDELIVERED: [Undelivered; 2] = [
    Undelivered {
        send: EventId(1),
        to: NodeId(0),
        before: EventId(3),
    },
    Undelivered {
        send: EventId(1),
        to: NodeId(3),
        before: EventId(2),
    },
];

// Node 0 writes and sends, and node 2, whose clock is behind, takes that in.
fn pass_message(rt: &impl Abort, cluster: &mut Cluster) {
    let (key, value) = (b"a<".as_slice(), b"x".as_slice());
    let (to, sent) = (NodeId(2), EventId(1));
    let asked = [
        (NodeId(0), 10, ActionRef::Write { key, value }),
        (NodeId(0), 10, ActionRef::Send { to, key }),
        (to, 7, ActionRef::Deliver { sent }),
    ];
    for (node, reading, action) in &asked {
        cluster.ask(*node, *reading, *action).expect(rt, "an event");
    }
}

#[test]
fn crosses_out_what_did_not_arrive(rt: HostRuntime) {
    let alloc = rt.alloc();
    let mut cluster = Cluster::new(alloc, 3, 16).expect(&rt, "a cluster");
    pass_message(&rt, &mut cluster);
    let view = View::between(Some(EventId(1)), None, None);
    let mut picture = Vec::new(alloc);
    let ended = draw_with(alloc, cluster.history(), view, &UNDELIVERED, &mut picture);
    assert_eq!(rt; ended, Ok(()));
    let text = str::from_utf8(&picture).expect(&rt, "a text");
    assert!(rt; text.split_once(CROSS).is_some());
    assert!(rt; text.split_once("didn't reach node 3").is_none());
}
