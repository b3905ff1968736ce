// The callers of `hlc_log_examples` answer.

use hlc_core::{ActionRef, Cluster};
use hlc_log_examples::{asked_settings, draw_chain, draw_subject, perform_arguments};
use hlc_picture::PicturedHistory;
use hlc_stamp::{EventId, NodeId, Settings};

#[test]
fn a_chain_is_drawn(rt: HostRuntime) {
    let (key, value) = (b"cart".as_slice(), b"apples".as_slice());
    let mut cluster = Cluster::new(rt.alloc(), 2, 16).expect(&rt, "a cluster");
    let write = ActionRef::Write { key, value };
    cluster.ask(NodeId(0), 10, write).expect(&rt, "an event");
    let svg = draw_chain(rt.alloc(), cluster.history(), EventId(0)).expect(&rt, "a picture");
    assert!(rt; svg.starts_with(b"<svg") && svg.ends_with(b"</svg>\n"));
    let pictured = PicturedHistory {
        history: cluster.history(),
    };
    let same = draw_subject(rt.alloc(), &pictured, EventId(0)).expect(&rt, "a picture");
    assert!(rt; same.as_slice() == svg.as_slice());
}

#[test]
fn settings_are_found(rt: HostRuntime) {
    let arguments = ["hlc", "run", "--nodes", "2", "--capacity", "16"];
    let found = asked_settings(rt.alloc(), &arguments).expect(&rt, "an order");
    let settings = Settings {
        nodes: 2,
        capacity: 16,
        limit: None,
    };
    assert!(rt; found == Some(settings));
}

#[test]
fn arguments_are_performed(rt: HostRuntime) {
    let output = perform_arguments(&rt, &["hlc", "judge"], b"local,0,10,10,0\n");
    assert!(rt; output.expect(&rt, "rows").as_slice() == b"verdict,0,least\n".as_slice());
}
