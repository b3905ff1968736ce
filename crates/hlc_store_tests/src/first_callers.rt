// The first callers that the docs of the crates show, and the summaries of the history that one of them makes.

ghost use Rattle.hlc_arena.specs.ClockRule.{HasLeastStamps};

use hlc_arena::{Arena, ReserveFault};
use hlc_core::Cluster;
use hlc_examples::{
    explain_stamp, keep_message, pass_message, pass_packed, record_write, share_colour,
};
use hlc_explain::{Summary, explain_all};
use hlc_packed::PackedBits;
use hlc_stamp::{EventId, NodeId, Stamp};
use std::alloc::Global;
use std::process::Abort;
use std::thread::Threads;

#[test]
fn a_message_carries_its_stamp(rt: HostRuntime) {
    let stamps = pass_message(Stamp { l: 10, c: 0 }, 10, Stamp { l: 7, c: 0 }, 8);
    assert!(rt; stamps == (Stamp { l: 10, c: 1 }, Stamp { l: 10, c: 2 }));
}

// With 4 bits for c, 0xa0 packs (10, 0).
#[test]
fn a_message_carries_its_number(rt: HostRuntime) {
    let bits = PackedBits::new(4).expect(&rt, "bits");
    let numbers = pass_packed(bits, 0xae, 0x7f, 10, 1);
    assert!(rt; numbers == Ok((0xaf, 0xb0)));
}

static CHAIN: [EventId; 3] = [EventId(0), EventId(1), EventId(2)];

// The delivery reads 9.
static SUMMARIES: [Summary; 3] = [
    Summary {
        origin: EventId(0),
        stamp: Stamp { l: 10, c: 0 },
        ahead: 0,
    },
    Summary {
        origin: EventId(0),
        stamp: Stamp { l: 10, c: 1 },
        ahead: 0,
    },
    Summary {
        origin: EventId(0),
        stamp: Stamp { l: 10, c: 2 },
        ahead: 1,
    },
];

fn expect_chain(rt: &impl Abort, alloc: Global, cluster: &Cluster) {
    let list = explain_stamp(alloc, cluster, EventId(2)).expect(rt, "a chain");
    assert!(rt; list.as_slice() == CHAIN.as_slice());
}

fn expect_answers<R: Threads + Sync + Abort>(rt: &R, alloc: Global, cluster: &Cluster)
    requires { HasLeastStamps cluster.now.history.events }
{
    expect_chain(rt, alloc, cluster);
    let summaries = explain_all(rt, alloc, cluster.history().execution()).expect(rt, "summaries");
    assert!(rt; summaries.as_slice() == SUMMARIES.as_slice());
}

#[test]
fn first_callers_answer(rt: HostRuntime) {
    let cluster = share_colour(rt.alloc()).expect(&rt, "a cluster");
    expect_answers(&rt, rt.alloc(), &cluster);
}

#[test]
fn a_logged_send_forces_its_delivery(rt: HostRuntime) {
    let (send, delivery) = (Stamp { l: 10, c: 0 }, Stamp { l: 10, c: 1 });
    let kept = keep_message(rt.alloc(), (10, send), (7, delivery));
    let (execution, forcing) = kept.expect(&rt, "an execution");
    assert!(rt; execution.len() == 2 && forcing == Some(EventId(0)));
}

#[test]
fn a_write_is_recorded(rt: HostRuntime) {
    let (node, stamp) = (NodeId(0), Stamp { l: 10, c: 0 });
    let (key, value) = (b"colour".as_slice(), b"blue".as_slice());
    let mut history = Arena::new(rt.alloc(), 2, 1).expect(&rt, "a history");
    let first = record_write(&mut history, node, 10, stamp, key, value);
    assert!(rt; first == Ok(()) && history.last_at(node) == Some(EventId(0)));
    let second = record_write(&mut history, node, 10, stamp, key, value);
    assert!(rt; second == Err(ReserveFault::Full) && history.len() == 1);
}
