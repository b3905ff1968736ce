// The first callers that the docs of the crates for logs show.

ghost use Rattle.hlc_log.specs.Events.{IsSmallCarried};

use crate::log_records::PAIRS;
use hlc_causes::laws::no_events_are_least;
use hlc_causes::{Cause, push_least};
use hlc_execution::Execution;
use hlc_log::{Log, LogEvent, LogKind, MessageId};
use hlc_log_audit::Outcome;
use hlc_log_examples::{
    audit_log, count_events, first_cause, messages_of, order_message, stamp_of_field, watch_event,
};
use hlc_log_text::NameKey;
use hlc_ordered_log::MessageCounts;
use hlc_stamp::{EventId, NodeId, Stamp};
use hlc_watch::Watch;
use std::alloc::Global;
use std::process::Abort;

#[test]
fn a_field_packs_a_stamp(rt: HostRuntime) {
    let stamp = Stamp { l: 3, c: 5 };
    assert!(rt; stamp_of_field(b"12293") == Some(stamp));
    assert!(rt; stamp_of_field(b"3.5").is_none());
}

#[test]
fn a_send_comes_first(rt: HostRuntime) {
    let receive = LogEvent {
        node: NodeId(0),
        reading: 1,
        has_reading: true,
        kind: LogKind::Receive(MessageId(0)),
        stamp: Stamp { l: 2, c: 1 },
        has_stamp: true,
        carried: None,
        seq: 0,
        line: 1,
    };
    let send = LogEvent {
        node: NodeId(1),
        reading: 2,
        has_reading: true,
        kind: LogKind::Send(MessageId(0)),
        stamp: Stamp { l: 2, c: 0 },
        has_stamp: true,
        carried: None,
        seq: 0,
        line: 2,
    };
    let order = order_message(rt.alloc(), receive, send).expect(&rt, "an order");
    assert!(rt; order.as_slice() == [EventId(1), EventId(0)].as_slice());
}

#[test]
fn events_are_counted(rt: HostRuntime) {
    let text = b"local,a,1,1,0\n\nlocal,b,2,2,0\n";
    assert!(rt; count_events(rt.alloc(), text) == Some(2));
    assert!(rt; count_events(rt.alloc(), b"frob\n").is_none());
}

#[test]
fn messages_are_counted(rt: HostRuntime) {
    let send = LogEvent {
        node: NodeId(1),
        reading: 2,
        has_reading: true,
        kind: LogKind::Send(MessageId(0)),
        stamp: Stamp { l: 2, c: 0 },
        has_stamp: true,
        carried: None,
        seq: 0,
        line: 1,
    };
    let mut log = Log::new(rt.alloc());
    log.push(send).expect(&rt, "memory");
    let counts = MessageCounts {
        sent: 1,
        received: 0,
        repeated: 0,
        unreceived: 1,
    };
    assert!(rt; messages_of(rt.alloc(), log, 1) == Ok(counts));
}

// Two events of node 0, which read 10 and 11.
fn two_events(rt: &impl Abort, alloc: Global) -> Execution {
    no_events_are_least();
    let mut execution = Execution::new(alloc, 1).expect(rt, "memory");
    execution.reserve().expect(rt, "memory");
    push_least(&mut execution, NodeId(0), 10, None);
    execution.reserve().expect(rt, "memory");
    push_least(&mut execution, NodeId(0), 11, None);
    execution
}

#[test]
fn the_first_cause_is_found(rt: HostRuntime) {
    let execution = two_events(&rt, rt.alloc());
    let stamps = [Stamp { l: 10, c: 0 }, Stamp { l: 10, c: 1 }];
    let stamps = stamps.to_vec(rt.alloc()).expect(&rt, "memory");
    assert!(rt; execution.len() == 2);
    assert!(rt; stamps.len() == 2);
    let found = first_cause(&execution, &stamps);
    assert!(rt; found == Some((EventId(1), Cause::Behind)));
}

#[test]
fn a_log_in_memory_is_audited(rt: HostRuntime) {
    let audited = audit_log(rt.alloc(), b"local,a,10,9,0\n", PAIRS);
    let (outcome, rows) = audited.expect(&rt, "an outcome");
    let want = "count,behind,1\ncause,1,a,behind\nnode,a,1,0,1,1\nmessages,0,0,0,0\n";
    let broken = Outcome::Broken { over_limit: false };
    assert!(rt; outcome == broken, "{outcome:?}");
    assert!(rt; rows.as_slice() == want.as_bytes(), "not {want}");
}

// An event of node 0 that reads 5.
fn event(line: u32, kind: LogKind, l: u64) -> LogEvent
    ensures { IsSmallCarried result.carried }
{
    LogEvent {
        node: NodeId(0),
        reading: 5,
        has_reading: true,
        kind,
        stamp: Stamp { l, c: 0 },
        has_stamp: true,
        carried: None,
        seq: 0,
        line,
    }
}

#[test]
fn a_receive_waits_for_its_send(rt: HostRuntime) {
    let alloc = rt.alloc();
    let mut watch = Watch::new(alloc, 10, NameKey::fixed()).expect(&rt, "room");
    let local = event(1, LogKind::Local, 5);
    let told = watch_event(alloc, &mut watch, &local, b"").expect(&rt, "room");
    assert!(&rt; told.is_some_and(|causes| causes.ahead.is_none() && !causes.behind));
    let receive = event(2, LogKind::Receive(MessageId(7)), 8);
    let waits = watch_event(alloc, &mut watch, &receive, b"m").expect(&rt, "room");
    assert!(&rt; waits.is_none() && watch.waiting() == 1);
}
