// All stamps of long histories explained by threads, which no command shows. Many events have the same reading, so that chains are long.

ghost use Rattle.std.specs.Prelude.{◌^◌, ◌<◌, length};
ghost use Rattle.hlc_arena.specs.ClockRule.{HasLeastStamps};

use hlc_arena::{Arena, Record};
use hlc_core::{ActionRef, Cluster};
use hlc_explain::{Summary, explain_all};
use hlc_stamp::{EventId, NodeId};
use std::alloc::Global;
use std::process::Abort;
use std::thread::Threads;

const KEY: &[u8] = b"k";

// Node 0 sends to node 1, reading a new time after so many events.
fn send_all(rt: &impl Abort, cluster: &mut Cluster, sends: u32, ties: u32)
    requires { 0 < ties }
{
    let write = ActionRef::Write {
        key: KEY,
        value: b"",
    };
    cluster.ask(NodeId(0), 1, write).expect(rt, "a write");
    for place in 1..=sends {
        let reading = 1 + u64::from(place / ties);
        let to = NodeId(1);
        let send = ActionRef::Send { to, key: KEY };
        cluster.ask(NodeId(0), reading, send).expect(rt, "a send");
    }
}

// Node 1 delivers every second message, by a clock that stands still. So each delivery is forced by its send.
fn deliver_half(rt: &impl Abort, cluster: &mut Cluster, deliveries: u32)
    requires { deliveries < 2 ^ 31 }
{
    for place in 0..deliveries {
        let sent = EventId(1 + 2 * place);
        let deliver = ActionRef::Deliver { sent };
        cluster.ask(NodeId(1), 1, deliver).expect(rt, "a delivery");
    }
}

fn fill(rt: &impl Abort, cluster: &mut Cluster, events: u32, ties: u32)
    requires { 0 < ties }
{
    let deliveries = events / 3;
    send_all(rt, cluster, events.saturating_sub(deliveries + 1), ties);
    deliver_half(rt, cluster, deliveries);
}

fn history(rt: &impl Abort, alloc: Global, events: u32, ties: u32) -> Arena
    requires { 0 < ties }
    ensures { HasLeastStamps result.events }
{
    let mut cluster = Cluster::new(alloc, 2, events).expect(rt, "a cluster");
    fill(rt, &mut cluster, events, ties);
    cluster.into_history()
}

// The origin of an event is that of its forcing event.
fn origin_by_forcing(history: &Arena, summaries: &[Summary], event: EventId) -> EventId
    requires { event.0 < length history.now.events }
{
    let Some(before) = history.forcing(event) else {
        return event;
    };
    match summaries.get(before.0 as usize) {
        Some(earlier) => earlier.origin,
        None => event,
    }
}

fn expect_summary(
    rt: &impl Abort,
    history: &Arena,
    event: EventId,
    record: &Record<'_>,
    summaries: &[Summary],
)
    requires { event.0 < length history.now.events }
{
    let want = Summary {
        origin: origin_by_forcing(history, summaries, event),
        stamp: record.stamp,
        ahead: record.stamp.l.saturating_sub(record.reading),
    };
    assert!(rt; summaries.get(event.0 as usize).copied() == Some(want));
}

// Each summary after those before it.
fn expect_in_turn(rt: &impl Abort, history: &Arena, summaries: &[Summary]) {
    assert!(rt; summaries.len() == history.len() as usize);
    for place in 0..history.len() {
        let event = EventId(place);
        let record = history.get(event).expect(rt, "an event");
        expect_summary(rt, history, event, &record, summaries);
    }
}

// Explains a history of so many events, of which so many read the same time.
fn expect_explained<R: Threads + Sync + Abort>(rt: &R, alloc: Global, events: u32, ties: u32)
    requires { 0 < ties }
{
    let history = history(rt, alloc, events, ties);
    let summaries = explain_all(rt, alloc, history.execution()).expect(rt, "summaries");
    expect_in_turn(rt, &history, &summaries);
}

// Each followed to its origin, the chains of the second history take a thousand million steps.
#[test]
fn threads_answer_what_a_loop_does(rt: HostRuntime) {
    expect_explained(&rt, rt.alloc(), 5_000, 100);
    expect_explained(&rt, rt.alloc(), 100_000, 100_000);
}
