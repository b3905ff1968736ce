// Replicas in threads of their own, with gates that wait, that count and that shut one of them out.

ghost use Rattle.std.specs.Prelude.{◌≡◌, IfOk, None, vec_len};
ghost use Rattle.hlc_arena.specs.ClockRule.{HasLeastStamps};

use crate::actions::{Ask, action_of};
use crate::shared_calls::expect_lengths;
use hlc_arena::{Arena, Kind};
use hlc_core::Step;
use hlc_held::Group;
use hlc_seeded::{StormFault, storm};
use hlc_shared::{AlwaysOpen, Closed, Gate, Shared, SharedFault, run_replicas};
use hlc_stamp::{EventId, NodeId};
use std::alloc::Global;
use std::marker::Brand;
use std::process::Abort;
use std::rt::Clock;
use std::sync::Wait;
use std::sync::atomic::{AtomicBool, AtomicU64, Ordering};
use std::sync::ledger::Blank;
use std::thread;
use std::thread::Threads;
use std::time::Duration;

// Lets a node in once the other node has entered too.
#[derive(Drop)]
struct Meeting<C> {
    clock: C,
    zero: AtomicBool,
    one: AtomicBool,
}

impl<C: Clock> Gate for Meeting<C> {
    fn enter<R: Wait>(&self, _rt: &R, node: NodeId) -> bool {
        if node == NodeId(0) {
            self.zero.store(true, Ordering::SeqCst);
            comes(&self.clock, &self.one)
        } else {
            self.one.store(true, Ordering::SeqCst);
            comes(&self.clock, &self.zero)
        }
    }
}

// Whether the other node enters within 10,000 turns.
fn comes<C: Clock>(clock: &C, other: &AtomicBool) -> bool {
    for _ in 0..10_000 {
        if other.load(Ordering::SeqCst) {
            return true;
        }
        thread::sleep(clock, Duration::from_millis(1));
    }
    false
}

// Shuts node 1 out.
struct NotOne;

impl Gate for NotOne {
    fn enter<R: Wait>(&self, _rt: &R, node: NodeId) -> bool {
        node != NodeId(1)
    }
}

// Counts how often each node asks, and lets it in.
#[derive(Drop)]
struct Counting {
    zero: AtomicU64,
    one: AtomicU64,
}

impl Gate for Counting {
    fn enter<R: Wait>(&self, _rt: &R, node: NodeId) -> bool {
        let count = if node == NodeId(0) {
            &self.zero
        } else {
            &self.one
        };
        count.fetch_add(1, Ordering::SeqCst);
        true
    }
}

// Replicas of a new cluster that follow these lists.
pub(crate) fn run<L: Group + Sync, R: Threads + Wait + Abort + Sync, G: Gate + Sync>(
    rt: &R,
    alloc: Global,
    blank: Blank,
    nodes: u16,
    capacity: u32,
    lists: Vec<Vec<Step>>,
    gate: &G,
) -> Result<Closed, SharedFault>
    requires ledger { blank.name ≡ L.name }
    requires parts { (blank.parts ≡ L.parts) × (blank.parts ≡ L.nodes) × (blank.parts ≡ nodes) }
    requires capacity { L.capacity ≡ capacity }
    requires limit { L.limit ≡ None }
    requires lists { vec_len lists ≡ nodes }
    ensures { IfOk result (λ closed. HasLeastStamps closed.history.events) }
{
    let made = Shared::<L>::new(alloc, blank, nodes, capacity);
    let (shared, seats) = made.expect(rt, "a cluster");
    run_replicas(rt, alloc, shared, seats, lists, gate)
}

// Seeded lists of so many steps. In each list of 20 a pull comes after a send.
fn seeded_lists(alloc: Global, steps: u32) -> Result<Vec<Vec<Step>>, StormFault>
    ensures { IfOk result (λ lists. vec_len lists ≡ 2) }
{
    storm(alloc, 7, 2, steps)
}

// The history and the logs of two replicas that follow the seeded lists.
fn run_seeded<R: Threads + Wait + Abort + Sync, G: Gate + Sync>(
    rt: &R,
    alloc: Global,
    steps: u32,
    capacity: u32,
    gate: &G,
) -> Result<Closed, SharedFault> {
    let lists = seeded_lists(alloc, steps).expect(rt, "lists");
    run::<Brand, _, _>(rt, alloc, Blank::new(2), 2, capacity, lists, gate)
}

#[test]
fn node_one_is_shut_out(rt: HostRuntime) {
    let answer = run_seeded(&rt, rt.alloc(), 20, 40, &NotOne);
    assert!(rt; answer.err() == Some(SharedFault::GateShut(NodeId(1))));
}

fn has_delivery(history: &Arena) -> bool {
    for event in 0..history.len() {
        if let Some(record) = history.get(EventId(event)) {
            if matches!(record.kind, Kind::Deliver { .. }) {
                return true;
            }
        }
    }
    false
}

// Each seeded step is accepted. A message is delivered whatever the turns: if node 0 pulls after a send of its own and
// finds nothing, node 1 is yet to send, and its pull after that finds node 0's message.
fn expect_seeded<R: Threads + Wait + Abort + Sync, G: Gate + Sync>(
    rt: &R,
    alloc: Global,
    gate: &G,
) {
    let closed = run_seeded(rt, alloc, 20, 40, gate).expect(rt, "a history");
    expect_lengths(rt, &closed, (40, 20, 20));
    assert!(rt; has_delivery(&closed.history));
}

#[test]
fn replicas_meet(rt: HostRuntime) {
    let gate = Meeting {
        clock: rt,
        zero: AtomicBool::new(false),
        one: AtomicBool::new(false),
    };
    expect_seeded(&rt, rt.alloc(), &gate);
}

// Each replica makes room for its whole list at once.
#[test]
fn long_lists_are_followed(rt: HostRuntime) {
    let answer = run_seeded(&rt, rt.alloc(), 10_000, 20_000, &AlwaysOpen);
    let closed = answer.expect(&rt, "a history");
    expect_lengths(&rt, &closed, (20_000, 10_000, 10_000));
}

fn expect_once(rt: &impl Abort, count: &AtomicU64) {
    assert!(rt; count.load(Ordering::SeqCst) == 1);
}

#[test]
fn each_node_asks_the_gate_once(rt: HostRuntime) {
    let gate = Counting {
        zero: AtomicU64::new(0),
        one: AtomicU64::new(0),
    };
    expect_seeded(&rt, rt.alloc(), &gate);
    expect_once(&rt, &gate.zero);
    expect_once(&rt, &gate.one);
}

// Node 0 writes twice, and between that it sends to itself. Then it erases what it wrote, and sends its table.
static ZERO: [(u64, Ask); 5] = [
    (10, Ask::Write("a", "x")),
    (11, Ask::Send(0, "a")),
    (12, Ask::Write("a", "x")),
    (13, Ask::Erase("a")),
    (13, Ask::Sync(1)),
];

// Node 1 sends a key that no node writes, writes at the reading 0, writes, and writes an empty key.
static ONE: [(u64, Ask); 4] = [
    (10, Ask::Send(0, "z")),
    (0, Ask::Write("b", "x")),
    (11, Ask::Write("b", "x")),
    (12, Ask::Write("", "x")),
];

fn steps(rt: &impl Abort, alloc: Global, asked: &[(u64, Ask)]) -> Vec<Step> {
    let mut steps = Vec::new(alloc);
    for (reading, ask) in asked {
        let step = Step {
            reading: *reading,
            action: action_of(rt, alloc, *ask),
        };
        steps.push(step).expect(rt, "a step");
    }
    steps
}

fn lists_with_refused_steps(rt: &impl Abort, alloc: Global) -> Vec<Vec<Step>>
    ensures { vec_len result ≡ 2 }
{
    let mut lists = Vec::new(alloc);
    lists.push(steps(rt, alloc, &ZERO)).expect(rt, "a list");
    lists.push(steps(rt, alloc, &ONE)).expect(rt, "a list");
    lists
}

#[test]
fn refused_steps_are_skipped(rt: HostRuntime) {
    let alloc = rt.alloc();
    let lists = lists_with_refused_steps(&rt, alloc);
    let answer = run::<Brand, _, _>(&rt, alloc, Blank::new(2), 2, 40, lists, &AlwaysOpen);
    let closed = answer.expect(&rt, "a history");
    expect_lengths(&rt, &closed, (5, 4, 1));
}
