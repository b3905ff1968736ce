// Replicas in threads whose lists hold deliveries of arbitrary messages, and a seat that only loses messages while others act.

ghost use Rattle.std.specs.Prelude.{◌≡◌, None};
ghost use Rattle.hlc_arena.specs.ClockRule.{HasLeastStamps};

use crate::replicas::run;
use crate::shared_calls::expect_agreement;
use hlc_arena::{Arena, Record};
use hlc_core::{Action, Step};
use hlc_held::{Group, Logged, Seat};
use hlc_seeded::storm;
use hlc_shared::{AlwaysOpen, Closed, LogFault, Shared};
use hlc_stamp::{EventId, NodeId};
use hlc_table::{Table, snapshot};
use rand_core::SeedableRng;
use rand_core::utils::NextWord;
use rand_pcg::Lcg64Xsh32;
use std::alloc::Global;
use std::marker::Brand;
use std::process::Abort;
use std::sync::Wait;
use std::sync::ledger::Blank;
use std::thread;
use std::thread::Threads;

const NODES: u16 = 3;

const STEPS: u32 = 200;

const CAPACITY: u32 = 1_200;

// A delivery of a message that may be one of the latest when each replica has come to this step.
fn delivery(generator: &mut Lcg64Xsh32, step: u32) -> Step {
    let back = generator.next_word() % 64;
    let sent = EventId(step.saturating_mul(3).saturating_sub(back));
    Step {
        reading: 1,
        action: Action::Deliver { sent },
    }
}

// Puts a delivery after each step. The first is of event 0, which is no send.
fn add_deliveries(rt: &impl Abort, steps: &mut Vec<Step>, generator: &mut Lcg64Xsh32) {
    for count in 0..STEPS {
        let place = 2 * count as usize + 1;
        assert!(rt; place <= steps.len());
        steps
            .insert(place, delivery(generator, count))
            .expect(rt, "a step");
    }
}

fn lists_with_deliveries(rt: &impl Abort, alloc: Global, seed: u64) -> Vec<Vec<Step>> {
    let mut generator = Lcg64Xsh32::seed_from_u64(seed);
    let mut lists = storm(alloc, seed, NODES, STEPS).expect(rt, "lists");
    for steps in lists.iter_mut() {
        add_deliveries(rt, steps, &mut generator);
    }
    lists
}

fn is_delivery(entry: &Logged) -> bool {
    matches!(
        entry,
        Logged::Acted {
            action: Action::Deliver { .. },
            ..
        }
    )
}

// All steps of the seeded list were accepted, and not all deliveries.
fn expect_accepted(rt: &impl Abort, log: &[Logged]) {
    let mut others = 0_u32;
    for entry in log {
        if !is_delivery(entry) {
            others = others.saturating_add(1);
        }
    }
    assert!(rt; others == STEPS);
    assert!(rt; log.len() < 2 * STEPS as usize);
}

// The key of a write.
fn key_of(history: &Arena, write: EventId) -> Option<&[u8]> {
    history.get(write)?.kind.key()
}

// Whether a write is the entry of its key.
fn shows(table: &Table, history: &Arena, write: EventId) -> bool {
    match key_of(history, write) {
        Some(key) => match table.get(key) {
            Some(entry) => entry.write == write,
            None => false,
        },
        None => false,
    }
}

// What was sent is the sender's entry of its key: the one that its snapshot at the stamp of the send shows.
fn expect_message(rt: &impl Abort, alloc: Global, history: &Arena, record: &Record<'_>)
    requires { HasLeastStamps history.now.events }
{
    for write in record.kind.carried() {
        let table = snapshot(alloc, history, record.stamp, record.node).expect(rt, "a table");
        assert!(rt; shows(&table, history, *write));
    }
}

fn expect_storm(rt: &impl Abort, alloc: Global, closed: &Closed)
    requires { HasLeastStamps closed.now.history.events }
{
    let history = &closed.history;
    for node in 0..NODES {
        let log = closed.logs.get(node as usize).expect(rt, "a log");
        expect_accepted(rt, log);
        expect_agreement(rt, alloc, history, NodeId(node), log, true);
    }
    for place in 0..history.len() {
        let record = history.get(EventId(place)).expect(rt, "a record");
        expect_message(rt, alloc, history, &record);
    }
}

fn expect_skipped<R: Threads + Wait + Abort + Sync>(rt: &R, alloc: Global, seed: u64) {
    let lists = lists_with_deliveries(rt, alloc, seed);
    assert!(rt; lists.len() == 3);
    let answer = run::<Brand, _, _>(rt, alloc, Blank::new(3), 3, CAPACITY, lists, &AlwaysOpen);
    expect_storm(rt, alloc, &answer.expect(rt, "a history"));
}

#[test]
fn refused_deliveries_are_skipped(rt: HostRuntime) {
    for seed in 0..5 {
        expect_skipped(&rt, rt.alloc(), seed);
    }
}

// Loses ten messages, each the next that is found live.
fn lose_some<L: Group, R: Wait>(rt: &R, shared: &Shared<L>, seat: &mut Seat<L>) {
    for _ in 0..10 {
        for number in 0..10_000_000 {
            let sent = EventId(number % CAPACITY);
            if shared.lose(rt, seat, sent).is_ok() {
                break;
            }
        }
    }
}

// Asks the steps of the node's list. With an empty one it loses messages.
fn take_turn<L: Group, R: Wait + Abort>(
    rt: &R,
    alloc: Global,
    shared: &Shared<L>,
    seat: &mut Seat<L>,
    lists: &[Vec<Step>],
) {
    let steps = lists.get(seat.node().0 as usize).expect(rt, "a list");
    if steps.is_empty() {
        lose_some(rt, shared, seat);
    }
    for step in steps {
        let action = step.action.copy(alloc).expect(rt, "an action");
        let _ = shared.act(rt, seat, step.reading, action);
    }
}

// Seeded steps for the first two seats, and none for the third.
fn lists_for_two(rt: &impl Abort, alloc: Global) -> Vec<Vec<Step>> {
    let mut lists = storm(alloc, 7, NODES, STEPS).expect(rt, "lists");
    lists.last_mut().expect(rt, "a list").clear();
    lists
}

static KEYS: [&[u8]; 4] = [b"k0", b"k1", b"k2", b"k3"];

fn look_at_each_key<L: Group, R: Wait + Abort>(
    rt: &R,
    alloc: Global,
    shared: &Shared<L>,
    seat: &mut Seat<L>,
) {
    for key in &KEYS {
        shared.read(rt, alloc, seat, key).expect(rt, "a look");
    }
}

// Each seat in a thread of its own takes its turn. Then each looks at all keys.
fn take_turns<L: Group + Sync, R: Threads + Wait + Abort + Sync>(
    rt: &R,
    alloc: Global,
    shared: &Shared<L>,
    seats: &mut [Seat<L>],
) {
    let lists = lists_for_two(rt, alloc);
    let turn = |_, seat: &mut Seat<L>| take_turn(rt, alloc, shared, seat, &lists);
    thread::for_each_mut(rt, seats, NODES as usize, &turn);
    for seat in seats.iter_mut() {
        look_at_each_key(rt, alloc, shared, seat);
    }
}

fn lose_while_others_act<L: Group + Sync, R: Threads + Wait + Abort + Sync>(
    rt: &R,
    alloc: Global,
    blank: Blank,
) -> Result<Closed, LogFault>
    requires ledger { blank.name ≡ L.name }
    requires parts { (blank.parts ≡ L.parts) × (blank.parts ≡ L.nodes) × (blank.parts ≡ 3) }
    requires capacity { L.capacity ≡ CAPACITY }
    requires limit { L.limit ≡ None }
{
    let made = Shared::<L>::new(alloc, blank, 3, CAPACITY);
    let (shared, mut seats) = made.expect(rt, "a cluster");
    take_turns(rt, alloc, &shared, &mut seats);
    shared.close(alloc, seats)
}

fn expect_events(rt: &impl Abort, answer: Result<Closed, LogFault>, events: u32) {
    let closed = answer.expect(rt, "a history");
    assert!(rt; closed.history.len() == events);
}

#[test]
fn losses_disturb_no_one(rt: HostRuntime) {
    let answer = lose_while_others_act::<Brand, _>(&rt, rt.alloc(), Blank::new(3));
    expect_events(&rt, answer, 2 * STEPS);
}
