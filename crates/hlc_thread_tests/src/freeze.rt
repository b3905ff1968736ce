// A history that is frozen stays as it is while more is asked, and one over several pages is frozen too.

ghost use Rattle.std.specs.Prelude.{◌≡◌, IfOk, None};
ghost use Rattle.hlc_arena.specs.ClockRule.{HasLeastStamps};

use crate::actions::Ask::Write;
use crate::actions::action_of;
use crate::shared_calls::Call::{Act, Freeze};
use crate::shared_calls::{At, FIRST_CALLS, expect_calls, expect_freeze, expect_lengths};
use hlc_arena::Arena;
use hlc_core::ClusterFault;
use hlc_explain::{Relation, Summary, explain_all, relation};
use hlc_held::{Group, Seat};
use hlc_shared::{Closed, LogFault, Shared};
use hlc_stamp::{EventId, Stamp};
use std::alloc::Global;
use std::marker::Brand;
use std::process::Abort;
use std::sync::Wait;
use std::sync::ledger::Blank;
use std::thread::Threads;

// What is asked after the first freeze.
static LATER: [At; 2] = [
    (1, Act(12, Write("b", "z"), Ok((4, 12, 0)))),
    (1, Freeze(5)),
];

// How the write at node 1 stands to each event.
static RELATIONS: [Relation; 4] = [
    Relation::Concurrent,
    Relation::Same,
    Relation::Concurrent,
    Relation::Before,
];

static SUMMARIES: [Summary; 4] = [
    Summary {
        origin: EventId(0),
        stamp: Stamp { l: 10, c: 0 },
        ahead: 0,
    },
    Summary {
        origin: EventId(1),
        stamp: Stamp { l: 10, c: 0 },
        ahead: 0,
    },
    Summary {
        origin: EventId(2),
        stamp: Stamp { l: 11, c: 0 },
        ahead: 0,
    },
    Summary {
        origin: EventId(2),
        stamp: Stamp { l: 11, c: 1 },
        ahead: 6,
    },
];

fn expect_relations(rt: &impl Abort, history: &Arena) {
    for event in 0..4 {
        let answer = relation(history.execution(), EventId(1), EventId(event));
        assert!(rt; answer == Ok(RELATIONS[event as usize]));
    }
}

// The history before node 1 writes once more.
fn expect_before<R: Threads + Abort + Sync>(rt: &R, alloc: Global, history: &Arena)
    requires { HasLeastStamps history.now.events }
{
    assert!(rt; history.len() == 4);
    expect_relations(rt, history);
    let summaries = explain_all(rt, alloc, history.execution()).expect(rt, "summaries");
    assert!(rt; summaries.as_slice() == SUMMARIES.as_slice());
}

// The history of a copy that node 0 gets before node 1 writes once more.
fn freeze_amid<L: Group, R: Wait + Abort>(
    rt: &R,
    alloc: Global,
    shared: &Shared<L>,
    seats: &mut [Seat<L>],
) -> Arena
    ensures { HasLeastStamps result.events }
{
    expect_calls(rt, alloc, shared, seats, &FIRST_CALLS);
    let seat = seats.first().expect(rt, "a seat");
    let frozen = shared.freeze(rt, alloc, seat).expect(rt, "a copy");
    expect_calls(rt, alloc, shared, seats, &LATER);
    frozen.into_history()
}

fn freeze_and_write<L: Group, R: Wait + Abort>(
    rt: &R,
    alloc: Global,
    blank: Blank,
) -> Result<Arena, ClusterFault>
    requires ledger { blank.name ≡ L.name }
    requires parts { (blank.parts ≡ L.parts) × (blank.parts ≡ L.nodes) × (blank.parts ≡ 2) }
    requires capacity { L.capacity ≡ 16 }
    requires limit { L.limit ≡ None }
    ensures { IfOk result (λ history. HasLeastStamps history.events) }
{
    let (shared, mut seats) = Shared::<L>::new(alloc, blank, 2, 16)?;
    let history = freeze_amid(rt, alloc, &shared, &mut seats);
    let closed = shared.close(alloc, seats).expect(rt, "a history");
    expect_lengths(rt, &closed, (5, 3, 5));
    Ok(history)
}

#[test]
fn a_frozen_history_stays(rt: HostRuntime) {
    let answer = freeze_and_write::<Brand, _>(&rt, rt.alloc(), Blank::new(2));
    expect_before(&rt, rt.alloc(), &answer.expect(&rt, "a copy"));
}

// So many that the history takes five pages.
const WRITES: u32 = 5_000;

fn write_all<L: Group, R: Wait + Abort>(
    rt: &R,
    alloc: Global,
    shared: &Shared<L>,
    seat: &mut Seat<L>,
) {
    for _ in 0..WRITES {
        let write = action_of(rt, alloc, Write("a", "x"));
        shared.act(rt, seat, 10, write).expect(rt, "a write");
    }
}

fn freeze_pages<L: Group, R: Wait + Abort>(
    rt: &R,
    alloc: Global,
    blank: Blank,
) -> Result<Closed, LogFault>
    requires ledger { blank.name ≡ L.name }
    requires parts { (blank.parts ≡ L.parts) × (blank.parts ≡ L.nodes) × (blank.parts ≡ 2) }
    requires capacity { L.capacity ≡ WRITES }
    requires limit { L.limit ≡ None }
{
    let (shared, mut seats) = Shared::<L>::new(alloc, blank, 2, WRITES).expect(rt, "a cluster");
    let seat = seats.first_mut().expect(rt, "a seat");
    write_all(rt, alloc, &shared, seat);
    expect_freeze(rt, alloc, &shared, seat, WRITES);
    shared.close(alloc, seats)
}

#[test]
fn a_history_of_several_pages_is_frozen(rt: HostRuntime) {
    let answer = freeze_pages::<Brand, _>(&rt, rt.alloc(), Blank::new(2));
    expect_lengths(&rt, &answer.expect(&rt, "a history"), (5_000, 5_000, 0));
}
