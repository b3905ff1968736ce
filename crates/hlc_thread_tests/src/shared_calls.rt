// Calls on a shared cluster of two nodes, in turn.

ghost use Rattle.std.specs.Prelude.{◌≡◌, IfOk, None, Some};
ghost use Rattle.hlc_arena.specs.ClockRule.{HasLeastStamps};

use crate::actions::Ask::{Deliver, Erase, Pull, Send, Sync, Write};
use crate::actions::{Ask, action_of};
use crate::shared_calls::Call::{Act, Freeze, Lose, Read};
use hlc_arena::Arena;
use hlc_core::{Action, ClusterFault, NoMessage, Refusal};
use hlc_held::{Group, Logged, Seat, Seen};
use hlc_shared::{Closed, LogFault, Shared, agrees};
use hlc_stamp::{EventId, NodeId, Settings};
use std::alloc::Global;
use std::marker::Brand;
use std::process::Abort;
use std::sync::Wait;
use std::sync::ledger::Blank;

// The event, and `l` and `c` of its stamp.
pub(crate) type Answer = Result<(u32, u64, u32), Refusal>;

// The event of a write, and its value. An erasure has none.
type Shown = (u32, Option<&'static str>);

// What is asked through a seat, and what is expected.
#[derive(Clone, Copy)]
pub(crate) enum Call {
    // A reading, an action, and the answer.
    Act(u64, Ask, Answer),
    // A key, and what it shows, if anything.
    Read(&'static str, Option<Shown>),
    // A message that is to be lost, and the answer.
    Lose(u32, Result<(), NoMessage>),
    // How many events the seat's copy of the history has.
    Freeze(u32),
}

// A call at a node.
pub(crate) type At = (usize, Call);

// Node 0's write comes to node 1, whose own has the greater rank. The message, which was delivered, is lost.
pub(crate) static FIRST_CALLS: [At; 11] = [
    (0, Act(10, Write("a", "x"), Ok((0, 10, 0)))),
    (1, Act(10, Write("a", "y"), Ok((1, 10, 0)))),
    (0, Read("a", Some((0, Some("x"))))),
    (0, Act(11, Send(1, "a"), Ok((2, 11, 0)))),
    (1, Act(5, Deliver(2), Ok((3, 11, 1)))),
    (1, Read("a", Some((1, Some("y"))))),
    (0, Freeze(4)),
    (0, Lose(2, Ok(()))),
    (1, Lose(2, Err(NoMessage))),
    (1, Act(12, Deliver(2), Err(Refusal::NoMessage))),
    (1, Read("b", None)),
];

// Node 0 writes and sends three messages. The second, 6, is lost. So two pulls deliver the first and the third. One more
// writes, which fills the cluster.
static PULLS: [At; 14] = [
    (0, Act(12, Write("a", "z"), Ok((4, 12, 0)))),
    (0, Act(12, Send(1, "a"), Ok((5, 12, 1)))),
    (0, Act(12, Send(1, "a"), Ok((6, 12, 2)))),
    (0, Act(12, Send(1, "a"), Ok((7, 12, 3)))),
    (0, Lose(6, Ok(()))),
    (1, Act(13, Pull("b", "w"), Ok((8, 13, 0)))),
    (1, Act(13, Deliver(5), Err(Refusal::NoMessage))),
    (1, Act(13, Pull("b", "w"), Ok((9, 13, 1)))),
    (1, Act(13, Deliver(7), Err(Refusal::NoMessage))),
    (1, Read("a", Some((4, Some("z"))))),
    (1, Read("b", None)),
    (1, Act(13, Pull("b", "w"), Ok((10, 13, 2)))),
    (0, Act(13, Write("a", "x"), Err(Refusal::Full))),
    (1, Read("b", Some((10, Some("w"))))),
];

// Node 0's table, with an erasure, comes to node 1 in one message, which can't be delivered at node 0. Node 1 sends it back.
static SYNCS: [At; 15] = [
    (0, Act(10, Sync(1), Err(Refusal::NoEntry))),
    (0, Act(10, Write("a", "x"), Ok((0, 10, 0)))),
    (0, Act(10, Send(1, "b"), Err(Refusal::NoEntry))),
    (0, Act(10, Write("b", "y"), Ok((1, 10, 1)))),
    (0, Act(11, Erase("a"), Ok((2, 11, 0)))),
    (0, Act(11, Sync(0), Err(Refusal::SelfSend))),
    (0, Act(11, Sync(1), Ok((3, 11, 1)))),
    (0, Act(12, Deliver(3), Err(Refusal::WrongNode))),
    (1, Act(5, Deliver(3), Ok((4, 11, 2)))),
    (1, Read("a", Some((2, None)))),
    (1, Read("b", Some((1, Some("y"))))),
    (1, Act(12, Sync(0), Ok((5, 12, 0)))),
    (0, Act(11, Pull("c", "z"), Ok((6, 12, 1)))),
    (0, Read("c", None)),
    (0, Freeze(7)),
];

// Asks a seat, and gives the answer.
fn answer<L: Group>(
    rt: &impl Wait,
    shared: &Shared<L>,
    seat: &mut Seat<L>,
    reading: u64,
    action: Action,
) -> Answer {
    let accepted = shared.act(rt, seat, reading, action)?;
    Ok((accepted.event.0, accepted.stamp.l, accepted.stamp.c))
}

fn expect_answer(rt: &impl Abort, found: Answer, want: Answer) {
    assert_eq!(rt; found, want);
}

fn is_value(found: Option<&Vec<u8>>, want: Option<&str>) -> bool {
    match (found, want) {
        (Some(found), Some(want)) => found.as_slice() == want.as_bytes(),
        (None, None) => true,
        _ => false,
    }
}

fn is_wanted(seen: Option<&Seen>, want: Option<Shown>) -> bool {
    match (seen, want) {
        (Some(seen), Some((write, value))) => {
            seen.entry.write.0 == write && is_value(seen.value.as_ref(), value)
        }
        (None, None) => true,
        _ => false,
    }
}

// Reads a key, and compares the write and the value, if there is one.
fn expect_value<L: Group, R: Wait + Abort>(
    rt: &R,
    alloc: Global,
    shared: &Shared<L>,
    seat: &mut Seat<L>,
    key: &str,
    want: Option<Shown>,
) {
    let answer = shared.read(rt, alloc, seat, key.as_bytes());
    let seen = answer.expect(rt, "a look");
    assert!(rt; is_wanted(seen.as_ref(), want));
}

// Loses a message, and compares the answer.
fn expect_loss<L: Group, R: Wait + Abort>(
    rt: &R,
    shared: &Shared<L>,
    seat: &mut Seat<L>,
    sent: u32,
    want: Result<(), NoMessage>,
) {
    assert!(rt; shared.lose(rt, seat, EventId(sent)) == want);
}

// The copy that a seat gets has so many events.
pub(crate) fn expect_freeze<L: Group, R: Wait + Abort>(
    rt: &R,
    alloc: Global,
    shared: &Shared<L>,
    seat: &Seat<L>,
    events: u32,
) {
    let frozen = shared.freeze(rt, alloc, seat).expect(rt, "a copy");
    assert!(rt; frozen.history().len() == events);
}

// Calls, and compares the answer.
fn expect_call<L: Group, R: Wait + Abort>(
    rt: &R,
    alloc: Global,
    shared: &Shared<L>,
    seat: &mut Seat<L>,
    call: Call,
) {
    match call {
        Act(reading, ask, want) => {
            let action = action_of(rt, alloc, ask);
            expect_answer(rt, answer(rt, shared, seat, reading, action), want);
        }
        Read(key, want) => expect_value(rt, alloc, shared, seat, key, want),
        Lose(sent, want) => expect_loss(rt, shared, seat, sent, want),
        Freeze(events) => expect_freeze(rt, alloc, shared, seat, events),
    }
}

// Calls in turn, and compares the answers.
pub(crate) fn expect_calls<L: Group, R: Wait + Abort>(
    rt: &R,
    alloc: Global,
    shared: &Shared<L>,
    seats: &mut [Seat<L>],
    calls: &[At],
) {
    for (node, call) in calls {
        assert!(rt; *node < seats.len());
        expect_call(rt, alloc, shared, &mut seats[*node], *call);
    }
}

// Compares the number of events and the lengths of two logs.
pub(crate) fn expect_lengths(rt: &impl Abort, closed: &Closed, want: (u32, usize, usize)) {
    let Closed { history, logs } = closed;
    assert!(rt; logs.len() == 2);
    assert!(rt; (history.len(), logs[0].len(), logs[1].len()) == want);
}

// The log of node 0 agrees with the history at its node, and at no other.
pub(crate) fn expect_one_agreement(rt: &impl Abort, alloc: Global, closed: &Closed)
    requires { HasLeastStamps closed.now.history.events }
{
    let Closed { history, logs } = closed;
    assert!(rt; logs.len() == 2);
    expect_agreement(rt, alloc, history, NodeId(0), &logs[0], true);
    expect_agreement(rt, alloc, history, NodeId(1), &logs[0], false);
}

pub(crate) fn expect_agreement(
    rt: &impl Abort,
    alloc: Global,
    history: &Arena,
    node: NodeId,
    log: &[Logged],
    want: bool,
)
    requires { HasLeastStamps history.now.events }
{
    assert!(rt; agrees(alloc, history, node, log) == Ok(want));
}

fn with_settings<L: Group, R: Wait + Abort>(
    rt: &R,
    alloc: Global,
    blank: Blank,
    limit: Option<u64>,
) -> Result<Closed, LogFault>
    requires ledger { blank.name ≡ L.name }
    requires parts { (blank.parts ≡ L.parts) × (blank.parts ≡ L.nodes) × (blank.parts ≡ 2) }
    requires capacity { L.capacity ≡ 11 }
    requires limit { L.limit ≡ limit }
    ensures { IfOk result (λ closed. HasLeastStamps closed.history.events) }
{
    let settings = Settings {
        nodes: 2,
        capacity: 11,
        limit,
    };
    let made = Shared::<L>::with_settings(alloc, blank, settings);
    let (shared, mut seats) = made.expect(rt, "a cluster");
    expect_calls(rt, alloc, &shared, &mut seats, &FIRST_CALLS);
    expect_calls(rt, alloc, &shared, &mut seats, &PULLS);
    // In any order.
    seats.reverse();
    shared.close(alloc, seats)
}

fn expect_all_calls<R: Wait + Abort>(rt: &R, alloc: Global, limit: Option<u64>) {
    let answer = with_settings::<Brand, _>(rt, alloc, Blank::new(2), limit);
    let closed = answer.expect(rt, "a history");
    expect_lengths(rt, &closed, (11, 7, 10));
    expect_one_agreement(rt, alloc, &closed);
}

#[test]
fn calls_in_turn(rt: HostRuntime) {
    expect_all_calls(&rt, rt.alloc(), None);
    // The first delivery is 6 ahead.
    expect_all_calls(&rt, rt.alloc(), Some(6));
}

#[test]
fn tables_are_sent_whole(rt: HostRuntime) {
    let answer = close::<Brand, _>(&rt, rt.alloc(), Blank::new(2), 2, &SYNCS, 0, 2);
    expect_lengths(&rt, &answer.expect(&rt, "a history"), (7, 6, 4));
}

// What is refused stands in no log.
static TOO_FAR: [At; 4] = [
    (0, Act(10, Write("a", "x"), Ok((0, 10, 0)))),
    (1, Act(10, Write("a", "y"), Ok((1, 10, 0)))),
    (0, Act(11, Send(1, "a"), Ok((2, 11, 0)))),
    (1, Act(5, Deliver(2), Err(Refusal::TooFarAhead))),
];

fn with_limit<L: Group, R: Wait + Abort>(
    rt: &R,
    alloc: Global,
    blank: Blank,
) -> Result<Closed, LogFault>
    requires ledger { blank.name ≡ L.name }
    requires parts { (blank.parts ≡ L.parts) × (blank.parts ≡ L.nodes) × (blank.parts ≡ 2) }
    requires capacity { L.capacity ≡ 16 }
    requires limit { L.limit ≡ Some 5 }
{
    let made = Shared::<L>::with_limit(alloc, blank, 2, 16, 5);
    let (shared, mut seats) = made.expect(rt, "a cluster");
    expect_calls(rt, alloc, &shared, &mut seats, &TOO_FAR);
    shared.close(alloc, seats)
}

#[test]
fn too_far_ahead(rt: HostRuntime) {
    let answer = with_limit::<Brand, _>(&rt, rt.alloc(), Blank::new(2));
    expect_lengths(&rt, &answer.expect(&rt, "a history"), (3, 2, 1));
}

// Closes after calls, with so many of the seats, of which this node's is the first.
pub(crate) fn close<L: Group, R: Wait + Abort>(
    rt: &R,
    alloc: Global,
    blank: Blank,
    nodes: u16,
    calls: &[At],
    first: usize,
    kept: usize,
) -> Result<Closed, LogFault>
    requires ledger { blank.name ≡ L.name }
    requires parts { (blank.parts ≡ L.parts) × (blank.parts ≡ L.nodes) × (blank.parts ≡ nodes) }
    requires capacity { L.capacity ≡ 16 }
    requires limit { L.limit ≡ None }
    ensures { IfOk result (λ closed. HasLeastStamps closed.history.events) }
{
    let made = Shared::<L>::new(alloc, blank, nodes, 16);
    let (shared, mut seats) = made.expect(rt, "a cluster");
    expect_calls(rt, alloc, &shared, &mut seats, calls);
    assert!(rt; first < seats.len());
    seats.swap(0, first);
    seats.truncate(kept);
    shared.close(alloc, seats)
}

// Closing names the first node whose log doesn't agree.
pub(crate) fn expect_mismatch(rt: &impl Abort, answer: Result<Closed, LogFault>, node: u16) {
    assert!(rt; answer.err() == Some(LogFault::Mismatch(NodeId(node))));
}

static WRITES: [At; 3] = [
    (0, Act(10, Write("a", "x"), Ok((0, 10, 0)))),
    (1, Act(10, Write("a", "x"), Ok((1, 10, 0)))),
    (2, Act(10, Write("a", "x"), Ok((2, 10, 0)))),
];

#[test]
fn missing_seats_mismatch(rt: HostRuntime) {
    let answer = close::<Brand, _>(&rt, rt.alloc(), Blank::new(3), 3, &WRITES, 0, 1);
    expect_mismatch(&rt, answer, 1);
}

// Why there is no cluster of these settings.
fn refusal_of<L: Group>(
    alloc: Global,
    blank: Blank,
    nodes: u16,
    capacity: u32,
) -> Option<ClusterFault>
    requires ledger { blank.name ≡ L.name }
    requires parts { (blank.parts ≡ L.parts) × (blank.parts ≡ L.nodes) × (blank.parts ≡ nodes) }
    requires capacity { L.capacity ≡ capacity }
    requires limit { L.limit ≡ None }
{
    Shared::<L>::new(alloc, blank, nodes, capacity).err()
}

#[test]
fn bad_settings(rt: HostRuntime) {
    let alloc = rt.alloc();
    let too_few = refusal_of::<Brand>(alloc, Blank::new(1), 1, 16);
    assert!(rt; too_few == Some(ClusterFault::BadNodes));
    let no_room = refusal_of::<Brand>(alloc, Blank::new(2), 2, 0);
    assert!(rt; no_room == Some(ClusterFault::BadCapacity));
}
