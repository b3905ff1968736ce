// A cluster that threads share, from its making to its close.

ghost use Rattle.std.specs.Prelude.{◌≡◌, None, Some};
ghost use Rattle.hlc_arena.specs.ClockRule.{HasLeastStamps};

use crate::ask::Ask;
use crate::call::Answer;
use crate::fault::Fault;
use crate::shown::Digest;
use hlc_arena::Arena;
use hlc_core::Refusal;
use hlc_held::{Group, Seat};
use hlc_seeded::storm;
use hlc_shared::{AlwaysOpen, Shared, agrees, run_replicas};
use hlc_stamp::EventId;
use std::alloc::Global;
use std::marker::Brand;
use std::sync::Wait;
use std::sync::ledger::Blank;
use std::thread::Threads;

// A node, what it reads and what it is asked.
type Request = (usize, u64, Ask);

static REQUESTS: [Request; 7] = [
    (0, 10, Ask::Write("a", "a value of more than 22 bytes")),
    (1, 10, Ask::Write("a", "y")),
    (0, 11, Ask::Send(1, "a")),
    (1, 5, Ask::Deliver(2)),
    (0, 12, Ask::Erase("b")),
    (0, 12, Ask::Sync(1)),
    (1, 6, Ask::Deliver(5)),
];

fn log_digest<L: Group>(seat: &Seat<L>) -> u64 {
    let mut digest = Digest::new();
    for logged in seat.log() {
        digest.add(logged);
    }
    digest.value
}

// Asks, and asks again if memory is refused, which has to leave the log as it was.
fn ask<L: Group>(
    rt: &impl Wait,
    alloc: Global,
    shared: &Shared<L>,
    seat: &mut Seat<L>,
    reading: u64,
    ask: Ask,
) -> Result<(), Fault> {
    let before = log_digest(seat);
    if let Err(Refusal::Memory) = shared.act(rt, seat, reading, ask.action(alloc)?) {
        if log_digest(seat) != before {
            return Err(Fault::Changed);
        }
        shared.act(rt, seat, reading, ask.action(alloc)?)?;
    }
    Ok(())
}

// Looks at a key, and looks again if memory is refused, which has to leave the log as it was.
fn look<L: Group>(
    rt: &impl Wait,
    alloc: Global,
    shared: &Shared<L>,
    seat: &mut Seat<L>,
) -> Result<(), Fault> {
    let before = log_digest(seat);
    if shared.read(rt, alloc, seat, b"a").is_err() {
        if log_digest(seat) != before {
            return Err(Fault::Changed);
        }
        shared.read(rt, alloc, seat, b"a")?;
    }
    Ok(())
}

// The log of a seat has to agree with a history.
fn compare<L: Group>(alloc: Global, history: &Arena, seat: &Seat<L>) -> Result<(), Fault>
    requires { HasLeastStamps history.now.events }
{
    if agrees(alloc, history, seat.node(), seat.log())? {
        return Ok(());
    }
    Err(Fault::Changed)
}

// Copies the history, with which the log has to agree.
fn freeze<L: Group>(
    rt: &impl Wait,
    alloc: Global,
    shared: &Shared<L>,
    seat: &Seat<L>,
) -> Result<(), Fault> {
    let frozen = shared.freeze(rt, alloc, seat)?;
    compare(alloc, frozen.history(), seat)
}

// Makes each call through a seat.
fn ask_seat<L: Group>(
    rt: &impl Wait,
    alloc: Global,
    shared: &Shared<L>,
    seats: &mut [Seat<L>],
    request: Request,
) -> Result<(), Fault> {
    let (node, reading, asked) = request;
    if let Some(seat) = seats.get_mut(node) {
        seat.reserve(4)?;
        ask(rt, alloc, shared, seat, reading, asked)?;
        look(rt, alloc, shared, seat)?;
        freeze(rt, alloc, shared, seat)?;
        let _ = shared.lose(rt, seat, EventId(99));
    }
    Ok(())
}

fn ask_seats<L: Group>(
    rt: &impl Wait,
    alloc: Global,
    shared: &Shared<L>,
    seats: &mut [Seat<L>],
    requests: &[Request],
) -> Result<(), Fault> {
    for request in requests {
        ask_seat(rt, alloc, shared, seats, *request)?;
    }
    Ok(())
}

fn closed<L: Group>(rt: &impl Wait, alloc: Global, blank: Blank) -> Result<Answer, Fault>
    requires ledger { blank.name ≡ L.name }
    requires parts { (blank.parts ≡ L.parts) × (blank.parts ≡ L.nodes) × (blank.parts ≡ 2) }
    requires capacity { L.capacity ≡ 16 }
    requires limit { L.limit ≡ Some 6 }
{
    let (shared, mut seats) = Shared::<L>::with_limit(alloc, blank, 2, 16, 6)?;
    ask_seats(rt, alloc, &shared, &mut seats, &REQUESTS)?;
    let closed = shared.close(alloc, seats)?;
    Ok(Answer::Counts(closed.history.len(), closed.logs.len()))
}

/// How many events and how many logs there are when all is done. All of it is made again if memory is refused to what takes the
/// cluster or makes it.
pub(crate) fn share(rt: &impl Wait, alloc: Global) -> Result<Answer, Fault> {
    closed::<Brand>(rt, alloc, Blank::new(2))
}

fn played<L: Group + Sync, R: Threads + Wait + Sync>(
    rt: &R,
    alloc: Global,
    blank: Blank,
) -> Result<Answer, Fault>
    requires ledger { blank.name ≡ L.name }
    requires parts { (blank.parts ≡ L.parts) × (blank.parts ≡ L.nodes) × (blank.parts ≡ 2) }
    requires capacity { L.capacity ≡ 40 }
    requires limit { L.limit ≡ None }
{
    let lists = storm(alloc, 7, 2, 20)?;
    let (shared, seats) = Shared::<L>::new(alloc, blank, 2, 40)?;
    let closed = run_replicas(rt, alloc, shared, seats, lists, &AlwaysOpen)?;
    Ok(Answer::Counts(closed.history.len(), closed.logs.len()))
}

/// How many events and how many logs there are when replicas have played a seeded script.
pub(crate) fn play<R: Threads + Wait + Sync>(rt: &R, alloc: Global) -> Result<Answer, Fault> {
    played::<Brand, _>(rt, alloc, Blank::new(2))
}
