// Logs of node 0 that tell other things than happened, beside its own.

ghost use Rattle.hlc_arena.specs.ClockRule.{HasLeastStamps};

use crate::actions::Ask::{Pull, Send, Write};
use crate::actions::{Ask, action_of, bytes};
use crate::shared_calls::{
    FIRST_CALLS, close, expect_agreement, expect_mismatch, expect_one_agreement,
};
use hlc_arena::Arena;
use hlc_held::{Logged, Seen};
use hlc_stamp::{EventId, NodeId, Rank, Stamp};
use hlc_table::Entry;
use std::alloc::Global;
use std::marker::Brand;
use std::process::Abort;
use std::sync::ledger::Blank;

// An entry of a log, as a table has it.
#[derive(Clone, Copy)]
enum Told {
    // A reading, what was asked, the event, and `l` and `c` of its stamp.
    Acted(u64, Ask, u32, (u64, u32)),
    // The value that a look at the key `a` showed, by event 0.
    Looked(Option<&'static str>),
}

use Told::{Acted, Looked};

const WRITE: Told = Acted(10, Write("a", "x"), 0, (10, 0));

const LOOK: Told = Looked(Some("x"));

const SEND: Told = Acted(11, Send(1, "a"), 2, (11, 0));

// Logs, and whether they agree with the history.
static LOGS: [(&[Told], bool); 11] = [
    (&[WRITE, LOOK, SEND], true),
    (&[Acted(10, Pull("a", "x"), 0, (10, 0)), LOOK, SEND], true),
    (&[Acted(11, Write("a", "x"), 0, (10, 0)), LOOK, SEND], false),
    (&[Acted(10, Write("a", "x"), 0, (10, 1)), LOOK, SEND], false),
    (&[Acted(10, Write("a", "y"), 0, (10, 0)), LOOK, SEND], false),
    (&[WRITE, Looked(None), SEND], false),
    (&[WRITE, Looked(Some("y")), SEND], false),
    (&[LOOK, WRITE, SEND], false),
    (&[WRITE, LOOK, Acted(11, Send(1, "b"), 2, (11, 0))], false),
    (&[WRITE, LOOK], false),
    (&[WRITE, WRITE, LOOK, SEND], false),
];

// What a look at the first write shows, if its value was this.
fn seen(rt: &impl Abort, alloc: Global, value: &str) -> Seen {
    let rank = Rank {
        stamp: Stamp { l: 10, c: 0 },
        node: NodeId(0),
    };
    Seen {
        entry: Entry {
            write: EventId(0),
            rank,
        },
        value: Some(bytes(rt, alloc, value)),
    }
}

fn entry_of(rt: &impl Abort, alloc: Global, told: Told) -> Logged {
    match told {
        Acted(reading, ask, event, (l, c)) => Logged::Acted {
            reading,
            action: action_of(rt, alloc, ask),
            event: EventId(event),
            stamp: Stamp { l, c },
        },
        Looked(value) => Logged::Looked {
            key: bytes(rt, alloc, "a"),
            answer: match value {
                Some(value) => Some(seen(rt, alloc, value)),
                None => None,
            },
        },
    }
}

fn log_of(rt: &impl Abort, alloc: Global, told: &[Told]) -> Vec<Logged> {
    let mut log = Vec::new(alloc);
    for entry in told {
        log.push(entry_of(rt, alloc, *entry)).expect(rt, "a log");
    }
    log
}

fn expect_logs(rt: &impl Abort, alloc: Global, history: &Arena)
    requires { HasLeastStamps history.now.events }
{
    for (told, agree) in &LOGS {
        let log = log_of(rt, alloc, told);
        expect_agreement(rt, alloc, history, NodeId(0), &log, *agree);
    }
}

#[test]
fn forged_logs_disagree(rt: HostRuntime) {
    let alloc = rt.alloc();
    let answer = close::<Brand, _>(&rt, alloc, Blank::new(2), 2, &FIRST_CALLS, 1, 2);
    let closed = answer.expect(&rt, "a history");
    expect_one_agreement(&rt, alloc, &closed);
    expect_logs(&rt, alloc, &closed.history);
}

#[test]
fn a_missing_log_disagrees(rt: HostRuntime) {
    let answer = close::<Brand, _>(&rt, rt.alloc(), Blank::new(2), 2, &FIRST_CALLS, 1, 1);
    expect_mismatch(&rt, answer, 0);
}
