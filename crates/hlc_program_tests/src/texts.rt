// The texts of faults in which no run of the program ends that can be brought about, and bytes as `Debug` shows them.

use crate::comparisons::expect_at;
use clap::error::ErrorKind;
use hlc_arena::ReserveFault;
use hlc_cli::{CommandFault, Ended, Fault, report};
use hlc_command_line::{LineFault, order};
use hlc_core::{ClusterFault, Refusal};
use hlc_csv::{OutputFault, RecordsFault};
use hlc_pages::{Bytes, INLINE_LEN};
use hlc_picture::DrawFault;
use hlc_pool::NoMessage;
use hlc_seeded::StormFault;
use hlc_shared::{LogFault, SharedFault};
use hlc_stamp::NodeId;
use hlc_text::TextFault;
use hlc_verdict::AuditFault;
use std::alloc::Global;
use std::fmt::Display;
use std::process::Abort;

static RESERVE_FAULTS: [(ReserveFault, &str); 2] = [
    (ReserveFault::Full, "the history is full"),
    (ReserveFault::Memory, "out of memory"),
];

static NO_MESSAGE: [(NoMessage, &str); 1] = [(NoMessage, "no such live message")];

static CLUSTER_FAULTS: [(ClusterFault, &str); 3] = [
    (ClusterFault::BadNodes, "the number of nodes is not 2 to 64"),
    (
        ClusterFault::BadCapacity,
        "the capacity is not 1 to 16777216 events",
    ),
    (ClusterFault::Memory, "out of memory"),
];

static REFUSALS: [(Refusal, &str); 13] = [
    (Refusal::NoNode, "no such node"),
    (Refusal::ZeroReading, "the reading is 0"),
    (Refusal::ReadingTooLarge, "the reading is above 2^63 - 1"),
    (Refusal::Full, "the history is full"),
    (
        Refusal::KeySize,
        "the key is empty or longer than 256 bytes",
    ),
    (Refusal::ValueSize, "the value is longer than 4096 bytes"),
    (Refusal::NoTarget, "no such target"),
    (Refusal::SelfSend, "the target is the node itself"),
    (Refusal::NoEntry, "the node has no entry to send"),
    (Refusal::NoMessage, "no such live message"),
    (
        Refusal::WrongNode,
        "the message is addressed to another node",
    ),
    (
        Refusal::TooFarAhead,
        "the event would be too far ahead of its reading",
    ),
    (Refusal::Memory, "out of memory"),
];

static STORM_FAULTS: [(StormFault, &str); 2] = [
    (StormFault::BadSettings, "bad settings"),
    (StormFault::Memory, "out of memory"),
];

static LOG_FAULTS: [(LogFault, &str); 2] = [
    (LogFault::Mismatch(NodeId(3)), "log mismatch at node 3"),
    (LogFault::Memory, "out of memory"),
];

static SHARED_FAULTS: [(SharedFault, &str); 3] = [
    (SharedFault::Mismatch(NodeId(3)), "log mismatch at node 3"),
    (SharedFault::GateShut(NodeId(63)), "gate shut at node 63"),
    (SharedFault::Memory, "out of memory"),
];

static AUDIT_FAULTS: [(AuditFault, &str); 4] = [
    (AuditFault::NoEvent, "no such event"),
    (AuditFault::NoNode, "no such node"),
    (AuditFault::BadTrace(7), "bad trace at place 7"),
    (AuditFault::Memory, "out of memory"),
];

static OUTPUT_FAULTS: [(OutputFault, &str); 2] = [
    (OutputFault::Write, "writing failed"),
    (OutputFault::Memory, "out of memory"),
];

static RECORDS_FAULTS: [(RecordsFault, &str); 4] = [
    (RecordsFault::Read, "reading failed"),
    (RecordsFault::Write, "writing failed"),
    (RecordsFault::TooLong, "too many records"),
    (RecordsFault::Memory, "out of memory"),
];

static TEXT_FAULTS: [(TextFault, &str); 5] = [
    (TextFault::Records(RecordsFault::Read), "reading failed"),
    (TextFault::Records(RecordsFault::Write), "writing failed"),
    (
        TextFault::Records(RecordsFault::TooLong),
        "too many records",
    ),
    (TextFault::Records(RecordsFault::Memory), "out of memory"),
    (TextFault::Settings, "bad settings"),
];

static DRAW_FAULTS: [(DrawFault, &str); 3] = [
    (DrawFault::NoEvent, "no such event"),
    (DrawFault::Write, "writing failed"),
    (DrawFault::Memory, "out of memory"),
];

fn expect_texts<E: Display>(rt: &impl Abort, alloc: Global, faults: &[(E, &str)]) {
    for (fault, text) in faults {
        let found = format!(in alloc; "{fault}").expect(rt, "a text");
        expect_at(rt, text, found.as_str(), *text);
    }
}

#[test]
fn each_fault_has_its_text(rt: HostRuntime) {
    let alloc = rt.alloc();
    expect_texts(&rt, alloc, &RESERVE_FAULTS);
    expect_texts(&rt, alloc, &NO_MESSAGE);
    expect_texts(&rt, alloc, &CLUSTER_FAULTS);
    expect_texts(&rt, alloc, &REFUSALS);
    expect_texts(&rt, alloc, &STORM_FAULTS);
    expect_texts(&rt, alloc, &LOG_FAULTS);
    expect_texts(&rt, alloc, &SHARED_FAULTS);
    expect_texts(&rt, alloc, &AUDIT_FAULTS);
    expect_texts(&rt, alloc, &OUTPUT_FAULTS);
    expect_texts(&rt, alloc, &RECORDS_FAULTS);
    expect_texts(&rt, alloc, &DRAW_FAULTS);
    expect_texts(&rt, alloc, &TEXT_FAULTS);
    // (a run tells the option's range in place of this)
    let signed = LineFault::Sign("packed");
    let text = "--packed takes a whole number without a sign";
    expect_texts(&rt, alloc, &[(signed, text)]);
}

// What stops a command in no run, and the line that tells of it.
static TOLD: [(CommandFault, &str); 3] = [
    (CommandFault::Settings, "hlc: bad settings\n"),
    (
        CommandFault::Mismatch(NodeId(3)),
        "hlc: log mismatch at node 3\n",
    ),
    (
        CommandFault::GateShut(NodeId(63)),
        "hlc: gate shut at node 63\n",
    ),
];

#[test]
fn tells_of_faults_of_no_run(rt: HostRuntime) {
    for (fault, line) in &TOLD {
        let mut errors = Vec::new(rt.alloc());
        let failed = Ended {
            status: 1,
            told: true,
        };
        let found = report(&mut errors, &Fault::Command(*fault));
        expect_at(&rt, line, found, failed);
        expect_at(&rt, line, errors.as_slice(), line.as_bytes());
    }
}

// A program that is run has a name at least.
#[test]
fn no_arguments_name_no_subcommand(rt: HostRuntime) {
    let fault = order(rt.alloc(), &[]).err();
    let kind = match &fault {
        Some(LineFault::Line(e)) => Some(e.kind()),
        _ => None,
    };
    assert_eq!(rt; kind, Some(ErrorKind::MissingSubcommand));
}

#[test]
fn bytes_are_shown_as_a_list(rt: HostRuntime) {
    let bytes = Bytes::from_slice(rt.alloc(), b"cart").expect(&rt, "bytes");
    let shown = format!(in rt.alloc(); "{bytes:?}").expect(&rt, "a text");
    assert_eq!(rt; shown.as_str(), "[99, 97, 114, 116]");
    assert_eq!(rt; INLINE_LEN, 22);
}
