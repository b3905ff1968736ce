// The lines on which the records of a log begin that is read a byte at a time, which no clause says, and how names are numbered.

use crate::slow::Slow;
use hlc_log::{LogKind, MessageId};
use hlc_log_text::{LogRules, LogText, NameKey, Names, StampForm, read_log};
use hlc_stamp::{EventId, NodeId};
use std::alloc::Global;
use std::process::Abort;

// Logs, with the lines on which their events begin.
static LINES: [(&[u8], &[u32]); 6] = [
    (
        b"local,a,1,1,0\n\nlocal,a,2,2,0\n\n\nlocal,a,3,3,0",
        &[1, 3, 6],
    ),
    (
        b"\r\nlocal,a,1,1,0\r\nlocal,a,2,2,0\r\n\r\nlocal,a,3,3,0\r\n",
        &[2, 3, 5],
    ),
    (
        b"local,a,1,1,0\r\n\r\nlocal,a,2,2,0\nlocal,\"a\n\",3,3,0\nlocal,a,4,4,0",
        &[1, 3, 4, 6],
    ),
    // Fields that span lines: of the first record, after blank lines, and over ends of both kinds.
    (
        b"local,\"a\nb\",1,1,0,\"x\n\n\"\nlocal,\"a\r\nb\",2,2,0\n\"local\",c,3,3,0",
        &[1, 5, 7],
    ),
    (
        b"local,a,1,1,0\nlocal,a,2,2,0,\"\n\"\n\n\nlocal,a,3,3,0,\"x\ny\"\nlocal,a,4,4,0\n",
        &[1, 2, 6, 8],
    ),
    (
        b"local,a,1,1,0,\"\r\n\"\r\nlocal,a,2,2,0,\"x\ny\"\r\n\r\nlocal,a,3,3,0\r\n",
        &[1, 3, 6],
    ),
];

// Reads a log a byte at a time. Callers end with `drop`: it is checked much faster than a drop at the end of a scope.
fn slow_log_of(rt: &impl Abort, alloc: Global, bytes: &[u8]) -> LogText {
    let slow = Slow {
        bytes,
        fails: false,
    };
    let rules = LogRules::exact(StampForm::Pair);
    read_log(alloc, slow, rules, 16, NameKey::fixed()).expect(rt, "a log")
}

fn expect_lines(rt: &impl Abort, alloc: Global, bytes: &[u8], lines: &[u32]) {
    let text = slow_log_of(rt, alloc, bytes);
    assert!(rt; text.log().len() as usize == lines.len());
    for (place, line) in (0..text.log().len()).zip(lines) {
        let event = text.log().get(EventId(place)).expect(rt, "an event");
        assert!(rt; event.line == *line, "{place}: not {line}");
    }
    drop(text);
}

#[test]
fn records_begin_on_their_lines(rt: HostRuntime) {
    for (bytes, lines) in &LINES {
        expect_lines(&rt, rt.alloc(), bytes, lines);
    }
}

fn expect_name(rt: &impl Abort, names: &Names, number: usize, name: &[u8]) {
    let found = names.name(number).expect(rt, "a name");
    assert!(rt; found == name);
}

fn expect_names(rt: &impl Abort, text: &LogText) {
    let last = text.log().get(EventId(2)).expect(rt, "an event");
    assert!(rt; last.node == NodeId(0) && last.kind == LogKind::Receive(MessageId(0)));
    assert!(rt; text.details().nodes().len() == 2);
    expect_name(rt, text.details().nodes(), 1, b"a\r\nb");
    assert!(rt; text.messages() == 2);
}

#[test]
fn names_are_numbered(rt: HostRuntime) {
    let text = b"send,b,1,1,0,m,label\nreceive,\"a\r\nb\",2,2,0,n\nreceive,b,3,3,0,m\n";
    let text = slow_log_of(&rt, rt.alloc(), text);
    expect_names(&rt, &text);
    drop(text);
}
