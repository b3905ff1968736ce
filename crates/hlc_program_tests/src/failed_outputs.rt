// Outputs that fail only where they are flushed, as that of the program never does: a line says so, and the status is 1.

use crate::comparisons::{arguments, expect_at};
use crate::streams::Unflushed;
use hlc_cli::{Ended, perform};
use std::process::Abort;
use std::random::RandomSource;
use std::sync::Wait;
use std::thread::Threads;

// Lines, and what they read: each command writes something.
static LINES: [(&str, &str); 13] = [
    ("hlc run --nodes 2 --capacity 16", "write,0,10,a,x\n"),
    ("hlc draw --nodes 2 --capacity 16", "write,0,10,a,x\n"),
    (
        "hlc draw --nodes 2 --capacity 16 --only-chain --explain 0",
        "write,0,10,a,x\n",
    ),
    ("hlc trace --nodes 2 --capacity 16", "write,0,10,a,x\n"),
    (
        "hlc trace --nodes 2 --capacity 16 --vector",
        "write,0,10,a,x\n",
    ),
    ("hlc judge", "local,0,10,10,0\n"),
    ("hlc audit", "local,a,10,10,0\n"),
    ("hlc audit --ask event,1", "local,a,10,10,0\n"),
    ("hlc watch", "local,a,10,10,0\n"),
    ("hlc draw-log", "local,a,10,10,0\n"),
    ("hlc storm --nodes 2 --steps 3 --seed 1", ""),
    ("hlc threads --nodes 2 --steps 3 --seed 1", ""),
    ("hlc --help", ""),
];

fn expect_unflushed<R: AllocGlobal + Threads + Wait + Abort + RandomSource + Sync>(
    rt: &R,
    line: &str,
    input: &[u8],
) {
    let arguments = arguments(rt, rt.alloc(), line);
    let mut errors = Vec::new(rt.alloc());
    let found = perform(rt, arguments.as_slice(), input, &mut Unflushed, &mut errors);
    let failed = Ended {
        status: 1,
        told: true,
    };
    expect_at(rt, line, found, failed);
    let told = b"hlc: writing failed\n".as_slice();
    expect_at(rt, line, errors.as_slice(), told);
}

#[test]
fn tells_that_an_output_was_not_flushed(rt: HostRuntime) {
    for (line, input) in &LINES {
        expect_unflushed(&rt, line, input.as_bytes());
    }
}
