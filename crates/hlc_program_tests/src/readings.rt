// How far scripts and traces are read, and how many rows wait to be written. That a reader or a writer fails .ci/refusals shows of the program.

use crate::streams::{Counting, Faltering};
use hlc_text::{RecordsFault, Settings, TextFault, run};
use hlc_trace::judge_run;
use std::alloc::Global;
use std::process::Abort;

const SETTINGS: Settings = Settings {
    nodes: 2,
    capacity: 4,
    limit: None,
};

// As many records as a script or a trace may have, and one more.
const TOO_MANY: usize = 1_048_577;

fn repeated(rt: &impl Abort, alloc: Global, bytes: &[u8], count: usize) -> Vec<u8> {
    bytes.repeat(alloc, count).expect(rt, "bytes")
}

// The readers fail right after the first record past the limit.
#[test]
fn reads_no_further_than_past_the_limit(rt: HostRuntime) {
    let alloc = rt.alloc();
    let records = repeated(&rt, alloc, b"x\n", TOO_MANY);
    let mut rows = Counting {
        writes: 0,
        largest: 0,
    };
    let reader = Faltering { bytes: &records };
    let ended = run(alloc, reader, &mut rows, SETTINGS).err();
    assert_eq!(rt; ended, Some(TextFault::Records(RecordsFault::TooLong)));
    let claims = repeated(&rt, alloc, b"local,0,1,1,0\n", TOO_MANY);
    let mut verdicts = Vec::new(alloc);
    let ended = judge_run(alloc, Faltering { bytes: &claims }, &mut verdicts).err();
    assert_eq!(rt; ended, Some(RecordsFault::TooLong));
    assert!(rt; verdicts.is_empty());
}

// The reader fails right after the bad record.
#[test]
fn reads_no_further_than_a_bad_record(rt: HostRuntime) {
    let bytes = b"local,0,10,10,0\nfrob\n".as_slice();
    let mut rows = Vec::new(rt.alloc());
    let ended = judge_run(rt.alloc(), Faltering { bytes }, &mut rows);
    assert!(rt; ended == Ok(()));
    assert_eq!(rt; rows.as_slice(), b"bad,1,word\n".as_slice());
}

// The rows that wait to be a batch, and one row more.
const MOST_WAITING: usize = 65_536 + 13;

// The rows are handed on while more come, and never more of them at once than wait.
#[test]
fn hands_rows_on_in_batches(rt: HostRuntime) {
    let records = repeated(&rt, rt.alloc(), b"x\n", 12_000);
    let mut out = Counting {
        writes: 0,
        largest: 0,
    };
    let ended = run(rt.alloc(), records.as_slice(), &mut out, SETTINGS).err();
    assert!(rt; ended.is_none());
    assert!(rt; out.writes == 3);
    assert!(rt; out.largest <= MOST_WAITING);
}
