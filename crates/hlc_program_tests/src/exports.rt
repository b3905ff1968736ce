// The export of a small history, which no command makes.

use crate::streams::Unflushed;
use hlc_text::{OutputFault, Ran, Settings, export, run};
use std::alloc::Global;
use std::process::Abort;

// No record is refused, and each says what the export says.
const TEXT: &str = "write,0,10,k,v\n\
    write,1,7,\"a,\"\"b\"\"\",\n\
    erase,0,9223372036854775807,k\n\
    send,0,10,2,k\n\
    deliver,2,1,3\n\
    deliver,2,1,3\n\
    erase,2,11,\"two\nlines\"\n";

const TRIO: Settings = Settings {
    nodes: 3,
    capacity: 7,
    limit: None,
};

fn ran(rt: &impl Abort, alloc: Global, script: &str) -> Ran {
    let mut rows = Vec::new(alloc);
    run(alloc, script.as_bytes(), &mut rows, TRIO).expect(rt, "a run")
}

#[test]
fn exports_what_was_asked(rt: HostRuntime) {
    let alloc = rt.alloc();
    for script in &[TEXT, ""] {
        let left = ran(&rt, alloc, script);
        let mut out = Vec::new(alloc);
        export(alloc, &left.history, &mut out).expect(&rt, "an export");
        assert_eq!(rt; out.as_slice(), script.as_bytes());
    }
}

#[test]
fn tells_that_an_export_was_not_flushed(rt: HostRuntime) {
    let left = ran(&rt, rt.alloc(), TEXT);
    let ended = export(rt.alloc(), &left.history, &mut Unflushed);
    assert!(rt; ended == Err(OutputFault::Write));
}
