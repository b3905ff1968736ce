// The arguments of a command line, and comparisons of what it gives.

use std::alloc::Global;
use std::fmt::Debug;
use std::process::Abort;

pub(crate) fn arguments<'a>(rt: &impl Abort, alloc: Global, line: &'a str) -> Vec<&'a str> {
    line.split(' ').collect(alloc).expect(rt, "arguments")
}

// Compares what a line gives, and names the line if it gives something else.
pub(crate) fn expect_at<T: Copy + PartialEq + Debug>(
    rt: &impl Abort,
    line: &str,
    found: T,
    want: T,
) {
    assert_eq!(rt; found, want, "at {line}");
}
