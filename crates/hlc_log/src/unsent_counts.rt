/// How many events of a log receive messages that no event of it sends, by what they were taken as.
#[derive(Clone, Copy, Debug, PartialEq, Eq)]
pub struct UnsentCounts {
    /// As coming in from outside: the log tells which stamps their messages carried.
    pub outside: u32,
    /// As local.
    pub unsent: u32,
}
