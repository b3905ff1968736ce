/// What the watch of a log found.
#[derive(Clone, Copy, Debug, PartialEq, Eq)]
pub enum WatchOutcome {
    /// The log has ended, and was told of.
    Ended {
        /// How many events it had.
        events: u32,
        /// Whether a stamp is behind or not above another one, or a message carried another stamp than its send.
        broken: bool,
        /// Whether a claim is over the limit.
        over_limit: bool,
    },
    /// A record is bad, and isn't to be left out: the last row that was written says why.
    BadLog,
}
