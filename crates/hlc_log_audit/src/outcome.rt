/// What an audit found of a log.
#[derive(Clone, Copy, Debug, PartialEq, Eq)]
pub enum Outcome {
    /// What is told of the log was written. No stamp is behind or not above another one, each message carried its send's, and none is over the
    /// limit.
    Sound,
    /// The same, but a drift exceeds the limit, or a claimed `l` is above its reading by more than that.
    OverLimit,
    /// What is told of the log was written. A stamp is behind or not above another one, or a message carried another stamp than its send.
    Broken {
        /// Whether it is also over the limit.
        over_limit: bool,
    },
    /// The input is no log: the one row that was written says why.
    BadLog,
}
