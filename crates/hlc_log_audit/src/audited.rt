use crate::outcome::Outcome;

/// What an audit answers, beside the rows that it writes.
#[derive(Clone, Copy, Debug, PartialEq, Eq)]
pub struct Audited {
    /// What it found.
    pub outcome: Outcome,
    /// How many events the log has. Of input that is no log nothing is promised here.
    pub events: u32,
}
