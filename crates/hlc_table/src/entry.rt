use hlc_stamp::{EventId, Rank};

/// A write of a key: its event, and its rank among the writes of the key.
#[derive(Clone, Copy, Debug, PartialEq, Eq)]
pub struct Entry {
    /// The event that wrote.
    pub write: EventId,
    /// The rank of the write.
    pub rank: Rank,
}
