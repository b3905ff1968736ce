use crate::seen::Seen;
use hlc_core::Action;
use hlc_stamp::{EventId, Stamp};

/// What a node was asked and what was answered, as its log keeps it.
#[derive(Debug, Drop)]
pub enum Logged {
    /// A request that was accepted.
    Acted {
        /// What the node's clock read.
        reading: u64,
        /// What was asked.
        action: Action,
        /// The new event.
        event: EventId,
        /// Its stamp.
        stamp: Stamp,
    },
    /// A look at the node's entry of a key.
    Looked {
        /// The key.
        key: Vec<u8>,
        /// The entry that was shown, or `None` if the node knew no write of the key.
        answer: Option<Seen>,
    },
}
