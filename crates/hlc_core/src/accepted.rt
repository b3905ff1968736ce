use hlc_stamp::{EventId, Stamp};

/// The answer to an accepted request: the new event, by its place in the history, and its stamp.
#[derive(Clone, Copy, Debug)]
pub struct Accepted {
    /// The new event.
    pub event: EventId,
    /// The stamp that the clock rule gave it.
    pub stamp: Stamp,
}
