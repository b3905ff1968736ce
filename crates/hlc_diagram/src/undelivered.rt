use hlc_stamp::{EventId, NodeId};

/// A message that was lost, or whose delivery was refused. That is no event, and has no number.
#[derive(Clone, Copy, PartialEq, Eq)]
pub struct Undelivered {
    /// The send of the message.
    pub send: EventId,
    /// The node that it was for.
    pub to: NodeId,
    /// The next event, or where that would stand: as many events as there were by then.
    pub before: EventId,
}
