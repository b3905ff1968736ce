ghost use Rattle.std.specs.Prelude.{◌≡◌, ◌-◌};

use hlc_stamp::{EventId, NodeId, Stamp};

/// What is kept of an event: what causality reads of it, its stamp and its direct predecessors.
#[derive(Clone, Copy)]
pub struct Event {
    /// What the node's clock read.
    pub reading: u64,
    /// The stamp that it was given, by whatever clock.
    pub stamp: Stamp,
    /// Where it happened.
    pub node: NodeId,
    /// The node's event before it, if there is one.
    pub previous: Option<EventId>,
    /// The send that it delivers, if it is a delivery.
    pub send: Option<EventId>,
}

impl Event {
    /// How far the stamp's `l` is ahead of the reading: the drift of the event.
    #[inline]
    pub fn drift(&self) -> u64
        ensures { result ≡ self.now.stamp.l - self.now.reading }
    {
        self.stamp.l.saturating_sub(self.reading)
    }
}
