use hlc_stamp::EventId;

/// Where a cause stands.
#[derive(Clone, Copy)]
pub struct CausePlace {
    /// The place of its event in the log.
    pub event: EventId,
    /// The position of the event whose stamp the rule compares with, in the causal order. `None` if the rule compares with a reading, or with what
    /// else is the floor.
    pub compared: Option<EventId>,
}
