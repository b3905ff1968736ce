use hlc_stamp::EventId;

/// How far one node's clock is ahead of another's, as the messages from the one to the other show it: the readings of that
/// message for which the send's less the delivery's is greatest.
///
/// A message takes some time, so with right clocks the send's reading is the lower one. No network explains a greater one.
#[derive(Clone, Copy, PartialEq, Eq)]
pub struct Skew {
    /// The send that shows it.
    pub send: EventId,
    /// Its delivery, the first that shows so much.
    pub delivery: EventId,
    /// What the clock read at the send.
    pub sent_at: u64,
    /// What the other clock read at the delivery.
    pub delivered_at: u64,
}
