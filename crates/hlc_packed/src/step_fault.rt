/// Why a packed clock has no number for its next event.
#[derive(Clone, Copy, Debug, PartialEq, Eq)]
pub enum StepFault {
    /// The reading is 0, or has more bits than `l`.
    Reading,
    /// The number after the clock's is ahead of the reading by more than the limit.
    ClockTooFar,
    /// The number after the message's is.
    MessageTooFar,
    /// The clock's number or the message's is the greatest.
    NoRoom,
}
