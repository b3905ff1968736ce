/// What came of a script.
#[derive(Clone, Copy)]
pub struct Counts {
    /// The records read.
    pub records: u64,
    /// The events that they made.
    pub events: u64,
    /// The rows that begin with `refused`.
    pub refused: u64,
}
