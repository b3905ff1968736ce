use crate::read_fault::ReadFault;

/// Where the reading of a script ends.
#[derive(Debug, Drop)]
pub enum End {
    /// All records are read.
    NoRecordLeft,
    /// The reader failed.
    ReadFailed(ReadFault),
    /// A record past the last that is allowed came.
    PastLimit,
}
