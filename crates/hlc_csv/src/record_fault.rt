use crate::records_fault::RecordsFault;
use std::alloc::AllocError;
use std::io::{self, ErrorKind};
use thiserror::Error;

/// Why no record of a log could be read.
#[derive(Clone, Copy, Debug, PartialEq, Eq, Drop, Error)]
pub enum RecordFault {
    /// The reader failed.
    #[error("{}", RecordsFault::Read)]
    Read,
    /// A growth was refused.
    #[error("{}", RecordsFault::Memory)]
    Memory,
}

impl RecordFault {
    // What a read that failed tells: readers that make what they give say so if memory for it is refused.
    pub(crate) fn of(error: &io::Error) -> RecordFault {
        match error.kind() {
            ErrorKind::OutOfMemory => RecordFault::Memory,
            _ => RecordFault::Read,
        }
    }
}

impl From<AllocError> for RecordFault {
    ghost use Rattle.std.specs.Prelude.{◌≡◌};
    ghost use Rattle.hlc_csv.specs.declared.record_fault.RecordFault.TheVariants.{Memory};

    ghost from_gives = { λ _ e. e ≡ Memory };

    fn from(_error: AllocError) -> RecordFault {
        RecordFault::Memory
    }
}
