ghost use Rattle.std.specs.Prelude.{◌≡◌};

use crate::bad_log::BadRecord;
use hlc_csv::{RecordFault, RecordsFault};
use std::alloc::AllocError;
use thiserror::Error;

/// Why a log could not be read.
#[derive(Debug, Drop, Error)]
pub enum LogTextFault {
    /// Records are bad: the first such that isn't left out; or each, in their order, if each is to be told.
    #[error("a record is bad")]
    Bad(Vec<BadRecord>),
    /// They are read no further: the reader failed, a record past the last that is allowed came, or a growth was refused.
    #[error("{0}")]
    Records(RecordsFault),
}

impl From<AllocError> for LogTextFault {
    ghost use Rattle.hlc_csv.specs.declared.records_fault.RecordsFault.TheVariants.{Memory};
    ghost use Rattle.hlc_log_text.specs.declared.fault.LogTextFault.TheVariants.{Records};

    ghost from_gives = { λ _ e. e ≡ Records Memory };

    fn from(_error: AllocError) -> LogTextFault {
        LogTextFault::Records(RecordsFault::Memory)
    }
}

impl From<RecordFault> for LogTextFault {
    ghost use Rattle.hlc_log_text.specs.ReadLog.{record_fault};

    ghost from_gives = { λ fault e. e ≡ record_fault fault };

    fn from(fault: RecordFault) -> LogTextFault {
        LogTextFault::Records(match fault {
            RecordFault::Read => RecordsFault::Read,
            RecordFault::Memory => RecordsFault::Memory,
        })
    }
}
