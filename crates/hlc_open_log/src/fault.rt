ghost use Rattle.std.specs.Prelude.{◌≡◌};

use crate::bad_input::BadInput;
use hlc_csv::RecordsFault;
use hlc_log_text::LogTextFault;
use std::alloc::AllocError;
use thiserror::Error;

/// Why a log could not be opened.
#[derive(Debug, Drop, Error)]
pub enum OpenFault {
    /// The input is bad.
    #[error("the input is no log")]
    Bad(BadInput),
    /// Its records are read no further: the reader failed, a record past the last that is allowed came, or a growth was refused.
    #[error("{0}")]
    Records(RecordsFault),
}

impl From<AllocError> for OpenFault {
    ghost use Rattle.hlc_csv.specs.declared.records_fault.RecordsFault.TheVariants.{Memory};
    ghost use Rattle.hlc_open_log.specs.declared.fault.OpenFault.TheVariants.{Records};

    ghost from_gives = { λ _ e. e ≡ Records Memory };

    fn from(_error: AllocError) -> OpenFault {
        OpenFault::Records(RecordsFault::Memory)
    }
}

impl From<LogTextFault> for OpenFault {
    ghost use Rattle.hlc_open_log.specs.Unopened.{read_fault};

    ghost from_gives = { λ fault e. e ≡ read_fault fault };

    fn from(fault: LogTextFault) -> OpenFault {
        match fault {
            LogTextFault::Bad(records) => OpenFault::Bad(BadInput::Records(records)),
            LogTextFault::Records(fault) => OpenFault::Records(fault),
        }
    }
}
