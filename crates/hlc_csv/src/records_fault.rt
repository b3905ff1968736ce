use crate::output_fault::{OUT_OF_MEMORY, OutputFault, WRITING_FAILED};
use crate::read_fault::ReadFault;
use std::alloc::AllocError;
use std::fmt;
use thiserror::Error;

/// Why records are read no further, or rows are written no further, before the records end.
#[derive(Clone, Copy, Debug, PartialEq, Eq, Drop, Error)]
pub enum RecordsFault {
    /// The reader failed.
    Read,
    /// The writer failed.
    Write,
    /// A record past the last that is allowed came.
    TooLong,
    /// A growth was refused.
    Memory,
}

impl fmt::Display for RecordsFault {
    ghost use Rattle.std.specs.Prelude.{Some};
    ghost use Rattle.hlc_csv.specs.Fault.{records_fault_text};

    ghost output = { λ fault. Some (records_fault_text fault) };

    fn fmt<W: fmt::Write>(&self, f: &mut fmt::Formatter<W>) -> fmt::Result {
        match self {
            RecordsFault::Read => f.write_str("reading failed"),
            RecordsFault::Write => f.write_str(WRITING_FAILED),
            RecordsFault::TooLong => f.write_str("too many records"),
            RecordsFault::Memory => f.write_str(OUT_OF_MEMORY),
        }
    }
}

impl From<AllocError> for RecordsFault {
    ghost use Rattle.std.specs.Prelude.{◌≡◌};
    ghost use Rattle.hlc_csv.specs.declared.records_fault.RecordsFault.TheVariants.{Memory};

    ghost from_gives = { λ _ e. e ≡ Memory };

    fn from(_error: AllocError) -> RecordsFault {
        RecordsFault::Memory
    }
}

impl From<ReadFault> for RecordsFault {
    ghost use Rattle.std.specs.Prelude.{◌≡◌};
    ghost use Rattle.hlc_csv.specs.declared.records_fault.RecordsFault.TheVariants.{Read};

    ghost from_gives = { λ _ e. e ≡ Read };

    fn from(_fault: ReadFault) -> RecordsFault {
        RecordsFault::Read
    }
}

impl From<OutputFault> for RecordsFault {
    ghost use Rattle.std.specs.Prelude.{◌≡◌};
    ghost use Rattle.hlc_csv.specs.Fault.{records_fault_of};

    ghost from_gives = { λ fault e. e ≡ records_fault_of fault };

    fn from(fault: OutputFault) -> RecordsFault {
        match fault {
            OutputFault::Write => RecordsFault::Write,
            OutputFault::Memory => RecordsFault::Memory,
        }
    }
}
