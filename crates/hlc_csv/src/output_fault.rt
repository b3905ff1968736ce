use std::alloc::AllocError;
use std::fmt;
use thiserror::Error;

// What is said of these faults, of which `RecordsFault` says the same.
pub(crate) const WRITING_FAILED: &str = "writing failed";

pub(crate) const OUT_OF_MEMORY: &str = "out of memory";

/// Why rows could not be handed out.
#[derive(Clone, Copy, Debug, PartialEq, Eq, Drop, Error)]
pub enum OutputFault {
    /// The writer failed.
    Write,
    /// A growth was refused.
    Memory,
}

impl fmt::Display for OutputFault {
    ghost use Rattle.std.specs.Prelude.{Some};
    ghost use Rattle.hlc_csv.specs.Fault.{output_fault_text};

    ghost output = { λ fault. Some (output_fault_text fault) };

    fn fmt<W: fmt::Write>(&self, f: &mut fmt::Formatter<W>) -> fmt::Result {
        match self {
            OutputFault::Write => f.write_str(WRITING_FAILED),
            OutputFault::Memory => f.write_str(OUT_OF_MEMORY),
        }
    }
}

impl From<AllocError> for OutputFault {
    ghost use Rattle.std.specs.Prelude.{◌≡◌};
    ghost use Rattle.hlc_csv.specs.declared.output_fault.OutputFault.TheVariants.{Memory};

    ghost from_gives = { λ _ e. e ≡ Memory };

    fn from(_error: AllocError) -> OutputFault {
        OutputFault::Memory
    }
}
