ghost use Rattle.std.specs.Prelude.{◌≡◌};

use hlc_core::ClusterFault;
use hlc_csv::{OutputFault, RecordsFault};
use thiserror::Error;

/// Why a run of a script ends before the script does.
#[derive(Clone, Copy, Debug, PartialEq, Eq, Drop, Error)]
pub enum TextFault {
    /// The records are read no further, or the answers are written no further.
    #[error("{0}")]
    Records(RecordsFault),
    /// The settings are outside of the limits.
    #[error("bad settings")]
    Settings,
}

impl From<OutputFault> for TextFault {
    ghost use Rattle.hlc_csv.specs.Fault.{records_fault_of};
    ghost use Rattle.hlc_text.specs.declared.text_fault.TextFault.TheVariants.{Records};

    ghost from_gives = { λ fault e. e ≡ Records (records_fault_of fault) };

    fn from(fault: OutputFault) -> TextFault {
        TextFault::Records(RecordsFault::from(fault))
    }
}

impl From<ClusterFault> for TextFault {
    ghost use Rattle.hlc_text.specs.Fault.{settings_fault_of};

    ghost from_gives = { λ fault e. e ≡ settings_fault_of fault };

    fn from(fault: ClusterFault) -> TextFault {
        match fault {
            ClusterFault::BadNodes | ClusterFault::BadCapacity => TextFault::Settings,
            ClusterFault::Memory => TextFault::Records(RecordsFault::Memory),
        }
    }
}
