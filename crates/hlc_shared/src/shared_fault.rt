ghost use Rattle.std.specs.Prelude.{◌≡◌};

use crate::fate::Fate;
use crate::log_fault::LogFault;
use hlc_stamp::NodeId;
use std::alloc::AllocError;
use thiserror::Error;

/// Why a run of replicas gives nothing back.
#[derive(Clone, Copy, Debug, PartialEq, Eq, Drop, Error)]
pub enum SharedFault {
    /// The log of this node doesn't agree with the history.
    #[error("{}", LogFault::Mismatch(*.0))]
    Mismatch(NodeId),
    /// The gate was shut for this node.
    #[error("gate shut at node {}", .0.0)]
    GateShut(NodeId),
    /// A growth was refused, or the start of a thread.
    #[error("{}", LogFault::Memory)]
    Memory,
}

impl From<AllocError> for SharedFault {
    ghost use Rattle.hlc_shared.specs.declared.shared_fault.SharedFault.TheVariants.{Memory};

    ghost from_gives = { λ _ e. e ≡ Memory };

    fn from(_error: AllocError) -> SharedFault {
        SharedFault::Memory
    }
}

impl From<LogFault> for SharedFault {
    ghost use Rattle.hlc_shared.specs.Faults.{fault_of_logs};

    ghost from_gives = { λ fault e. e ≡ fault_of_logs fault };

    fn from(fault: LogFault) -> SharedFault {
        match fault {
            LogFault::Mismatch(node) => SharedFault::Mismatch(node),
            LogFault::Memory => SharedFault::Memory,
        }
    }
}

impl From<Fate> for SharedFault {
    ghost use Rattle.hlc_shared.specs.Faults.{fault_of_fate};

    ghost from_gives = { λ fate e. e ≡ fault_of_fate fate };

    fn from(fate: Fate) -> SharedFault {
        match fate {
            Fate::Shut(node) => SharedFault::GateShut(node),
            Fate::Memory => SharedFault::Memory,
        }
    }
}
