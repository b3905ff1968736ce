ghost use Rattle.std.specs.Prelude.{◌≡◌};

use hlc_stamp::NodeId;
use std::alloc::AllocError;
use thiserror::Error;

/// Why a history isn't given back with logs that agree with it.
#[derive(Clone, Copy, Debug, PartialEq, Eq, Drop, Error)]
pub enum LogFault {
    /// The log of this node doesn't agree with the history.
    #[error("log mismatch at node {}", .0.0)]
    Mismatch(NodeId),
    /// A growth was refused.
    #[error("out of memory")]
    Memory,
}

impl From<AllocError> for LogFault {
    ghost use Rattle.hlc_shared.specs.declared.log_fault.LogFault.TheVariants.{Memory};

    ghost from_gives = { λ _ e. e ≡ Memory };

    fn from(_error: AllocError) -> LogFault {
        LogFault::Memory
    }
}
