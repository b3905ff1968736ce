ghost use Rattle.std.specs.Prelude.{◌≡◌};

use std::alloc::AllocError;
use thiserror::Error;

/// Why a cluster can't be made. The conditions are asked in this order, and the first that holds is answered.
#[derive(Clone, Copy, Debug, PartialEq, Eq, Drop, Error)]
pub enum ClusterFault {
    /// There are not 2 to 64 nodes.
    #[error("the number of nodes is not 2 to 64")]
    BadNodes,
    /// The capacity is not 1 to 16,777,216 events.
    #[error("the capacity is not 1 to 16777216 events")]
    BadCapacity,
    /// A growth was refused, and no other condition holds.
    #[error("out of memory")]
    Memory,
}

impl From<AllocError> for ClusterFault {
    ghost use Rattle.hlc_core.specs.declared.cluster_fault.ClusterFault.TheVariants.{Memory};

    ghost from_gives = { λ _ e. e ≡ Memory };

    fn from(_error: AllocError) -> ClusterFault {
        ClusterFault::Memory
    }
}
