ghost use Rattle.std.specs.Prelude.{◌≡◌};

use std::alloc::AllocError;
use thiserror::Error;

/// Why there are no seeded scripts.
#[derive(Clone, Copy, Debug, PartialEq, Eq, Drop, Error)]
pub enum StormFault {
    /// There are not 2 to 64 nodes, or not 1 to 16,384 steps.
    #[error("bad settings")]
    BadSettings,
    /// A growth was refused, and the settings are good.
    #[error("out of memory")]
    Memory,
}

impl From<AllocError> for StormFault {
    ghost use Rattle.hlc_seeded.specs.declared.storm_fault.StormFault.TheVariants.{Memory};

    ghost from_gives = { λ _ e. e ≡ Memory };

    fn from(_error: AllocError) -> StormFault {
        StormFault::Memory
    }
}
