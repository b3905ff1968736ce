use std::alloc::AllocError;
use thiserror::Error;

/// Why a picture wasn't drawn, or what it doesn't show.
#[derive(Clone, Copy, Debug, PartialEq, Eq, Drop, Error)]
pub enum DrawFault {
    /// The history has no such event as the one to explain. The picture is drawn, and says so.
    #[error("no such event")]
    NoEvent,
    /// The writer failed.
    #[error("writing failed")]
    Write,
    /// A growth was refused.
    #[error("out of memory")]
    Memory,
}

impl From<AllocError> for DrawFault {
    ghost use Rattle.std.specs.Prelude.{◌≡◌};
    ghost use Rattle.hlc_diagram.specs.declared.draw_fault.DrawFault.TheVariants.{Memory};

    ghost from_gives = { λ _ e. e ≡ Memory };

    fn from(_error: AllocError) -> DrawFault {
        DrawFault::Memory
    }
}
