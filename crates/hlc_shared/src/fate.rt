ghost use Rattle.std.specs.Prelude.{◌≡◌};
ghost use Rattle.hlc_shared.specs.Endings.{worse_of};

use hlc_stamp::NodeId;
use std::alloc::AllocError;

/// Why there is no result.
#[derive(Clone, Copy, Drop)]
pub enum Fate {
    /// This node was shut out.
    Shut(NodeId),
    /// A growth was refused, or a thread couldn't be started.
    Memory,
}

impl Fate {
    /// Memory, or else the lesser of two nodes that were shut out.
    pub(crate) fn or_worse(self, other: Fate) -> Fate
        ensures { result ≡ worse_of self other }
    {
        match (self, other) {
            (Fate::Shut(one), Fate::Shut(two)) => Fate::Shut(if two.0 < one.0 { two } else { one }),
            _ => Fate::Memory,
        }
    }
}

impl From<AllocError> for Fate {
    ghost use Rattle.std.specs.Prelude.{◌≡◌};
    ghost use Rattle.hlc_shared.specs.declared.fate.Fate.TheVariants.{Memory};

    ghost from_gives = { λ _ fate. fate ≡ Memory };

    fn from(_error: AllocError) -> Fate {
        Fate::Memory
    }
}
