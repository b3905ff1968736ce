ghost use Rattle.std.specs.Prelude.{◌↔◌, IsTrue};
ghost use Rattle.hlc_stamp.specs.Order.{IsOutranked};

use crate::id::NodeId;
use crate::stamp::Stamp;

/// The rank of a write, ordered by its stamp, then by the node that wrote: of two writes of one key, the one of
/// greater rank wins.
#[derive(Clone, Copy, Debug, PartialEq, Eq, PartialOrd, Ord, Hash)]
pub struct Rank {
    /// The stamp of the write.
    pub stamp: Stamp,
    /// The node that wrote.
    pub node: NodeId,
}

impl Rank {
    /// Whether a write of this rank loses to one of another rank.
    #[inline]
    pub fn is_below(self, other: Rank) -> bool
        ensures { IsTrue result ↔ IsOutranked self other }
    {
        self < other
    }
}
