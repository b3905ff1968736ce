use hlc_arena::Kind;
use hlc_stamp::{NodeId, Stamp};

/// An event that comes next in a history, before it is pushed.
#[derive(Clone, Copy)]
pub struct NextEvent<'a> {
    /// Where it happens.
    pub node: NodeId,
    /// What the node's clock reads.
    pub reading: u64,
    /// Its stamp.
    pub stamp: Stamp,
    /// What happens.
    pub kind: Kind<'a>,
}
