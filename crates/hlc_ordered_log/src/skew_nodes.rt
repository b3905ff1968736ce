use hlc_stamp::NodeId;

/// The two nodes of a skew, ordered by the one to which its messages went, then by the one from which they came.
#[derive(Clone, Copy, Debug, PartialEq, Eq, PartialOrd, Ord)]
pub struct SkewNodes {
    /// The node to which they went.
    pub to: NodeId,
    /// The node from which they came.
    pub from: NodeId,
}
