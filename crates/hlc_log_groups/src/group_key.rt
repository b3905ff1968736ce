use crate::broken_rule::BrokenRule;
use hlc_stamp::NodeId;

/// What the causes of a group have in common.
#[derive(Clone, Copy, PartialEq, Eq, Hash)]
pub struct GroupKey {
    /// The node at whose events the rule was broken.
    pub node: NodeId,
    /// The rule.
    pub rule: BrokenRule,
    /// The node of the event whose stamp the rule compares with: of the node's own event before, or of the send whose message was received.
    /// `None` if the rule compares with a reading, or with what else is the floor.
    pub of: Option<NodeId>,
}
