// What decides which replicas may run.

ghost use Rattle.std.specs.Prelude.{◌≡◌, ℕ, Bool, true};

use hlc_stamp::NodeId;
use std::sync::Wait;

/// Decides which replicas may run. The thread of each replica asks it once, before its first step.
///
/// It may wait, so that replicas can begin together.
pub trait Gate {
    /// What the gate may answer a node. A gate that says nothing of it may answer anything.
    ghost may_answer: { Self → ℕ → Bool → Type 0 } = { λ _ _ _. Unit {0} };

    /// Whether the replica of this node may run.
    fn enter<R: Wait>(&self, rt: &R, node: NodeId) -> bool
        ensures { may_answer self.now node.0 result };
}

/// A gate that lets each replica run.
#[derive(Clone, Copy)]
pub struct AlwaysOpen;

impl Gate for AlwaysOpen {
    ghost may_answer = { λ _ _ answer. answer ≡ true };

    fn enter<R: Wait>(&self, _rt: &R, _node: NodeId) -> bool {
        true
    }
}
