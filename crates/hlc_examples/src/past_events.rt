// A caller of `hlc_explain`.

ghost use Rattle.std.specs.Prelude.{◌≡◌, ◌<◌, ◌↔◌, IfOk, IsTrue, length};
ghost use Rattle.hlc_causality.specs.Causality.{skeleton_at};
ghost use Rattle.hlc_causality.specs.Past.{IsInPast};

use hlc_execution::Execution;
use hlc_explain::laws::vector_order_is_happened_before;
use hlc_explain::vectors;
use hlc_stamp::{EventId, NodeId};
use std::alloc::{AllocError, Global};

/// Whether an event of a node is another event or happened before it: one number of each vector tells.
pub fn is_past(
    alloc: Global,
    execution: &Execution,
    node: NodeId,
    event: EventId,
    other: EventId,
) -> Result<bool, AllocError>
    requires node { node.0 < execution.now.nodes }
    requires event { event.0 < length execution.now.events }
    requires other { other.0 < length execution.now.events }
    requires at_node { (skeleton_at execution.now.events event.0).node ≡ node.0 }
    ensures { IfOk result (λ is_past. IsTrue is_past ↔ IsInPast execution.now.events event.0 other.0) }
{
    let vectors = vectors(alloc, execution)?;
    vector_order_is_happened_before();
    let own = vectors.count(event, node);
    let seen = vectors.count(other, node);
    Ok(own <= seen)
}
