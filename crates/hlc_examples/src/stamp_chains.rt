// A caller of `hlc_explain`.

ghost use Rattle.std.specs.Prelude.{◌≡◌, ◌≤◌, ◌↔◌, Err, IfOk, OnOk, length};
ghost use Rattle.hlc_stamp.specs.Ids.{places_of};
ghost use Rattle.hlc_causality.specs.Assignment.{IsForcedAt};
ghost use Rattle.hlc_causality.specs.Explanation.{IsExplainedBy};
ghost use Rattle.hlc_arena.specs.History.{causality_of, stamps_of};

use hlc_core::Cluster;
use hlc_explain::{AuditFault, chain, check_chain};
use hlc_stamp::EventId;
use std::alloc::Global;

/// Why the stamp of an event is so high: a chain of events, each a direct predecessor of the next, up to the event itself.
/// The checker accepts it, so no clock that keeps causality could have given the event a lower stamp.
pub fn explain_stamp(
    alloc: Global,
    cluster: &Cluster,
    event: EventId,
) -> Result<Vec<EventId>, AuditFault>
    ensures explains { let events = cluster.now.history.events in
        IfOk result (λ list. IsExplainedBy (causality_of events) (stamps_of events) event.0 (places_of list.items)) }
    ensures forces { let events = cluster.now.history.events in
        OnOk result (IsForcedAt (causality_of events) (stamps_of events) event.0) }
    ensures no_event { (result ≡ Err AuditFault.NoEvent) ↔ (length cluster.now.history.events ≤ event.0) }
{
    let execution = cluster.history().execution();
    let list = chain(alloc, execution, event)?;
    let is_explained = check_chain(execution, event, &list);
    prove!(is_explained);
    Ok(list)
}
