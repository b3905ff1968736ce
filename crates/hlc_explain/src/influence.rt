ghost use Rattle.std.specs.Prelude.{◌≡◌, ℕ, ◌+◌, ◌<◌, ◌≤◌, ◌↔◌, ◌⊎◌, Contains, Err, IfErr, IfOk, length};
ghost use Rattle.std.specs.List.Sorted.{IsStrictlyIncreasing};
ghost use Rattle.hlc_causality.specs.Causality.{HappenedBefore, IsDirectPredecessor};
ghost use Rattle.hlc_stamp.specs.Ids.{places_of};
ghost use Rattle.hlc_explain.specs.Marks.{IsMarked};

use crate::marks::mark;
use hlc_execution::Execution;
use hlc_stamp::EventId;
use hlc_verdict::AuditFault;
use std::alloc::Global;

/// All events that an event happened before, rising.
///
/// It goes forwards over the next events of nodes and the deliveries of sends, and follows no event twice. It takes a
/// byte of memory for the event and each later one, and time linear in those bytes and in what it follows.
pub fn influenced(
    alloc: Global,
    execution: &Execution,
    event: EventId,
) -> Result<Vec<EventId>, AuditFault>
    ensures all { IfOk result (λ list. (f : ℕ) → Contains (places_of list.items) f
        ↔ HappenedBefore execution.now.events event.0 f) }
    ensures rising { IfOk result (λ list. IsStrictlyIncreasing (places_of list.items)) }
    ensures no_event { (result ≡ Err AuditFault.NoEvent) ↔ (length execution.now.events ≤ event.0) }
    ensures no_other_fault { IfErr result (λ fault. (fault ≡ AuditFault.NoEvent) ⊎ (fault ≡ AuditFault.Memory)) }
{
    let len = execution.len();
    if event.0 >= len {
        return Err(AuditFault::NoEvent);
    }
    let mut reached = vec![in alloc; false; (len - event.0) as usize]?;
    mark_successors(&mut reached, event, execution, event);
    let mut influenced = Vec::new(alloc);
    for place in event.0 + 1..len {
        if reached[(place - event.0) as usize] {
            influenced.reserve(1)?;
            influenced.push_reserved(EventId(place));
            mark_successors(&mut reached, event, execution, EventId(place));
        }
    }
    Ok(influenced)
}

// Marks the events of which an event is a direct predecessor: the next of its node, and its deliveries.
fn mark_successors(marks: &mut Vec<bool>, first: EventId, execution: &Execution, event: EventId)
    requires from { first.0 ≤ event.0 }
    requires exists { event.0 < length execution.now.events }
    requires to { first.0 + length marks.old.items ≡ length execution.now.events }
    ensures marked { (e : ℕ) → IsMarked first.0 marks.new.items e
        ↔ (IsMarked first.0 marks.old.items e ⊎ IsDirectPredecessor execution.now.events event.0 e) }
    ensures len { length marks.new.items ≡ length marks.old.items }
{
    mark(marks, first, execution.next_at_node(event));
    for delivery in execution.deliveries(event) {
        mark(marks, first, Some(delivery));
    }
}
