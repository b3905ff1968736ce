// The events of a log in order, in another order.

ghost use Rattle.std.specs.Prelude.{◌≡◌, ℕ, ◌<◌, IfOk, List, length};
ghost use Rattle.hlc_stamp.specs.Ids.{places_of};
ghost use Rattle.hlc_stamp.specs.declared.id.EventId.{EventId};
ghost use Rattle.hlc_causality.specs.Neighbours.{place_of};
ghost use Rattle.hlc_log.specs.CausalOrder.{IsCausalOrder, place_at};
ghost use Rattle.hlc_ordered_log.specs.InOrder.{ArePositions, IsExecutionOf, NamesSendIn};

use crate::in_order::push_event;
use crate::ordered_log::OrderedLog;
use hlc_execution::Execution;
use hlc_stamp::EventId;
use std::alloc::{AllocError, Global};

// The events of a log in another causal order, in which places have these positions, with the least stamps that they can have. What they
// receive is what they receive in the log's own order.
pub(crate) fn reordered_execution(
    alloc: Global,
    log: &OrderedLog,
    order: &[EventId],
    positions: &[EventId],
) -> Result<Execution, AllocError>
    requires order { IsCausalOrder log.now.events (places_of order.now) }
    requires positions { ArePositions (places_of order.now) (length log.now.events) positions.now }
    ensures execution { IfOk result (IsExecutionOf log.now.events (places_of order.now)) }
    ensures receives { IfOk result (λ execution. execution.rules.receives ≡ log.now.receives) }
    ensures nodes { IfOk result (λ execution. execution.nodes ≡ log.now.nodes) }
{
    let _ordered = log.len();
    let known = log.execution();
    let mut execution = Execution::with_receives(alloc, known.nodes(), known.receives())?;
    for place in order {
        let send = send_in(log, positions, *place);
        push_event(&mut execution, log.at(*place), send)?;
    }
    Ok(execution)
}

// Where the send stands of what the event at a place receives, in an order in which places have these positions.
fn send_in(log: &OrderedLog, positions: &[EventId], place: EventId) -> Option<EventId>
    requires exists { place.0 < length log.now.events }
    requires positions { length positions.now ≡ length log.now.events }
    ensures { (order : List EventId) → IsCausalOrder log.now.events (places_of order) →
        ArePositions (places_of order) (length log.now.events) positions.now → (k : ℕ) → k < length order →
        place_at (places_of order) k ≡ place.0 → NamesSendIn log.now.events (places_of order) k (place_of result) }
{
    let _ordered = log.len();
    let send = log.send(log.position(place))?;
    Some(positions[log.place(send).0 as usize])
}
