// A caller of `hlc_log`.

ghost use Rattle.std.specs.Prelude.{◌≡◌, ◌<◌, IfOk};
ghost use Rattle.hlc_stamp.specs.Ids.{places_of};
ghost use Rattle.hlc_log.specs.CausalOrder.{place_at};

use hlc_log::{Log, LogEvent, LogKind, MAX_LOG_NODES, OrderFault, causal_order};
use hlc_stamp::EventId;
use std::alloc::Global;

/// A log tells of a receive before it tells of the send, as a log does that is put together from those of two nodes. In a causal
/// order the send comes first.
pub fn order_message(
    alloc: Global,
    receive: LogEvent,
    send: LogEvent,
) -> Result<Vec<EventId>, OrderFault>
    requires receive { (receive.node.0 < MAX_LOG_NODES) × (receive.kind ≡ LogKind.Receive (record { 0 = 0 })) }
    requires send { (send.node.0 < MAX_LOG_NODES) × (send.kind ≡ LogKind.Send (record { 0 = 0 })) }
    ensures { IfOk result (λ order. place_at (places_of order.items) 0 ≡ 1) }
{
    let mut log = Log::new(alloc);
    log.push(receive)?;
    log.push(send)?;
    causal_order(alloc, &log, 1)
}
