// A caller of `hlc_ordered_log`.

ghost use Rattle.std.specs.Prelude.{◌≡◌, All, IfErr, IfOk};
ghost use Rattle.hlc_log.specs.Events.{IsInRange, IsNumbered};
ghost use Rattle.hlc_log.specs.Faults.{IsFaultOf};
ghost use Rattle.hlc_ordered_log.specs.InOrder.{AreFilled, IsInOrder, LogInOrder};
ghost use Rattle.hlc_ordered_log.specs.Messages.{message_counts};

use hlc_causality::Receives;
use hlc_log::{Log, MAX_LOG_NODES, OrderFault, causal_order};
use hlc_ordered_log::{MessageCounts, OrderedLog, count_messages};
use std::alloc::Global;

/// How many messages a log tells of, or why it has no causal order. Messages have numbers below `messages`.
pub fn messages_of(alloc: Global, log: Log, messages: u32) -> Result<MessageCounts, OrderFault>
    requires numbered { All (IsNumbered messages) log.events }
    requires in_range { All IsInRange log.events }
    ensures counts { IfOk result (λ counts. (ordered : LogInOrder) × IsInOrder ordered
        × AreFilled log.events ordered.events × (counts ≡ message_counts ordered)) }
    ensures fault { IfErr result (IsFaultOf log.events) }
{
    let order = causal_order(alloc, &log, messages)?;
    let ordered = OrderedLog::new(alloc, log, order, messages, MAX_LOG_NODES, Receives::Tick)?;
    Ok(count_messages(&ordered))
}
