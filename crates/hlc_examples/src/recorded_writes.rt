// A caller of `hlc_arena`.

ghost use Rattle.std.specs.Prelude.{◌≡◌, ◌<◌, ◌↔◌, Err, IfOk, OnErr, length};
ghost use Rattle.hlc_arena.specs.Arena.{IsKey, IsValue, history_of, with_event};
ghost use Rattle.hlc_arena.specs.History.{Event, Written};

use hlc_arena::{Arena, NextKind, ReserveFault};
use hlc_stamp::{NodeId, Stamp};

/// Adds a write to a history, with the stamp that some clock gave it. If there is no room, the history stays as it was.
pub fn record_write(
    history: &mut Arena,
    node: NodeId,
    reading: u64,
    stamp: Stamp,
    key: &[u8],
    value: &[u8],
) -> Result<(), ReserveFault>
    requires exists { node.0 < history.old.nodes }
    requires key { IsKey key.now }
    requires value { IsValue value.now }
    ensures written { let event : Event = record { node = node.0; reading = reading; kind = Written key.now value.now } in
        IfOk result (λ _. history_of history.new ≡ with_event (history_of history.old) (record { event = event; stamp = stamp })) }
    ensures full { (result ≡ Err ReserveFault.Full) ↔ (length history.old.events ≡ history.old.capacity) }
    ensures unchanged { OnErr result (history_of history.new ≡ history_of history.old) }
{
    history.reserve()?;
    history.push(node, reading, stamp, NextKind::Write { key, value });
    Ok(())
}
