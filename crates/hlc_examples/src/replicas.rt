// A caller of `hlc_core`.

ghost use Rattle.std.specs.Prelude.{◌≡◌, IfOk, Some, codes};
ghost use Rattle.hlc_arena.specs.ClockRule.{HasLeastStamps};
ghost use Rattle.hlc_table.specs.Rows.{entry_at};
ghost use Rattle.hlc_table.specs.Tables.{entry_for, table_rows};

use hlc_core::{ActionRef, Cluster};
use hlc_stamp::NodeId;
use std::alloc::Global;

/// A cluster of two nodes: one writes a colour and sends it, and the other delivers the message. So the other's table shows
/// that write, event 0; and the stamps of all three events are the least that keep causality.
pub fn share_colour(alloc: Global) -> anyhow::Result<Cluster>
    ensures shown { IfOk result (λ cluster. let events = cluster.history.events in
        entry_at (table_rows events 1) (codes "colour") ≡ Some (entry_for events 0)) }
    ensures least { IfOk result (λ cluster. HasLeastStamps cluster.history.events) }
{
    let (writer, reader) = (NodeId(0), NodeId(1));
    let (key, value) = (b"colour".as_slice(), b"blue".as_slice());
    let mut cluster = Cluster::new(alloc, 2, 100)?;
    cluster.ask(writer, 10, ActionRef::Write { key, value })?;
    let send = cluster.ask(writer, 10, ActionRef::Send { to: reader, key })?;
    let sent = send.event;
    cluster.ask(reader, 9, ActionRef::Deliver { sent })?;
    Ok(cluster)
}
