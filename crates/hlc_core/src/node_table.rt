// The table of a node, as a cluster keeps it.

ghost use Rattle.std.specs.Prelude.{◌≡◌, [], IfOk, OnErr, OnOk, length};
ghost use Rattle.std.specs.Arc.{arc_slice_items};
ghost use Rattle.hlc_arena.specs.Arena.{MayFollow};
ghost use Rattle.hlc_arena.specs.ClockRule.{HasLeastStamps};
ghost use Rattle.hlc_arena.specs.Known.{writes_learnt};
ghost use Rattle.hlc_arena.specs.Kinds.{event_kind_of};
ghost use Rattle.hlc_core.specs.Effect.{writes_in};
ghost use Rattle.hlc_stamp.specs.Ids.{places_of};
ghost use Rattle.hlc_table.specs.NextEvent.{event_of, events_with};
ghost use Rattle.hlc_table.specs.Tables.{rows_with, table_rows};

use hlc_arena::Arena;
use hlc_stamp::EventId;
use hlc_table::{NextEvent, Table, is_repeat, learn_next};
use std::alloc::{AllocError, Global};
use std::marker::Model;
use std::sync::ArcSlice;

/// The table of a node, and the list of its writes if a sync carries it and no news came since.
#[derive(Drop)]
pub(crate) struct NodeTable {
    table: Table,
    list: Option<ArcSlice<EventId>>,
}

impl Model for NodeTable {
    ghost use Rattle.std.specs.Prelude.{◌≡◌, IfSome, List};
    ghost use Rattle.std.specs.Arc.{arc_slice_items};
    ghost use Rattle.hlc_core.specs.Effect.{writes_in};
    ghost use Rattle.hlc_stamp.specs.Ids.{places_of};
    ghost use Rattle.hlc_table.specs.Rows.{Row};

    ghost Value = { List Row };

    ghost view = { λ n. n.table };

    // A list that is kept is that of the writes.
    ghost invariant = { λ n. IfSome n.list (λ list. places_of (arc_slice_items list) ≡ writes_in n.table) };
}

// The writes of a table's entries, in its order.
fn writes_of(table: &Table) -> Result<Vec<EventId>, AllocError>
    ensures { IfOk result (λ writes. places_of writes.items ≡ writes_in table.now) }
{
    let mut writes = Vec::with_capacity(table.allocator(), table.len())?;
    for (_, entry) in table.entries() {
        writes.push_reserved(entry.write);
    }
    Ok(writes)
}

impl NodeTable {
    /// The table of a node that has no event. It takes no memory.
    pub(crate) fn new(alloc: Global) -> Self
        ensures { result ≡ [] }
    {
        NodeTable {
            table: Table::new(alloc),
            list: None,
        }
    }

    /// The table.
    pub(crate) fn table(&self) -> &Table
        ensures { result.now ≡ self.now }
    {
        &self.table
    }

    /// Learns what the node's next event makes known. A message that was delivered before isn't looked at.
    pub(crate) fn learn(&mut self, history: &Arena, next: &NextEvent<'_>) -> Result<(), AllocError>
        requires follows { MayFollow history.now.nodes history.now.events (event_of next.now).event }
        requires least { HasLeastStamps (events_with history.now.events next.now) }
        requires knows { self.old ≡ table_rows history.now.events next.now.node.0 }
        ensures rows { OnOk result (self.new ≡ rows_with (events_with history.now.events next.now) self.old
            (writes_learnt history.now.events (length history.now.events) (event_kind_of next.now.kind))) }
        ensures unchanged { OnErr result (self.new ≡ self.old) }
    {
        let event = EventId(history.len());
        if is_repeat(history, event, next.kind) {
            return Ok(());
        }
        if learn_next(&mut self.table, history, next)? {
            self.list = None;
        }
        Ok(())
    }

    /// The writes of the entries, in the table's order. Until there is news each call answers the same list.
    pub(crate) fn writes(&mut self) -> Result<ArcSlice<EventId>, AllocError>
        ensures list { IfOk result (λ list. places_of (arc_slice_items list) ≡ writes_in self.old) }
        ensures unchanged { self.new ≡ self.old }
    {
        if let Some(list) = &self.list {
            return list.clone();
        }
        let list = ArcSlice::from_vec(writes_of(&self.table)?)?;
        self.list = Some(list.clone()?);
        Ok(list)
    }
}
