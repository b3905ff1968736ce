// The order of a log's rows.

ghost use Rattle.std.specs.Prelude.{◌≡◌, ◌<◌, IfOk, OnOk, length, map};
ghost use Rattle.hlc_stamp.specs.Ids.{places_of};
ghost use Rattle.hlc_log.specs.CausalOrder.{IsCausalOrder};
ghost use Rattle.hlc_ordered_log.specs.InOrder.{IsInOrder};
ghost use Rattle.hlc_open_log.specs.Opened.{IsReordered};
ghost use Rattle.hlc_log_picture.specs.StampOrder.{AreRanked, AreRows, IsInStampOrder, IsRow};

use hlc_causality::Receives;
use hlc_open_log::OpenLog;
use hlc_ordered_log::OrderedLog;
use hlc_stamp::laws::tests_are_the_order;
use hlc_stamp::{EventId, Rank};
use std::alloc::{AllocError, Global};

// An event by its place in the log, with what its row stands by.
#[derive(Clone, Copy)]
pub(crate) struct Row {
    pub(crate) rank: Rank,
    pub(crate) place: EventId,
}

// The row of the event at a position.
fn ranked_row(log: &OrderedLog, position: EventId) -> Row
    requires ordered { IsInOrder log.now }
    requires exists { position.0 < length log.now.events }
    ensures { IsRow log.now position.0 result }
{
    let stamp = log.execution().stamp(position);
    let node = log.event(position).node;
    Row {
        rank: Rank { stamp, node },
        place: log.place(position),
    }
}

// The rows of all events, in the log's own order.
fn rows(alloc: Global, log: &OrderedLog) -> Result<Vec<Row>, AllocError>
    ensures { IfOk result (λ rows. AreRows log.now (length log.now.events) rows.items) }
{
    let mut rows = Vec::with_capacity(alloc, log.len() as usize)?;
    for place in 0..log.len() {
        rows.push(ranked_row(log, EventId(place)))?;
    }
    Ok(rows)
}

// The places of rows.
fn places(alloc: Global, rows: &[Row]) -> Result<Vec<EventId>, AllocError>
    ensures { IfOk result (λ places. places.items ≡ map (λ row. row.place) rows.now) }
{
    rows.iter().map(|row| row.place).collect(alloc)
}

// The places of a log's events in the order of their least stamps, and then of their nodes.
fn stamp_order(alloc: Global, log: &OrderedLog) -> Result<Vec<EventId>, AllocError>
    requires { log.now.receives ≡ Receives.Tick }
    ensures causal { IfOk result (λ order. IsCausalOrder log.now.events (places_of order.items)) }
    ensures ranked { IfOk result (λ order. AreRanked log.now (places_of order.items)) }
{
    let _ordered = log.len();
    tests_are_the_order();
    let mut rows = rows(alloc, log)?;
    rows.sort_unstable_by_key(|row| row.rank);
    let order = places(alloc, &rows)?;
    Ok(order)
}

/// Puts the events of a log in the order of their least stamps and, if these are equal, of their nodes. There is only one such order,
/// whatever order the log had. It is causal where receives tick: one that merges may have the stamp of its send.
///
/// It sorts the events, and for a while takes 28 bytes of memory for each, besides what `OrderedLog::reorder` takes.
pub fn put_in_stamp_order(alloc: Global, log: &mut OpenLog) -> Result<(), AllocError>
    requires { log.old.log.receives ≡ Receives.Tick }
    ensures same { IsReordered log.old log.new }
    ensures by_stamp { OnOk result (IsInStampOrder log.new.log) }
{
    let order = stamp_order(alloc, log.ordered())?;
    log.reorder(alloc, order)
}

/// Puts the events of a log in the order of the rows of its picture: that of `put_in_stamp_order` where receives tick, else the causal order that it
/// has.
pub fn put_in_row_order(alloc: Global, log: &mut OpenLog) -> Result<(), AllocError>
    ensures same { IsReordered log.old log.new }
    ensures by_stamp { OnOk result (log.old.log.receives ≡ Receives.Tick → IsInStampOrder log.new.log) }
{
    match log.ordered().execution().receives() {
        Receives::Tick => put_in_stamp_order(alloc, log),
        Receives::Merge | Receives::MergeClock => Ok(()),
    }
}
