// The log of a history.

ghost use Rattle.std.specs.Prelude.{◌<◌, OnOk, length};
ghost use Rattle.std.specs.Io.KnownBytes.{Appends};
ghost use Rattle.hlc_arena.specs.Arena.{IsWellFormed, history_of};
ghost use Rattle.hlc_csv.specs.Rows.{AddsRow};
ghost use Rattle.hlc_history_log.specs.LogRows.{log_row, log_text};

use crate::label::put_label;
use crate::row::push_row;
use hlc_arena::Arena;
use hlc_csv::{OutputFault, RowBuffer};
use hlc_stamp::EventId;
use std::alloc::Global;
use std::io::Write;

// Adds the row of an event, over a text for its label.
fn push_event<W: Write>(
    rows: &mut RowBuffer,
    label: &mut Vec<u8>,
    history: &Arena,
    event: EventId,
    writer: &mut W,
) -> Result<(), OutputFault>
    requires exists { event.0 < length history.now.events }
    requires well_formed { IsWellFormed (history_of history.now) }
    ensures { OnOk result (AddsRow W.contents writer.old writer.new rows.old rows.new (log_row history.now.events event.0)) }
{
    put_label(label, history, event)?;
    let record = history.get(event).unwrap();
    push_row(rows, event, &record, Some(label.as_slice()), writer)
}

/// Writes a history as a log: a row for each event, in order of acceptance, as `hlc_log_text` reads them.
///
/// A write or an erase is `local`, a send or a sync `send`, a delivery `receive`; nodes and messages are named by their numbers, and a
/// message by that of its send. The label of a row says what happened. After a fault nothing is promised of what the writer got.
pub fn write_log<W: Write>(
    alloc: Global,
    history: &Arena,
    writer: &mut W,
) -> Result<(), OutputFault>
    ensures { OnOk result (Appends (W.contents writer.old) (W.contents writer.new) (log_text history.now.events)) }
{
    let mut rows = RowBuffer::new(alloc);
    let mut label = Vec::new(alloc);
    for event in 0..history.len() {
        push_event(&mut rows, &mut label, history, EventId(event), writer)?;
    }
    rows.finish(writer)
}
