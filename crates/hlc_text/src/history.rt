ghost use Rattle.std.specs.Prelude.{◌≡◌, ◌<◌, length, OnOk};
ghost use Rattle.std.specs.Io.KnownBytes.{Appends};
ghost use Rattle.hlc_arena.specs.Arena.{IsWellFormed, history_of};
ghost use Rattle.hlc_arena.specs.History.{event_at};
ghost use Rattle.hlc_core.specs.Replay.{request_for};
ghost use Rattle.hlc_core.specs.Request.{request_of_ref};
ghost use Rattle.hlc_csv.specs.Rows.{AddsRow};
ghost use Rattle.hlc_text.specs.Export.{export_row_at, export_text};

use crate::request_row::push_request;
use hlc_arena::{Arena, Kind};
use hlc_core::ActionRef;
use hlc_csv::{OutputFault, RowBuffer};
use hlc_stamp::EventId;
use std::alloc::Global;
use std::io::Write;

// What asks for an event again. A send asks for the key of the write that it carries.
fn action_again(history: &Arena, event: EventId) -> ActionRef<'_>
    requires exists { event.0 < length history.now.events }
    requires well_formed { IsWellFormed (history_of history.now) }
    ensures { request_of_ref result ≡ request_for history.now.events (event_at history.now.events event.0).kind }
{
    match history.get(event).unwrap().kind {
        Kind::Write { key, value } => ActionRef::Write { key, value },
        Kind::Erase { key } => ActionRef::Erase { key },
        Kind::Send { to, write } => ActionRef::Send {
            to,
            key: history.get(write).unwrap().kind.key().unwrap(),
        },
        Kind::Sync { to, .. } => ActionRef::Sync { to },
        Kind::Deliver { sent } => ActionRef::Deliver { sent },
    }
}

// Adds the record of an event.
fn push_event<W: Write>(
    rows: &mut RowBuffer,
    history: &Arena,
    event: EventId,
    writer: &mut W,
) -> Result<(), OutputFault>
    requires exists { event.0 < length history.now.events }
    requires well_formed { IsWellFormed (history_of history.now) }
    ensures { OnOk result (AddsRow W.contents writer.old writer.new rows.old rows.new (export_row_at history.now.events event.0)) }
{
    let record = history.get(event).unwrap();
    let action = action_again(history, event);
    push_request(
        rows,
        u64::from(record.node.0),
        record.reading,
        action,
        writer,
    )
}

/// Writes a history as a script: for each event, in order of acceptance, the record that asks for it.
///
/// After a fault nothing is promised of what the writer got.
pub fn export<W: Write>(alloc: Global, history: &Arena, writer: &mut W) -> Result<(), OutputFault>
    ensures { OnOk result (Appends (W.contents writer.old) (W.contents writer.new) (export_text history.now.events)) }
{
    let mut rows = RowBuffer::new(alloc);
    for event in 0..history.len() {
        push_event(&mut rows, history, EventId(event), writer)?;
    }
    rows.finish(writer)
}
