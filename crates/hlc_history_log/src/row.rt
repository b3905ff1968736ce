// The row of an event.

ghost use Rattle.std.specs.Prelude.{◌≡◌, OnOk, option_map};
ghost use Rattle.hlc_arena.specs.Kinds.{event_kind_of, stamped_event_of};
ghost use Rattle.hlc_causality.specs.Neighbours.{place_of};
ghost use Rattle.hlc_csv.specs.Rows.{AddsRow};
ghost use Rattle.hlc_history_log.specs.LogRows.{message_of, row_with, row_word};

use hlc_arena::{Kind, Record};
use hlc_csv::{OutputFault, RowBuffer};
use hlc_stamp::EventId;
use std::io::Write;

// The word of an event.
fn word(kind: Kind<'_>) -> &'static [u8]
    ensures { result.now ≡ row_word (event_kind_of kind.entry) }
{
    match kind {
        Kind::Write { .. } | Kind::Erase { .. } => b"local",
        Kind::Send { .. } | Kind::Sync { .. } => b"send",
        Kind::Deliver { .. } => b"receive",
    }
}

// The message of an event, by the event that sends it.
fn message(event: EventId, kind: Kind<'_>) -> Option<EventId>
    ensures { place_of result ≡ message_of event.0 (event_kind_of kind.entry) }
{
    match kind {
        Kind::Write { .. } | Kind::Erase { .. } => None,
        Kind::Send { .. } | Kind::Sync { .. } => Some(event),
        Kind::Deliver { sent } => Some(sent),
    }
}

/// Adds the row of an event that is told of so, with a label if there is one.
pub(crate) fn push_row<W: Write>(
    rows: &mut RowBuffer,
    event: EventId,
    told: &Record<'_>,
    label: Option<&[u8]>,
    writer: &mut W,
) -> Result<(), OutputFault>
    ensures { OnOk result (AddsRow W.contents writer.old writer.new rows.old rows.new
        (row_with event.0 (stamped_event_of told.now) (option_map (λ label. label.now) label.entry))) }
{
    let word = word(told.kind);
    let node = u64::from(told.node.0);
    let (l, c) = (told.stamp.l, u64::from(told.stamp.c));
    match message(event, told.kind) {
        None => rows.push_numbers(word, &[node, told.reading, l, c], label, writer),
        Some(sent) => {
            let message = u64::from(sent.0);
            rows.push_numbers(word, &[node, told.reading, l, c, message], label, writer)
        }
    }
}
