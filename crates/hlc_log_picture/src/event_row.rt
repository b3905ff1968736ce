// The row of an event.

ghost use Rattle.std.specs.Prelude.{◌≡◌, ◌++◌, OnOk, map, option_map};
ghost use Rattle.hlc_csv.specs.Rows.{row_field_bytes, text_of_row};
ghost use Rattle.hlc_log_picture.specs.EventRow.{event_row, event_word, told_field};

use hlc_csv::RowField::{Number, Text};
use hlc_csv::{RowBuffer, RowField};
use hlc_log::{LogEvent, LogKind};
use hlc_log_text::{Files, LineText};
use std::alloc::{AllocError, Global};

// The word of an event.
fn word(kind: LogKind) -> &'static [u8]
    ensures { result.now ≡ event_word kind }
{
    match kind {
        LogKind::Local => b"local",
        LogKind::Send(_) => b"send",
        LogKind::Receive(_) | LogKind::Outside => b"receive",
        LogKind::Restart => b"restart",
    }
}

// A number, or nothing if the log doesn't tell it.
fn told(is_told: bool, number: u64) -> RowField<'static>
    ensures { row_field_bytes result ≡ told_field is_told number }
{
    if is_told { Number(number) } else { Text(b"") }
}

// Adds a row of fields.
fn put_fields(alloc: Global, text: &mut Vec<u8>, fields: &[RowField<'_>]) -> Result<(), AllocError>
    ensures { OnOk result (text.new.items ≡ text.old.items ++ text_of_row (map row_field_bytes fields.now)) }
{
    let mut rows = RowBuffer::new(alloc);
    if rows.push(fields, text).is_err() || rows.finish(text).is_err() {
        return Err(AllocError);
    }
    Ok(())
}

/// Adds the row of an event at the node of this text, with a label if there is one.
pub(crate) fn put_row<'a>(
    alloc: Global,
    text: &mut Vec<u8>,
    files: &Files,
    node: &'a [u8],
    event: LogEvent,
    label: Option<&'a [u8]>,
) -> Result<(), AllocError>
    ensures { OnOk result (text.new.items ≡ text.old.items
        ++ text_of_row (event_row files.now node.now event (option_map (λ label. label.now) label.entry))) }
{
    let word = Text(word(event.kind));
    let line = LineText::new(files, u64::from(event.line))?;
    let (line, node) = (line.field(), Text(node));
    let reading = told(event.has_reading, event.reading);
    let l = told(event.has_stamp, event.stamp.l);
    let c = told(event.has_stamp, u64::from(event.stamp.c));
    match label {
        None => put_fields(alloc, text, &[word, line, node, reading, l, c]),
        Some(label) => put_fields(alloc, text, &[word, line, node, reading, l, c, Text(label)]),
    }
}
