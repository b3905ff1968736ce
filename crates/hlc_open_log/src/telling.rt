ghost use Rattle.std.specs.Prelude.{OnOk, map, option_map};
ghost use Rattle.std.specs.Io.KnownBytes.{Appends};
ghost use Rattle.hlc_csv.specs.Rows.{AddsRow, AddsRows, AddsText};
ghost use Rattle.hlc_open_log.specs.Unopened.{bad_event_row, bad_record_row, bad_row, bad_text};

use crate::bad_event::BadEvent;
use crate::bad_input::BadInput;
use hlc_csv::RowField::Text;
use hlc_csv::{OutputFault, RowBuffer};
use hlc_log_text::{BadRecord, LineText, Location};
use std::alloc::Global;
use std::io::Write;

// Adds the row of a line that is bad, for a reason of this word, which names a column or a message besides, if it does.
fn push_bad<W: Write>(
    rows: &mut RowBuffer,
    alloc: Global,
    location: &Location,
    word: &[u8],
    name: Option<&[u8]>,
    writer: &mut W,
) -> Result<(), OutputFault>
    ensures { OnOk result (AddsRow W.contents writer.old writer.new rows.old rows.new
        (bad_row location.now word.now (option_map (λ name. name.now) name.entry))) }
{
    let line = LineText::of(alloc, location)?;
    match name {
        None => rows.push(&[Text(b"bad"), line.field(), Text(word)], writer),
        Some(name) => rows.push(
            &[Text(b"bad"), line.field(), Text(word), Text(name)],
            writer,
        ),
    }
}

// Adds the row of a record that is bad.
fn push_record<W: Write>(
    rows: &mut RowBuffer,
    alloc: Global,
    bad: &BadRecord,
    writer: &mut W,
) -> Result<(), OutputFault>
    ensures { OnOk result (AddsRow W.contents writer.old writer.new rows.old rows.new (bad_record_row bad.now)) }
{
    let column = match bad.why.column() {
        Some(column) => Some(column.name().as_bytes()),
        None => None,
    };
    push_bad(rows, alloc, &bad.location, bad.why.word(), column, writer)
}

// Adds the row of an event for which there is no order.
fn push_event<W: Write>(
    rows: &mut RowBuffer,
    alloc: Global,
    bad: &BadEvent,
    writer: &mut W,
) -> Result<(), OutputFault>
    ensures { OnOk result (AddsRow W.contents writer.old writer.new rows.old rows.new (bad_event_row bad.now)) }
{
    push_bad(
        rows,
        alloc,
        &bad.location,
        bad.why.word(),
        bad.why.name(),
        writer,
    )
}

// Adds the rows of records that are bad.
fn push_records<W: Write>(
    rows: &mut RowBuffer,
    alloc: Global,
    bad: &[BadRecord],
    writer: &mut W,
) -> Result<(), OutputFault>
    ensures { OnOk result (AddsRows W.contents writer.old writer.new rows.old rows.new (map bad_record_row bad.now)) }
{
    for record in bad {
        push_record(rows, alloc, record, writer)?;
    }
    Ok(())
}

// Adds the rows of events for which there is no order.
fn push_events<W: Write>(
    rows: &mut RowBuffer,
    alloc: Global,
    bad: &[BadEvent],
    writer: &mut W,
) -> Result<(), OutputFault>
    ensures { OnOk result (AddsRows W.contents writer.old writer.new rows.old rows.new (map bad_event_row bad.now)) }
{
    for event in bad {
        push_event(rows, alloc, event, writer)?;
    }
    Ok(())
}

// Adds the rows that answer input which is no log.
fn push_input<W: Write>(
    rows: &mut RowBuffer,
    alloc: Global,
    bad: &BadInput,
    writer: &mut W,
) -> Result<(), OutputFault>
    ensures { OnOk result (AddsText (W.contents writer.old) (W.contents writer.new) rows.old rows.new (bad_text bad.now)) }
{
    match bad {
        BadInput::Records(records) => push_records(rows, alloc, records, writer),
        BadInput::Events(events) => push_events(rows, alloc, events, writer),
    }
}

/// Writes the rows that answer input which is no log, one for each record or event that is told: its line, the word that says why, and the column or
/// the message that it is about, if it is about one.
pub fn tell_bad<W: Write>(alloc: Global, bad: &BadInput, writer: &mut W) -> Result<(), OutputFault>
    ensures { OnOk result (Appends (W.contents writer.old) (W.contents writer.new) (bad_text bad.now)) }
{
    let mut rows = RowBuffer::new(alloc);
    push_input(&mut rows, alloc, bad, writer)?;
    rows.finish(writer)
}
