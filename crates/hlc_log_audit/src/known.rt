ghost use Rattle.std.specs.Prelude.{◌≡◌, OnOk, option_map};
ghost use Rattle.hlc_csv.specs.Rows.{AddsRow, Fields, row_field_bytes};
ghost use Rattle.hlc_log_audit.specs.Answers.{IfEvent, TellsEvent, event_fields, reading_field};
ghost use Rattle.hlc_log_text.specs.Files.{line_at};
ghost use Rattle.hlc_log_audit.specs.Lines.{position_on};

use crate::lines::find;
use crate::words::{found_word, push_missing};
use hlc_causes::Finding;
use hlc_csv::RowField::{Number, Text};
use hlc_csv::{OutputFault, RowBuffer, RowField};
use hlc_explain::Missing;
use hlc_log::LogEvent;
use hlc_log_text::{LineText, Location, node_name};
use hlc_open_log::OpenLog;
use hlc_stamp::Stamp;
use std::io::Write;

// What the clock read at an event, or nothing if that isn't told.
fn reading_field(event: LogEvent) -> RowField<'static>
    ensures { row_field_bytes result ≡ reading_field event }
{
    if event.has_reading {
        Number(event.reading)
    } else {
        Text(b"")
    }
}

// Adds the row of what is known of an event.
fn push_known<'a, W: Write>(
    rows: &mut RowBuffer,
    name: &'a [u8],
    line: &'a LineText,
    event: LogEvent,
    least: Stamp,
    found: Option<Finding>,
    label: Option<&'a [u8]>,
    writer: &mut W,
) -> Result<(), OutputFault>
    ensures { OnOk result (AddsRow W.contents writer.old writer.new rows.old rows.new
        (event_fields name.now line.now event least found (option_map (λ label. label.now) label.entry))) }
{
    let (word, name) = (Text(b"event"), Text(name));
    let (line, reading) = (line.field(), reading_field(event));
    let (l, c) = (Number(event.stamp.l), Number(u64::from(event.stamp.c)));
    let (least_l, least_c) = (Number(least.l), Number(u64::from(least.c)));
    let found = Text(found_word(found));
    match label {
        None => rows.push(
            &[word, line, name, reading, l, c, least_l, least_c, found],
            writer,
        ),
        Some(label) => rows.push(
            &[
                word,
                line,
                name,
                reading,
                l,
                c,
                least_l,
                least_c,
                found,
                Text(label),
            ],
            writer,
        ),
    }
}

// Answers what is known of an event.
pub(crate) fn push_event<W: Write>(
    rows: &mut RowBuffer,
    log: &OpenLog,
    event: &Location,
    writer: &mut W,
) -> Result<(), OutputFault>
    ensures { OnOk result ((row : Fields)
        × IfEvent (line_at log.now.files event.now) (λ line. IfEvent (position_on log.now.log line)
        (TellsEvent log.now.files log.now.nodes log.now.labels log.now.log log.now.full line)) row
        × AddsRow W.contents writer.old writer.new rows.old rows.new row) }
{
    let files = log.files();
    let ordered = log.ordered();
    let Some(line) = files.line_at(event) else {
        return push_missing(rows, Missing::Event, writer);
    };
    let Some(at) = find(ordered, line) else {
        return push_missing(rows, Missing::Event, writer);
    };
    let event = ordered.event(at.position);
    let line = LineText::new(files, line)?;
    let name = node_name(log.nodes(), event.node);
    let least = ordered.execution().stamp(at.position);
    let found = ordered.finding(at.position, log.full());
    let label = log.label(at.place);
    push_known(rows, name, &line, event, least, found, label, writer)
}
