// The rows with which records are answered.

ghost use Rattle.std.specs.Prelude.{◌≡◌, ◌∷◌, [], OnOk};
ghost use Rattle.std.specs.Io.KnownBytes.{Appends};
ghost use Rattle.std.specs.List.{flat_map};
ghost use Rattle.hlc_csv.specs.Rows.{AddsRows, text_of, text_of_row};
ghost use Rattle.hlc_log_text.specs.StampForms.{greatest_c};
ghost use Rattle.hlc_watch.specs.Laws.{if_any};
ghost use Rattle.hlc_watched_log.specs.CauseRows.{cause_rows, row_if};
ghost use Rattle.hlc_watched_log.specs.Summary.{claimed_ahead};
ghost use Rattle.hlc_watched_log.specs.Taken.{complete_in};
ghost use Rattle.hlc_watched_log.specs.Watched.{bad_row, event_rows, is_over, is_told, over_row};

use crate::cause_row::push_causes;
use crate::log_names::LogNames;
use crate::node_tally::claimed_ahead;
use crate::watch_rules::WatchRules;
use hlc_csv::RowField::{Number, Text};
use hlc_csv::{OutputFault, RowBuffer};
use hlc_log::LogEvent;
use hlc_log_text::BadLog;
use hlc_watch::{Complete, FileLine, Records};
use std::alloc::Global;
use std::io::Write;

// Whether a claim that is so far ahead is over a limit.
pub(crate) fn is_over(limit: Option<u64>, ahead: Option<u64>) -> bool
    ensures { result ≡ is_over limit ahead }
{
    match (limit, ahead) {
        (Some(limit), Some(ahead)) => limit < ahead,
        _ => false,
    }
}

// Adds the rows of each of some events.
fn push_each<W: Write>(
    alloc: Global,
    rows: &mut RowBuffer,
    names: &LogNames,
    full: u32,
    complete: &[Records],
    writer: &mut W,
) -> Result<(), OutputFault>
    ensures { OnOk result (AddsRows W.contents writer.old writer.new rows.old rows.new (flat_map (cause_rows names.now full) complete.now)) }
{
    for records in complete {
        push_causes(alloc, rows, names, records, full, writer)?;
    }
    Ok(())
}

// Adds the rows of an event, if there is one.
fn push_first<W: Write>(
    alloc: Global,
    rows: &mut RowBuffer,
    names: &LogNames,
    full: u32,
    event: Option<Records>,
    writer: &mut W,
) -> Result<(), OutputFault>
    ensures { OnOk result (AddsRows W.contents writer.old writer.new rows.old rows.new (flat_map (cause_rows names.now full) (if_any event))) }
{
    match event {
        Some(records) => push_causes(alloc, rows, names, &records, full, writer),
        None => Ok(()),
    }
}

// Adds the row of an event that is over a limit, if it is.
fn push_over<W: Write>(
    alloc: Global,
    rows: &mut RowBuffer,
    names: &LogNames,
    limit: Option<u64>,
    line: FileLine,
    event: &LogEvent,
    writer: &mut W,
) -> Result<(), OutputFault>
    ensures { OnOk result (AddsRows W.contents writer.old writer.new rows.old rows.new
        (row_if (is_over limit (claimed_ahead event.now)) (over_row names.now line event.now))) }
{
    let ahead = claimed_ahead(event);
    if !is_over(limit, ahead) {
        return Ok(());
    }
    let line = names.line(alloc, line)?;
    let node = Text(names.node(event.node));
    let ahead = Number(ahead.unwrap_or(0));
    rows.push(&[Text(b"over"), node, line.field(), ahead], writer)
}

// Adds the rows of the events that are complete with an event, and that it is over the limit.
fn push_event<W: Write>(
    alloc: Global,
    rows: &mut RowBuffer,
    names: &LogNames,
    rules: &WatchRules,
    complete: &Complete,
    line: FileLine,
    event: &LogEvent,
    writer: &mut W,
) -> Result<(), OutputFault>
    ensures { OnOk result (AddsRows W.contents writer.old writer.new rows.old rows.new
        (event_rows rules.now names.now (complete_in complete.now) line event.now)) }
{
    let full = rules.records.form.full();
    push_first(alloc, rows, names, full, complete.event, writer)?;
    push_each(alloc, rows, names, full, &complete.waited, writer)?;
    push_over(alloc, rows, names, rules.limit, line, event, writer)
}

// Writes them, and flushes the writer; if there are none, it is left alone.
pub(crate) fn write_event<W: Write>(
    alloc: Global,
    names: &LogNames,
    rules: &WatchRules,
    complete: &Complete,
    line: FileLine,
    event: &LogEvent,
    told: bool,
    writer: &mut W,
) -> Result<(), OutputFault>
    requires told { told ≡ is_told rules.now (complete_in complete.now) event.now }
    ensures { OnOk result (Appends (W.contents writer.old) (W.contents writer.new)
        (text_of (event_rows rules.now names.now (complete_in complete.now) line event.now))) }
{
    if !told {
        return Ok(());
    }
    let mut rows = RowBuffer::new(alloc);
    push_event(
        alloc, &mut rows, names, rules, complete, line, event, writer,
    )?;
    rows.finish(writer)
}

// Adds the row of a record that is bad.
fn push_bad<W: Write>(
    alloc: Global,
    rows: &mut RowBuffer,
    names: &LogNames,
    line: FileLine,
    why: BadLog,
    writer: &mut W,
) -> Result<(), OutputFault>
    ensures { OnOk result (AddsRows W.contents writer.old writer.new rows.old rows.new (bad_row names.now.files line why ∷ [])) }
{
    let line = names.line(alloc, line)?;
    let (word, why_word) = (Text(b"bad"), Text(why.word()));
    match why.column() {
        None => rows.push(&[word, line.field(), why_word], writer),
        Some(column) => {
            let column = Text(column.name().as_bytes());
            rows.push(&[word, line.field(), why_word, column], writer)
        }
    }
}

// Writes it, and flushes the writer.
pub(crate) fn write_bad<W: Write>(
    alloc: Global,
    names: &LogNames,
    line: FileLine,
    why: BadLog,
    writer: &mut W,
) -> Result<(), OutputFault>
    ensures { OnOk result (Appends (W.contents writer.old) (W.contents writer.new) (text_of (bad_row names.now.files line why ∷ []))) }
{
    let mut rows = RowBuffer::new(alloc);
    push_bad(alloc, &mut rows, names, line, why, writer)?;
    rows.finish(writer)
}
