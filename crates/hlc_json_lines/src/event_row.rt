// The row that a line makes.

ghost use Rattle.std.specs.Prelude.{◌≡◌, ◌≢◌, ◌++◌, ◌∷◌, [], IfOk, OnOk, length};
ghost use Rattle.csv.specs.Reading.{strip_bom};
ghost use Rattle.csv.specs.Writing.{field_text, fields_text};
ghost use Rattle.serde_json.specs.View.{view};
ghost use Rattle.hlc_csv.specs.Rows.{row_setup, text_of_row};
ghost use Rattle.hlc_json_lines.specs.EventRow.{IsPartRead, column_field, column_fields, event_columns, event_row, first_part, is_blank, line_row, own_field, second_part, skipped_row, text_of_line, text_of_unmarked, value_of, value_row, without_end, word_in};

use crate::field_text::{after_point, before_point, put_field, put_plain, text_if_there};
use crate::json_rules::JsonRules;
use crate::path_rule::value_at;
use hlc_csv::{RowField, put_text};
use hlc_log_text::{LogColumn, LogWord, file_name};
use itoa::Buffer;
use serde_json::Value;
use std::alloc::{AllocError, Global};

// U+FEFF in UTF-8.
const BYTE_ORDER_MARK: [u8; 3] = [0xEF, 0xBB, 0xBF];

// The columns after that of the word.
const EVENT_COLUMNS: [LogColumn; 12] = [
    LogColumn::Node,
    LogColumn::Reading,
    LogColumn::L,
    LogColumn::C,
    LogColumn::Stamp,
    LogColumn::Message,
    LogColumn::From,
    LogColumn::Carried,
    LogColumn::CarriedL,
    LogColumn::CarriedC,
    LogColumn::Seq,
    LogColumn::Label,
];

// An event of a word that an object tells of.
#[derive(Clone, Copy)]
struct ToldEvent<'v> {
    rules: &'v JsonRules,
    word: LogWord,
    value: &'v Value,
}

// Reads the field of a column that an object has under the column's own path. What `field` had is gone.
fn read_own(field: &mut Vec<u8>, event: ToldEvent<'_>, column: LogColumn) -> Result<(), AllocError>
    ensures { OnOk result (field.new.items ≡ own_field event.entry.rules.now event.entry.word (view event.entry.value.now) column) }
{
    field.clear();
    put_plain(
        field,
        column,
        text_if_there(value_at(event.value, event.rules.path_of(Some(event.word), column))),
    )
}

// Reads the field of one of the two columns of a stamp, if that isn't empty; or if the other's is empty too, that of the stamp that is one field.
// Answers whether it is this.
fn read_part(
    field: &mut Vec<u8>,
    event: ToldEvent<'_>,
    own: LogColumn,
    other: LogColumn,
    stamp: LogColumn,
) -> Result<bool, AllocError>
    ensures { IfOk result (λ is_whole. IsPartRead event.entry.rules.now event.entry.word (view event.entry.value.now)
        own other stamp is_whole field.new.items) }
{
    read_own(field, event, own)?;
    if !field.is_empty() {
        return Ok(false);
    }
    read_own(field, event, other)?;
    if !field.is_empty() {
        field.clear();
        return Ok(false);
    }
    read_own(field, event, stamp)?;
    Ok(true)
}

// Adds the field of the first column of a stamp.
fn put_first_part(
    row: &mut Vec<u8>,
    field: &mut Vec<u8>,
    event: ToldEvent<'_>,
    l: LogColumn,
    c: LogColumn,
    stamp: LogColumn,
) -> Result<(), AllocError>
    ensures { OnOk result (row.new.items ≡ row.old.items
        ++ 44 ∷ field_text row_setup (first_part event.entry.rules.now event.entry.word (view event.entry.value.now) l c stamp)) }
{
    if read_part(field, event, l, c, stamp)? {
        return put_field(row, before_point(field));
    }
    put_field(row, field)
}

// Adds the field of the second column of a stamp.
fn put_second_part(
    row: &mut Vec<u8>,
    field: &mut Vec<u8>,
    event: ToldEvent<'_>,
    l: LogColumn,
    c: LogColumn,
    stamp: LogColumn,
) -> Result<(), AllocError>
    ensures { OnOk result (row.new.items ≡ row.old.items
        ++ 44 ∷ field_text row_setup (second_part event.entry.rules.now event.entry.word (view event.entry.value.now) l c stamp)) }
{
    if read_part(field, event, c, l, stamp)? {
        return put_field(row, after_point(field));
    }
    put_field(row, field)
}

// Adds the field of a column that is no part of a stamp.
fn put_own(
    row: &mut Vec<u8>,
    field: &mut Vec<u8>,
    event: ToldEvent<'_>,
    column: LogColumn,
) -> Result<(), AllocError>
    ensures { OnOk result (row.new.items ≡ row.old.items
        ++ 44 ∷ field_text row_setup (own_field event.entry.rules.now event.entry.word (view event.entry.value.now) column)) }
{
    read_own(field, event, column)?;
    put_field(row, field)
}

// Adds the field of a column.
fn put_column(
    row: &mut Vec<u8>,
    field: &mut Vec<u8>,
    event: ToldEvent<'_>,
    column: LogColumn,
) -> Result<(), AllocError>
    ensures { OnOk result (row.new.items ≡ row.old.items
        ++ 44 ∷ field_text row_setup (column_field event.entry.rules.now event.entry.word (view event.entry.value.now) column)) }
{
    use LogColumn::{C, Carried, CarriedC, CarriedL, L, Stamp};
    match column {
        L => put_first_part(row, field, event, L, C, Stamp),
        C => put_second_part(row, field, event, L, C, Stamp),
        CarriedL => put_first_part(row, field, event, CarriedL, CarriedC, Carried),
        CarriedC => put_second_part(row, field, event, CarriedL, CarriedC, Carried),
        other => put_own(row, field, event, other),
    }
}

// Adds the fields of the columns after that of the word.
fn put_columns(
    row: &mut Vec<u8>,
    field: &mut Vec<u8>,
    event: ToldEvent<'_>,
) -> Result<(), AllocError>
    ensures { OnOk result (row.new.items ≡ row.old.items
        ++ fields_text row_setup (column_fields event.entry.rules.now event.entry.word (view event.entry.value.now) event_columns)) }
{
    for column in EVENT_COLUMNS {
        put_column(row, field, event, column)?;
    }
    Ok(())
}

// Adds the row of a line that tells of no event.
fn put_skipped(row: &mut Vec<u8>) -> Result<(), AllocError>
    ensures { OnOk result (row.new.items ≡ row.old.items ++ text_of_row skipped_row) }
{
    row.extend_from_slice(b"skipped\n")
}

// The word of the event that a value tells of.
fn word_in(rules: &JsonRules, value: &Value) -> Option<LogWord>
    ensures { result ≡ word_in rules.now (view value.now) }
{
    match text_if_there(value_at(value, rules.path_of(None, LogColumn::Kind))) {
        RowField::Text(text) => rules.word_of(text),
        RowField::Number(number) => rules.word_of(Buffer::new().format(number).as_bytes()),
    }
}

// Adds the row of an event.
fn put_event(row: &mut Vec<u8>, field: &mut Vec<u8>, event: ToldEvent<'_>) -> Result<(), AllocError>
    ensures { OnOk result (row.new.items
        ≡ row.old.items ++ text_of_row (event_row event.entry.rules.now (view event.entry.value.now) (Some event.entry.word))) }
{
    row.extend_from_slice(event.word.text())?;
    put_columns(row, field, event)?;
    row.extend_from_slice(b"\n")
}

// Adds the row of a value.
fn put_value(
    row: &mut Vec<u8>,
    field: &mut Vec<u8>,
    rules: &JsonRules,
    value: &Value,
) -> Result<(), AllocError>
    ensures { OnOk result (row.new.items ≡ row.old.items ++ text_of_row (value_row rules.now (Some (view value.now)))) }
{
    match word_in(rules, value) {
        Some(word) => put_event(row, field, ToldEvent { rules, word, value }),
        None => put_skipped(row),
    }
}

// Adds the row of bytes that should be a value.
fn put_bytes(
    alloc: Global,
    row: &mut Vec<u8>,
    field: &mut Vec<u8>,
    rules: &JsonRules,
    bytes: &[u8],
) -> Result<(), AllocError>
    ensures { OnOk result (row.new.items ≡ row.old.items ++ text_of_row (value_row rules.now (value_of bytes.now))) }
{
    match Value::from_slice(alloc, bytes) {
        Ok(value) => put_value(row, field, rules, &value),
        Err(error) if error.is_memory() => Err(AllocError),
        Err(_) => put_skipped(row),
    }
}

/// Whether nothing but spaces, tabs and the end of a line stand in a line: such a line tells of nothing.
pub fn is_blank(line: &[u8]) -> bool
    ensures { result ≡ is_blank line.now }
{
    line.iter()
        .all(|byte| matches!(*byte, b' ' | b'\t' | b'\r' | b'\n'))
}

// A line without the byte order mark at its beginning, if there is one.
fn without_mark(line: &[u8]) -> &[u8]
    ensures { result.now ≡ strip_bom line.now }
{
    if line.starts_with(&BYTE_ORDER_MARK) {
        &line[3..]
    } else {
        line
    }
}

// A line without what ends it.
fn without_end(line: &[u8]) -> &[u8]
    ensures { result.now ≡ without_end line.now }
{
    let line = line.strip_suffix(b"\n").unwrap_or(line);
    line.strip_suffix(b"\r").unwrap_or(line)
}

// Adds the row of a file mark.
fn put_mark(row: &mut Vec<u8>, mark: &[u8]) -> Result<(), AllocError>
    requires { length mark.now ≢ 0 }
    ensures { OnOk result (row.new.items ≡ row.old.items ++ text_of_row (mark.now ∷ [])) }
{
    put_text(row, mark)?;
    row.extend_from_slice(b"\n")
}

// Adds the row of a line that isn't blank.
#[tactic(auto, unfolding(crate::specs::EventRow::line_row))]
fn put_row(
    alloc: Global,
    row: &mut Vec<u8>,
    field: &mut Vec<u8>,
    rules: &JsonRules,
    line: &[u8],
) -> Result<(), AllocError>
    ensures { OnOk result (row.new.items ≡ row.old.items ++ text_of_row (line_row rules.now line.now)) }
{
    let mark = without_end(line);
    if file_name(mark).is_some() {
        return put_mark(row, mark);
    }
    put_bytes(alloc, row, field, rules, line)
}

// Adds the text of a line. What `field` had is gone.
pub(crate) fn put_line(
    alloc: Global,
    row: &mut Vec<u8>,
    field: &mut Vec<u8>,
    rules: &JsonRules,
    line: &[u8],
) -> Result<(), AllocError>
    ensures { OnOk result (row.new.items ≡ row.old.items ++ text_of_line rules.now line.now) }
{
    let line = without_mark(line);
    if is_blank(line) {
        return row.extend_from_slice(b"\n");
    }
    put_row(alloc, row, field, rules, line)
}
