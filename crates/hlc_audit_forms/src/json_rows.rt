// The rows of an audit as one object.

ghost use Rattle.std.specs.Prelude.{◌≡◌, ℕ, ◌++◌, ◌∷◌, IfOk, List, OnOk, drop, filter, map};
ghost use Rattle.std.specs.Io.KnownBytes.{Appends};
ghost use Rattle.std.specs.List.{join_with_byte};
ghost use Rattle.csv.specs.Records.{fields_of};
ghost use Rattle.hlc_audit_forms.specs.JsonRows.{IsJsonOf, column_members, is_row_of, json_text, lines_behind, lines_from, lines_member, members_text, row_columns, row_member, row_object, rows_member};
ghost use Rattle.hlc_audit_forms.specs.JsonText.{json_string};

use crate::answer_row::lists_lines;
use crate::json_column::{JsonColumn, put_member};
use crate::json_member::{JsonMember, MEMBERS};
use crate::json_text::{put_comma, put_name, put_string};
use crate::output::write_whole;
use crate::rows::told_rows;
use csv::ByteRecord;
use hlc_csv::{OutputFault, field};
use std::alloc::{AllocError, Global};
use std::io::Write;

// The member of a row.
fn row_member(row: &ByteRecord) -> JsonMember
    ensures { result ≡ row_member (fields_of row.now) }
{
    JsonMember::of_word(field(row, 0))
}

// The columns of a row.
fn row_columns(row: &ByteRecord) -> &'static [JsonColumn]
    ensures { result.now ≡ row_columns (fields_of row.now) }
{
    row_member(row).columns(row)
}

// Whether a row is one of a member.
fn is_row_of(member: JsonMember, row: &ByteRecord) -> bool
    ensures { result ≡ is_row_of member (fields_of row.now) }
{
    row_member(row).name() == member.name()
}

// Adds the members of the object of a row for its columns.
fn put_columns(
    text: &mut Vec<u8>,
    columns: &[JsonColumn],
    row: &ByteRecord,
) -> Result<(), AllocError>
    ensures { OnOk result (text.new.items ≡ text.old.items ++ join_with_byte 44 (column_members 0 columns.now (fields_of row.now))) }
{
    for (place, column) in columns.iter().enumerate() {
        put_comma(text, place == 0)?;
        put_member(text, *column, field(row, place))?;
    }
    Ok(())
}

// Adds the lines that stand in a row from a place on.
fn put_lines(text: &mut Vec<u8>, row: &ByteRecord, start: usize) -> Result<(), AllocError>
    ensures { OnOk result (text.new.items ≡ text.old.items ++ join_with_byte 44 (map json_string (drop start (fields_of row.now)))) }
{
    for place in start..row.len() {
        put_comma(text, place == start)?;
        put_string(text, field(row, place))?;
    }
    Ok(())
}

// Where the lines of a row begin that stand after so many fields: at its end if it says there that there are none.
fn lines_start(row: &ByteRecord, columns: usize) -> usize
    ensures { drop result (fields_of row.now) ≡ lines_from columns (fields_of row.now) }
{
    if field(row, columns) == b"none".as_slice() {
        row.len()
    } else {
        columns
    }
}

// Adds the member with those lines.
fn put_lines_member(text: &mut Vec<u8>, row: &ByteRecord, start: usize) -> Result<(), AllocError>
    ensures { OnOk result (text.new.items ≡ text.old.items ++ lines_member (drop start (fields_of row.now))) }
{
    put_name(text, b"lines")?;
    text.extend_from_slice(b"[")?;
    put_lines(text, row, start)?;
    text.extend_from_slice(b"]")
}

// Adds what stands in the object of a row behind the members of so many columns.
fn put_behind(text: &mut Vec<u8>, row: &ByteRecord, columns: usize) -> Result<(), AllocError>
    ensures { OnOk result (text.new.items ≡ text.old.items ++ lines_behind columns (fields_of row.now)) }
{
    if !lists_lines(field(row, 0)) {
        return Ok(());
    }
    put_comma(text, columns == 0)?;
    put_lines_member(text, row, lines_start(row, columns))
}

// Adds a row as an object.
fn put_row(text: &mut Vec<u8>, row: &ByteRecord) -> Result<(), AllocError>
    ensures { OnOk result (text.new.items ≡ text.old.items ++ row_object (fields_of row.now)) }
{
    let columns = row_columns(row);
    text.extend_from_slice(b"{")?;
    put_columns(text, columns, row)?;
    put_behind(text, row, columns.len())?;
    text.extend_from_slice(b"}")
}

// Adds the rows of a member as objects, in their order.
fn put_rows(text: &mut Vec<u8>, member: JsonMember, rows: &[ByteRecord]) -> Result<(), AllocError>
    ensures { OnOk result (text.new.items
        ≡ text.old.items ++ join_with_byte 44 (map row_object (filter (is_row_of member) (map fields_of rows.now)))) }
{
    let mut is_first = true;
    for row in rows {
        if is_row_of(member, row) {
            put_comma(text, is_first)?;
            put_row(text, row)?;
            is_first = false;
        }
    }
    Ok(())
}

// Adds a member with its rows.
fn put_rows_member(
    text: &mut Vec<u8>,
    member: JsonMember,
    rows: &[ByteRecord],
) -> Result<(), AllocError>
    ensures { OnOk result (text.new.items ≡ text.old.items ++ rows_member (map fields_of rows.now) member) }
{
    put_name(text, member.name())?;
    text.extend_from_slice(b"[")?;
    put_rows(text, member, rows)?;
    text.extend_from_slice(b"]")
}

// Adds all members.
fn put_members(text: &mut Vec<u8>, rows: &[ByteRecord]) -> Result<(), AllocError>
    ensures { OnOk result (text.new.items ≡ text.old.items ++ members_text (map fields_of rows.now)) }
{
    for (place, member) in MEMBERS.iter().enumerate() {
        put_comma(text, place == 0)?;
        put_rows_member(text, *member, rows)?;
    }
    Ok(())
}

// Adds rows as one object, and a line's end.
fn put_json(text: &mut Vec<u8>, rows: &[ByteRecord]) -> Result<(), AllocError>
    ensures { OnOk result (text.new.items ≡ text.old.items ++ json_text (map fields_of rows.now)) }
{
    text.extend_from_slice(b"{")?;
    put_members(text, rows)?;
    text.extend_from_slice(b"}\n")
}

/// The rows of a text that an audit wrote, as one object of JSON on one line.
///
/// Rows of words that no audit writes stand among the answers. It takes memory for all rows beside the object.
pub fn json_of(alloc: Global, rows: &[u8]) -> Result<Vec<u8>, AllocError>
    ensures { IfOk result (λ json. IsJsonOf rows.now json.items) }
{
    let rows = told_rows(alloc, rows)?;
    let mut json = Vec::new(alloc);
    put_json(&mut json, &rows)?;
    Ok(json)
}

/// Writes the rows of a text that an audit wrote, as one object of JSON on one line, and flushes the writer.
///
/// After a fault nothing is promised of what the writer got.
pub fn write_json<W: Write>(alloc: Global, rows: &[u8], writer: &mut W) -> Result<(), OutputFault>
    ensures { OnOk result ((json : List ℕ) × IsJsonOf rows.now json × Appends (W.contents writer.old) (W.contents writer.new) json) }
{
    let json = json_of(alloc, rows)?;
    write_whole(&json, writer)
}
