// The fields of records that values make.

ghost use Rattle.std.specs.Prelude.{◌≡◌, ◌==◌, ◌++◌, ◌∷◌, OnOk, option_map, true};
ghost use Rattle.std.specs.List.{after_first, before_first};
ghost use Rattle.csv.specs.Writing.{field_text};
ghost use Rattle.memchr.specs.Find.{is_byte3};
ghost use Rattle.serde_json.specs.View.{view};
ghost use Rattle.hlc_csv.specs.Rows.{row_field_bytes, row_setup};
ghost use Rattle.hlc_json_lines.specs.FieldText.{column_text, field_of_value, line_byte, one_line, plain_text, stamp_text, text_if_there};

use hlc_csv::{RowField, put_text};
use hlc_log_text::LogColumn;
use itoa::Buffer;
use memchr::{memchr, memchr3};
use serde_json::Value;
use std::alloc::AllocError;

// The text of a value.
fn plain_text(value: &Value) -> RowField<'_>
    ensures { row_field_bytes result ≡ plain_text (view value.now) }
{
    if let Some(text) = value.as_str() {
        return RowField::Text(text.as_bytes());
    }
    if let Some(number) = value.as_u64() {
        return RowField::Number(number);
    }
    if value.is_number() {
        return RowField::Text(b"-");
    }
    RowField::Text(b"")
}

// So of a value that may be missing.
pub(crate) fn text_if_there(value: Option<&Value>) -> RowField<'_>
    ensures { row_field_bytes result ≡ text_if_there (option_map (λ found. view found.now) value.entry) }
{
    match value {
        Some(value) => plain_text(value),
        None => RowField::Text(b""),
    }
}

// How a byte is written within a line that gets a backslash before it there.
fn marked_byte(byte: u8) -> &'static [u8]
    requires { is_byte3 10 13 92 byte ≡ true }
    ensures { result.now ≡ line_byte byte }
{
    match byte {
        b'\n' => b"\\n",
        b'\r' => b"\\r",
        _ => b"\\\\",
    }
}

// Writes a text within a line.
fn put_one_line(field: &mut Vec<u8>, text: &[u8]) -> Result<(), AllocError>
    ensures { OnOk result (field.new.items ≡ field.old.items ++ one_line text.now) }
{
    let mut rest = text;
    while let Some(at) = memchr3(b'\n', b'\r', b'\\', rest) {
        field.extend_from_slice(&rest[..at])?;
        field.extend_from_slice(marked_byte(rest[at]))?;
        rest = &rest[at + 1..];
    }
    field.extend_from_slice(rest)
}

// What stands before the first of a byte in a text.
fn before_byte(text: &[u8], byte: u8) -> &[u8]
    ensures { result.now ≡ before_first (λ other. other == byte) text.now }
{
    match memchr(byte, text) {
        Some(at) => &text[..at],
        None => text,
    }
}

// What stands before the first point of a text.
pub(crate) fn before_point(text: &[u8]) -> &[u8]
    ensures { result.now ≡ before_first (λ byte. byte == 46) text.now }
{
    before_byte(text, b'.')
}

// What stands after the first point of a text: nothing, if it has none.
pub(crate) fn after_point(text: &[u8]) -> &[u8]
    ensures { result.now ≡ after_first (λ byte. byte == 46) text.now }
{
    match memchr(b'.', text) {
        Some(at) => &text[at + 1..],
        None => b"",
    }
}

// Writes a stamp as this program writes it, within a line.
fn put_stamp(field: &mut Vec<u8>, text: &[u8]) -> Result<(), AllocError>
    ensures { OnOk result (field.new.items ≡ field.old.items ++ one_line (stamp_text text.now)) }
{
    let stamp = before_byte(text, b'/');
    match memchr(b':', stamp) {
        Some(at) => {
            put_one_line(field, &stamp[..at])?;
            field.extend_from_slice(b".")?;
            put_one_line(field, &stamp[at + 1..])
        }
        None => put_one_line(field, stamp),
    }
}

// Writes the text of a column within a line.
fn put_column_text(field: &mut Vec<u8>, column: LogColumn, text: &[u8]) -> Result<(), AllocError>
    ensures { OnOk result (field.new.items ≡ field.old.items ++ one_line (column_text column text.now)) }
{
    match column {
        LogColumn::Stamp | LogColumn::Carried => put_stamp(field, text),
        _ => put_one_line(field, text),
    }
}

// Writes the text of a value of a column within a line.
pub(crate) fn put_plain(
    field: &mut Vec<u8>,
    column: LogColumn,
    plain: RowField<'_>,
) -> Result<(), AllocError>
    ensures { OnOk result (field.new.items ≡ field.old.items ++ one_line (column_text column (row_field_bytes plain.entry))) }
{
    match plain {
        RowField::Text(text) => put_column_text(field, column, text),
        RowField::Number(number) => {
            put_column_text(field, column, Buffer::new().format(number).as_bytes())
        }
    }
}

// Adds a field to a row.
pub(crate) fn put_field(row: &mut Vec<u8>, field: &[u8]) -> Result<(), AllocError>
    ensures { OnOk result (row.new.items ≡ row.old.items ++ 44 ∷ field_text row_setup field.now) }
{
    row.extend_from_slice(b",")?;
    put_text(row, field)
}
