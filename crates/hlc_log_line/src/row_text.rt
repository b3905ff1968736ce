//! The text of a row, in a room of bytes.

ghost use Rattle.std.specs.Prelude.{◌≡◌, ◌+◌, ◌*◌, ◌^◌, ◌≤◌, ◌<◌, ◌∷◌, [], All, length, map};
ghost use Rattle.csv.specs.Writing.{escaped, field_text, fields_text, needs_quotes as calls_for_quotes, quoted, row_body};
ghost use Rattle.hlc_csv.specs.Rows.{row_setup, text_of_row};
ghost use Rattle.hlc_log_line.specs.Room.{IsPut, IsWritten};
ghost use Rattle.hlc_log_line.specs.RowText.{AreShort};

use crate::room::put;

// Writes a row of eight fields at the front of a room, if it fits. Answers how long it is.
pub(crate) fn write_eight<'a>(
    room: &mut [u8],
    first: &'a [u8],
    second: &'a [u8],
    third: &'a [u8],
    fourth: &'a [u8],
    fifth: &'a [u8],
    sixth: &'a [u8],
    seventh: &'a [u8],
    eighth: &'a [u8],
) -> usize
    requires short { AreShort (first ∷ second ∷ third ∷ fourth ∷ fifth ∷ sixth ∷ seventh ∷ eighth ∷ []) }
    ensures { IsWritten room.old room.new (text_of_row (first.now ∷ second.now ∷ third.now ∷ fourth.now ∷ fifth.now ∷ sixth.now
        ∷ seventh.now ∷ eighth.now ∷ [])) result }
{
    let fields = [first, second, third, fourth, fifth, sixth, seventh, eighth];
    write_row(room, &fields)
}

// Writes a row at the front of a room, if it fits. Answers how long it is.
fn write_row(room: &mut [u8], fields: &[&[u8]]) -> usize
    requires several { 2 ≤ length fields.now }
    requires few { length fields.now ≤ 16 }
    requires short { AreShort fields.now }
    ensures { IsWritten room.old room.new (text_of_row (map (λ field. field.now) fields.now)) result }
{
    let length = body_length(fields) + 1;
    if length <= room.len() {
        let end = put_body(room, fields);
        put(room, end, b"\n");
    }
    length
}

// How long the fields of a row are, with what stands between them.
fn body_length(fields: &[&[u8]]) -> usize
    requires few { length fields.now ≤ 16 }
    requires short { AreShort fields.now }
    ensures length { result ≡ length (row_body row_setup (map (λ field. field.now) fields.now)) }
    ensures most { result ≤ 2 ^ 40 }
{
    match fields {
        [] => 0,
        [first, rest @ ..] => field_length(first) + rest_length(rest),
    }
}

// How long fields after others are.
fn rest_length(fields: &[&[u8]]) -> usize
    requires few { length fields.now ≤ 16 }
    requires short { AreShort fields.now }
    ensures length { result ≡ length (fields_text row_setup (map (λ field. field.now) fields.now)) }
    ensures most { result ≤ length fields.now * 2 ^ 34 }
{
    let mut length = 0;
    for field in fields {
        length += 1 + field_length(field);
    }
    length
}

// How long a field is, between quotes if it needs them.
fn field_length(field: &[u8]) -> usize
    requires { length field.now < 2 ^ 32 }
    ensures length { result ≡ length (field_text row_setup field.now) }
    ensures most { result ≤ 2 ^ 33 }
{
    if needs_quotes(field) {
        escaped_length(field) + 2
    } else {
        field.len()
    }
}

// Whether a field needs quotes.
#[inline]
fn needs_quotes(field: &[u8]) -> bool
    ensures { result ≡ calls_for_quotes row_setup field.now }
{
    field
        .iter()
        .any(|byte| matches!(*byte, b',' | b'"' | b'\r' | b'\n'))
}

// How long a field is with each quote in it twice.
fn escaped_length(field: &[u8]) -> usize
    requires { length field.now < 2 ^ 32 }
    ensures length { result ≡ length (escaped row_setup field.now) }
    ensures most { result ≤ 2 * length field.now }
{
    let mut length = 0;
    for byte in field {
        length += escaped_size(*byte);
    }
    length
}

// How many bytes stand for one of a quoted field.
#[inline]
fn escaped_size(byte: u8) -> usize
    ensures length { result ≡ length (escaped row_setup (byte ∷ [])) }
    ensures most { result ≤ 2 }
{
    if byte == b'"' { 2 } else { 1 }
}

// Puts the fields of a row at the front of a room, with what stands between them. Answers where they end.
fn put_body(room: &mut [u8], fields: &[&[u8]]) -> usize
    requires { length (row_body row_setup (map (λ field. field.now) fields.now)) ≤ length room.old }
    ensures { IsPut room.old room.new 0 (row_body row_setup (map (λ field. field.now) fields.now)) result }
{
    match fields {
        [] => 0,
        [first, rest @ ..] => {
            let end = put_field(room, 0, first);
            put_rest(room, end, rest)
        }
    }
}

// Puts fields after others at a place.
fn put_rest(room: &mut [u8], at: usize, fields: &[&[u8]]) -> usize
    requires { at + length (fields_text row_setup (map (λ field. field.now) fields.now)) ≤ length room.old }
    ensures { IsPut room.old room.new at (fields_text row_setup (map (λ field. field.now) fields.now)) result }
{
    let mut end = at;
    for field in fields {
        end = put_next(room, end, field);
    }
    end
}

// Puts a comma and a field at a place.
fn put_next(room: &mut [u8], at: usize, field: &[u8]) -> usize
    requires { at + length (44 ∷ field_text row_setup field.now) ≤ length room.old }
    ensures { IsPut room.old room.new at (44 ∷ field_text row_setup field.now) result }
{
    let begins = put(room, at, b",");
    put_field(room, begins, field)
}

// Puts a field at a place, between quotes if it needs them.
fn put_field(room: &mut [u8], at: usize, field: &[u8]) -> usize
    requires { at + length (field_text row_setup field.now) ≤ length room.old }
    ensures { IsPut room.old room.new at (field_text row_setup field.now) result }
{
    if needs_quotes(field) {
        put_quoted(room, at, field)
    } else {
        put(room, at, field)
    }
}

// Puts a field at a place between quotes, and each quote in it twice.
fn put_quoted(room: &mut [u8], at: usize, field: &[u8]) -> usize
    requires { at + length (quoted row_setup field.now) ≤ length room.old }
    ensures { IsPut room.old room.new at (quoted row_setup field.now) result }
{
    let mut end = put(room, at, b"\"");
    for byte in field {
        end = put_escaped(room, end, *byte);
    }
    put(room, end, b"\"")
}

// Puts a byte of a quoted field at a place, and a quote twice.
#[inline]
fn put_escaped(room: &mut [u8], at: usize, byte: u8) -> usize
    requires { at + length (escaped row_setup (byte ∷ [])) ≤ length room.old }
    ensures { IsPut room.old room.new at (escaped row_setup (byte ∷ [])) result }
{
    if byte == b'"' {
        put(room, at, b"\"\"")
    } else {
        put(room, at, &[byte])
    }
}
