// Fields as people see them.

ghost use Rattle.std.specs.Prelude.{◌≡◌, ◌==◌, ◌++◌, OnOk, drop, map, replicate};
ghost use Rattle.std.specs.List.{flat_map, list_any};
ghost use Rattle.csv.specs.Records.{fields_of};
ghost use Rattle.hlc_audit_forms.specs.TextPiece.{at_left, at_right, line_name, numbered_byte, piece_text, pieces_text, plain_byte, plain_text, spaced, told_piece};

use crate::hex::put_hex;
use crate::text_piece::TextPiece;
use csv::ByteRecord;
use hlc_csv::field;
use std::alloc::AllocError;

// Adds a byte by its number, as `\x0a`.
fn put_numbered(text: &mut Vec<u8>, byte: u8) -> Result<(), AllocError>
    ensures { OnOk result (text.new.items ≡ text.old.items ++ numbered_byte byte) }
{
    text.extend_from_slice(b"\\x")?;
    put_hex(text, byte)
}

// Adds a byte as it is shown.
fn put_byte(text: &mut Vec<u8>, byte: u8) -> Result<(), AllocError>
    ensures { OnOk result (text.new.items ≡ text.old.items ++ plain_byte byte) }
{
    if byte == b'\\' {
        text.extend_from_slice(b"\\\\")
    } else if byte >= 32 && byte <= 126 && byte != b'\'' {
        text.extend_from_slice(&[byte])
    } else {
        put_numbered(text, byte)
    }
}

// Adds a field as it is shown.
fn put_plain(text: &mut Vec<u8>, field: &[u8]) -> Result<(), AllocError>
    ensures { OnOk result (text.new.items ≡ text.old.items ++ plain_text field.now) }
{
    for byte in field {
        put_byte(text, *byte)?;
    }
    Ok(())
}

// Whether a line is one of a file.
fn is_of_file(line: &[u8]) -> bool
    ensures { result ≡ list_any (λ byte. byte == 58) line.now }
{
    line.iter().any(|byte| *byte == b':')
}

// Adds a line by its name.
fn put_line(text: &mut Vec<u8>, line: &[u8]) -> Result<(), AllocError>
    ensures { OnOk result (text.new.items ≡ text.old.items ++ line_name line.now) }
{
    if !is_of_file(line) {
        text.extend_from_slice(b"line ")?;
    }
    put_plain(text, line)
}

// Adds blanks.
fn put_blanks(text: &mut Vec<u8>, count: usize) -> Result<(), AllocError>
    ensures { OnOk result (text.new.items ≡ text.old.items ++ replicate count 32) }
{
    for _blank in 0..count {
        text.push(b' ')?;
    }
    Ok(())
}

// Adds a field in a column, at its left side.
fn put_left(text: &mut Vec<u8>, width: usize, field: &[u8]) -> Result<(), AllocError>
    ensures { OnOk result (text.new.items ≡ text.old.items ++ at_left width field.now) }
{
    put_plain(text, field)?;
    put_blanks(text, width.saturating_sub(field.len()))
}

// Adds a field in a column, at its right side.
fn put_right(text: &mut Vec<u8>, width: usize, field: &[u8]) -> Result<(), AllocError>
    ensures { OnOk result (text.new.items ≡ text.old.items ++ at_right width field.now) }
{
    put_blanks(text, width.saturating_sub(field.len()))?;
    put_plain(text, field)
}

// Adds a field behind a blank.
fn put_spaced(text: &mut Vec<u8>, field: &[u8]) -> Result<(), AllocError>
    ensures { OnOk result (text.new.items ≡ text.old.items ++ spaced field.now) }
{
    text.extend_from_slice(b" ")?;
    put_plain(text, field)
}

// Adds all fields of a row from a place on, each behind a blank.
fn put_rest(text: &mut Vec<u8>, row: &ByteRecord, start: usize) -> Result<(), AllocError>
    ensures { OnOk result (text.new.items ≡ text.old.items ++ flat_map spaced (drop start (fields_of row.now))) }
{
    for place in start..row.len() {
        put_spaced(text, field(row, place))?;
    }
    Ok(())
}

// Adds a piece of a line about a row.
fn put_piece(text: &mut Vec<u8>, row: &ByteRecord, piece: TextPiece) -> Result<(), AllocError>
    ensures { OnOk result (text.new.items ≡ text.old.items ++ piece_text (fields_of row.now) (told_piece piece)) }
{
    match piece {
        TextPiece::Said(said) => text.extend_from_slice(said),
        TextPiece::Plain(place) => put_plain(text, field(row, place)),
        TextPiece::Line(place) => put_line(text, field(row, place)),
        TextPiece::Left(place, width) => put_left(text, width, field(row, place)),
        TextPiece::Right(place, width) => put_right(text, width, field(row, place)),
        TextPiece::Rest(place) => put_rest(text, row, place),
    }
}

// Adds pieces of a line about a row, one after the other.
pub(crate) fn put_pieces(
    text: &mut Vec<u8>,
    row: &ByteRecord,
    pieces: &[TextPiece],
) -> Result<(), AllocError>
    ensures { OnOk result (text.new.items ≡ text.old.items ++ pieces_text (fields_of row.now) (map told_piece pieces.now)) }
{
    for piece in pieces {
        put_piece(text, row, *piece)?;
    }
    Ok(())
}
