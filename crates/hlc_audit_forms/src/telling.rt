// What is said first, of the row that tells most, and what to ask next of it.

ghost use Rattle.std.specs.Prelude.{◌≡◌, ◌&&◌, ◌++◌, OnOk, bytes_eq, codes, map, option_map};
ghost use Rattle.csv.specs.Records.{fields_of};
ghost use Rattle.hlc_csv.specs.Rows.{field_of};
ghost use Rattle.hlc_audit_forms.specs.AuditText.{asking_text, telling_text};
ghost use Rattle.hlc_audit_forms.specs.TextPiece.{pieces_text, told_piece};
ghost use Rattle.hlc_audit_forms.specs.Told.{asking_pieces, breach_text, count_in, events_pieces, events_text, greater_row, greatest_row, kind_pieces, node_row, sound_pieces, telling_row, times_pieces, told_text};

use crate::plain::put_pieces;
use crate::row_lines::put_group;
use crate::text_piece::TextPiece;
use csv::ByteRecord;
use hlc_csv::{field, number};
use std::alloc::AllocError;

// The number that a row has at a place, or 0.
fn count_in(row: &ByteRecord, place: usize) -> u64
    ensures { result ≡ count_in place (fields_of row.now) }
{
    number(field(row, place)).unwrap_or(0)
}

// Of a row that was found and the next one, the one that has the word and the greater number at a place.
fn greater_row<'a>(
    found: Option<&'a ByteRecord>,
    row: &'a ByteRecord,
    word: &[u8],
    place: usize,
) -> Option<&'a ByteRecord>
    ensures { option_map (λ r. fields_of r.now) result
        ≡ greater_row word.now place (option_map (λ r. fields_of r.now) found.entry) (fields_of row.now) }
{
    if field(row, 0) != word {
        return found;
    }
    match found {
        Some(before) if count_in(before, place) >= count_in(row, place) => found,
        _ => Some(row),
    }
}

// The first row of a word whose number at a place is the greatest.
fn greatest_row<'a>(rows: &'a [ByteRecord], word: &[u8], place: usize) -> Option<&'a ByteRecord>
    ensures { option_map (λ r. fields_of r.now) result ≡ greatest_row word.now place (map fields_of rows.now) }
{
    let mut found = None;
    for row in rows {
        found = greater_row(found, row, word, place);
    }
    found
}

// The row that tells most.
pub(crate) fn telling_row(rows: &[ByteRecord]) -> Option<&ByteRecord>
    ensures { option_map (λ r. fields_of r.now) result ≡ telling_row (map fields_of rows.now) }
{
    let group = greatest_row(rows, b"group", 4);
    let node = greatest_row(rows, b"node", 3);
    greatest_row(rows, b"bad", 0).or(group.or(node))
}

// What is said of a node, where no stamp breaks the rule.
fn sound_pieces(ahead: u64) -> &'static [TextPiece]
    ensures { map told_piece result.now ≡ sound_pieces ahead }
{
    use TextPiece::{Line, Plain, Said};
    if ahead == 0 {
        &[
            Said(b"No event breaks the clock rule.\n"),
            Said(b"None ran ahead of its node's clock.\n"),
        ]
    } else {
        &[
            Said(b"No event breaks the clock rule.\n"),
            Said(b"Stamps ran up to "),
            Plain(3),
            Said(b" ahead of the clock of "),
            Plain(1),
            Said(b", first at "),
            Line(4),
            Said(b";\nall of it began at "),
            Line(5),
            Said(b".\n"),
        ]
    }
}

// How often the rule is broken so.
fn times_pieces(causes: u64) -> &'static [TextPiece]
    ensures { map told_piece result.now ≡ times_pieces causes }
{
    use TextPiece::{Plain, Said};
    if causes == 1 {
        &[Said(b"once")]
    } else {
        &[Plain(4), Said(b" times")]
    }
}

// Whether a row is that of a node of a name.
fn is_node_row(row: &ByteRecord, name: &[u8]) -> bool
    ensures { result ≡ (bytes_eq (field_of (fields_of row.now) 0) (codes "node") && bytes_eq (field_of (fields_of row.now) 1) name.now) }
{
    field(row, 0) == b"node".as_slice() && field(row, 1) == name
}

// The row of a node of a name, if there is one.
fn node_row<'a>(rows: &'a [ByteRecord], name: &[u8]) -> Option<&'a ByteRecord>
    ensures { option_map (λ r. fields_of r.now) result ≡ node_row (map fields_of rows.now) name.now }
{
    for row in rows {
        if is_node_row(row, name) {
            return Some(row);
        }
    }
    None
}

// Among how many events of a node.
fn events_pieces(events: u64) -> &'static [TextPiece]
    ensures { map told_piece result.now ≡ events_pieces events }
{
    use TextPiece::{Plain, Said};
    if events == 1 {
        &[Said(b" in its one event")]
    } else {
        &[Said(b" in its "), Plain(2), Said(b" events")]
    }
}

// Adds among how many events of a node, if its row is there.
fn put_events(text: &mut Vec<u8>, node: Option<&ByteRecord>) -> Result<(), AllocError>
    ensures { OnOk result (text.new.items ≡ text.old.items ++ events_text (option_map (λ r. fields_of r.now) node.entry)) }
{
    match node {
        Some(row) => put_pieces(text, row, events_pieces(count_in(row, 2))),
        None => Ok(()),
    }
}

// Adds where and how often the rule is broken by the causes of a group, beside the rows of the nodes.
fn put_breach(text: &mut Vec<u8>, rows: &[ByteRecord], row: &ByteRecord) -> Result<(), AllocError>
    ensures { OnOk result (text.new.items ≡ text.old.items ++ breach_text (map fields_of rows.now) (fields_of row.now)) }
{
    use TextPiece::{Plain, Said};
    put_pieces(
        text,
        row,
        &[
            Said(b"The clock rule is broken, most of all at "),
            Plain(1),
            Said(b",\n"),
        ],
    )?;
    put_pieces(text, row, times_pieces(count_in(row, 4)))?;
    put_events(text, node_row(rows, field(row, 1)))
}

// Adds how they break it, and where first.
fn put_kind(text: &mut Vec<u8>, row: &ByteRecord) -> Result<(), AllocError>
    ensures { OnOk result (text.new.items ≡ text.old.items ++ pieces_text (fields_of row.now) (kind_pieces (fields_of row.now))) }
{
    use TextPiece::{Line, Said};
    put_group(
        text,
        row,
        &[Said(b":\n")],
        &[Said(b", first at "), Line(5), Said(b".\n")],
    )
}

// Adds what is said first of a row.
fn put_told(text: &mut Vec<u8>, rows: &[ByteRecord], row: &ByteRecord) -> Result<(), AllocError>
    ensures { OnOk result (text.new.items ≡ text.old.items ++ told_text (map fields_of rows.now) (fields_of row.now)) }
{
    use TextPiece::{Line, Plain, Said};
    let word = field(row, 0);
    if word == b"bad".as_slice() {
        put_pieces(
            text,
            row,
            &[
                Said(b"The input is no log: at "),
                Line(1),
                Said(b" its fault is `"),
                Plain(2),
                Said(b"`.\n"),
            ],
        )
    } else if word == b"group".as_slice() {
        put_breach(text, rows, row)?;
        put_kind(text, row)
    } else {
        put_pieces(text, row, sound_pieces(count_in(row, 3)))
    }
}

// What to ask next of a row.
fn asking_pieces(row: &ByteRecord) -> &'static [TextPiece]
    ensures { map told_piece result.now ≡ asking_pieces (fields_of row.now) }
{
    use TextPiece::{Plain, Said};
    let word = field(row, 0);
    if word == b"group".as_slice() {
        &[
            Said(b"\nAsk next, with the same options:\n  hlc audit --ask 'event,"),
            Plain(5),
            Said(b"' --ask 'claimed,"),
            Plain(5),
            Said(b"'\n  hlc draw-log --around '"),
            Plain(5),
            Said(b"'\n"),
        ]
    } else if word == b"node".as_slice() && count_in(row, 3) > 0 {
        &[
            Said(b"\nAsk next, with the same options:\n  hlc audit --ask 'explain,"),
            Plain(4),
            Said(b"'\n  hlc draw-log --explain '"),
            Plain(4),
            Said(b"' --around '"),
            Plain(4),
            Said(b"'\n"),
        ]
    } else {
        &[]
    }
}

// Adds what is said first, of the row that tells most, if there is one.
pub(crate) fn put_telling(
    text: &mut Vec<u8>,
    rows: &[ByteRecord],
    told: Option<&ByteRecord>,
) -> Result<(), AllocError>
    ensures { OnOk result (text.new.items ≡ text.old.items ++ telling_text (map fields_of rows.now) (option_map (λ r. fields_of r.now) told.entry)) }
{
    match told {
        Some(row) => put_told(text, rows, row),
        None => text.extend_from_slice(b"The log has no event.\n"),
    }
}

// Adds what to ask next of it.
pub(crate) fn put_asking(text: &mut Vec<u8>, told: Option<&ByteRecord>) -> Result<(), AllocError>
    ensures { OnOk result (text.new.items ≡ text.old.items ++ asking_text (option_map (λ r. fields_of r.now) told.entry)) }
{
    match told {
        Some(row) => put_pieces(text, row, asking_pieces(row)),
        None => Ok(()),
    }
}
