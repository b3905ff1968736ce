// What is said of rows.

ghost use Rattle.std.specs.Prelude.{◌≡◌, ◌++◌, OnOk, bytes_eq, map};
ghost use Rattle.csv.specs.Records.{fields_of};
ghost use Rattle.hlc_audit_forms.specs.AuditText.{row_text};
ghost use Rattle.hlc_audit_forms.specs.TextPiece.{pieces_text, told_piece};
ghost use Rattle.hlc_audit_forms.specs.TextSection.{group_pieces, group_rule, place_pieces, row_pieces, rule_pieces, stamps_pieces};

use crate::plain::put_pieces;
use crate::text_piece::TextPiece;
use crate::text_section::TextSection;
use csv::ByteRecord;
use hlc_csv::field;
use std::alloc::AllocError;

// How a group breaks the rule, by its word: against its node's own stamps, those of another node, or none.
fn rule_pieces(rule: &[u8], is_own: bool, has_other: bool) -> &'static [TextPiece]
    ensures { map told_piece result.now ≡ rule_pieces rule.now is_own has_other }
{
    use TextPiece::{Plain, Said};
    if rule == b"behind".as_slice() {
        &[Said(b"stamps below what its clock reads")]
    } else if rule == b"carried".as_slice() {
        &[Said(b"carried stamps aren't as logged by "), Plain(3)]
    } else if rule == b"not-above".as_slice() && is_own {
        &[Said(b"stamps not above its own last one")]
    } else if rule == b"not-above".as_slice() {
        &[Said(b"stamps not above those of "), Plain(3)]
    } else if is_own {
        &[Said(b"stamps higher than after its own last one")]
    } else if has_other {
        &[Said(b"stamps higher than after those of "), Plain(3)]
    } else {
        &[Said(b"stamps higher than its clock asks")]
    }
}

// How the causes of a group break the rule.
pub(crate) fn group_rule(row: &ByteRecord) -> &'static [TextPiece]
    ensures { map told_piece result.now ≡ group_rule (fields_of row.now) }
{
    let of = field(row, 3);
    rule_pieces(field(row, 2), of == field(row, 1), of.len() > 0)
}

// The line of a row of a section but that of groups.
fn row_pieces(section: TextSection) -> &'static [TextPiece]
    ensures { map told_piece result.now ≡ row_pieces section }
{
    use TextPiece::{Left, Line, Plain, Rest, Right, Said};
    match section {
        TextSection::Bad => &[
            Said(b"  "),
            Line(1),
            Said(b": "),
            Plain(2),
            Said(b" "),
            Plain(3),
            Said(b"\n"),
        ],
        TextSection::Messages => &[
            Said(b"Messages: "),
            Plain(1),
            Said(b" sent, "),
            Plain(2),
            Said(b" received, "),
            Plain(3),
            Said(b" more than once, "),
            Plain(4),
            Said(b" never.\n"),
        ],
        TextSection::Group => &[],
        TextSection::Answers => &[Said(b"  "), Plain(0), Rest(1), Said(b"\n")],
        TextSection::Node => &[
            Left(1, 18),
            Right(2, 10),
            Right(3, 13),
            Said(b"  "),
            Left(4, 20),
            Plain(5),
            Said(b"\n"),
        ],
        TextSection::Skew => &[
            Left(1, 18),
            Left(2, 18),
            Right(3, 11),
            Said(b"  "),
            Left(4, 20),
            Plain(5),
            Said(b"\n"),
        ],
        TextSection::Over => &[
            Left(1, 18),
            Right(2, 10),
            Right(4, 13),
            Said(b"  "),
            Left(3, 20),
            Plain(5),
            Said(b"\n"),
        ],
        TextSection::Skipped => &[
            Said(b"Lines or records skipped: "),
            Plain(1),
            Said(b", first at "),
            Line(2),
            Said(b".\n"),
        ],
        TextSection::LeftOut => &[
            Said(b"Records left out, bad by `"),
            Plain(1),
            Said(b"`: "),
            Plain(2),
            Said(b", first at "),
            Line(3),
            Said(b".\n"),
        ],
        TextSection::Unsent => &[
            Said(b"Receives of what no line sends, taken as local events: "),
            Plain(1),
            Said(b".\n"),
        ],
        TextSection::Resent => &[
            Said(b"Sends of a message that was sent before: "),
            Plain(1),
            Said(b".\n"),
        ],
        TextSection::Outside => &[
            Said(b"Receives from outside, of what no line sends: "),
            Plain(1),
            Said(b".\n"),
        ],
        TextSection::Unread => &[Said(b"Events without a reading: "), Plain(1), Said(b".\n")],
        TextSection::Unstamped => &[Said(b"Receives without a stamp: "), Plain(1), Said(b".\n")],
        TextSection::Units => &[
            Said(b"L is about "),
            Plain(1),
            Said(b" times each reading: they look as if they had different units.\n"),
        ],
    }
}

// Adds what is said of a group, with what stands before its rule and after it.
pub(crate) fn put_group(
    text: &mut Vec<u8>,
    row: &ByteRecord,
    before: &[TextPiece],
    after: &[TextPiece],
) -> Result<(), AllocError>
    ensures { OnOk result (text.new.items ≡ text.old.items
        ++ pieces_text (fields_of row.now) (map told_piece before.now ++ group_rule (fields_of row.now) ++ map told_piece after.now)) }
{
    put_pieces(text, row, before)?;
    put_pieces(text, row, group_rule(row))?;
    put_pieces(text, row, after)
}

// The stamps of a cause: what its message carried and what the send claims, or what it claims itself and what that stands after or is asked for.
fn stamps_pieces(rule: &[u8], has_other: bool) -> &'static [TextPiece]
    ensures { map told_piece result.now ≡ stamps_pieces rule.now has_other }
{
    use TextPiece::{Line, Plain, Said};
    if rule == b"carried".as_slice() {
        &[
            Said(b"  carried "),
            Plain(3),
            Said(b"."),
            Plain(4),
            Said(b", not "),
            Plain(6),
            Said(b"."),
            Plain(7),
            Said(b" at "),
            Line(5),
            Said(b"\n"),
        ]
    } else if has_other {
        &[
            Said(b"  claimed "),
            Plain(3),
            Said(b"."),
            Plain(4),
            Said(b", after "),
            Plain(6),
            Said(b"."),
            Plain(7),
            Said(b" at "),
            Line(5),
            Said(b"\n"),
        ]
    } else {
        &[
            Said(b"  claimed "),
            Plain(3),
            Said(b"."),
            Plain(4),
            Said(b", where "),
            Plain(6),
            Said(b"."),
            Plain(7),
            Said(b" is asked\n"),
        ]
    }
}

// Adds one of the first causes of a group.
fn put_place(text: &mut Vec<u8>, row: &ByteRecord) -> Result<(), AllocError>
    ensures { OnOk result (text.new.items ≡ text.old.items ++ pieces_text (fields_of row.now) (place_pieces (fields_of row.now))) }
{
    use TextPiece::{Line, Said};
    put_pieces(text, row, &[Said(b"    "), Line(2)])?;
    let stamps = stamps_pieces(field(row, 1), field(row, 5).len() > 0);
    put_pieces(text, row, stamps)
}

// Adds the line of a group.
fn put_counted(text: &mut Vec<u8>, row: &ByteRecord) -> Result<(), AllocError>
    ensures { OnOk result (text.new.items ≡ text.old.items ++ pieces_text (fields_of row.now) (group_pieces (fields_of row.now))) }
{
    use TextPiece::{Plain, Right, Said};
    put_group(
        text,
        row,
        &[Right(4, 8), Said(b"  "), Plain(1), Said(b": ")],
        &[Said(b"\n")],
    )
}

// Adds the line of a row of a section.
pub(crate) fn put_row(
    text: &mut Vec<u8>,
    section: TextSection,
    row: &ByteRecord,
) -> Result<(), AllocError>
    ensures { OnOk result (text.new.items ≡ text.old.items ++ row_text section (fields_of row.now)) }
{
    match section {
        TextSection::Group if field(row, 0) == b"place".as_slice() => put_place(text, row),
        TextSection::Group => put_counted(text, row),
        other => put_pieces(text, row, row_pieces(other)),
    }
}
