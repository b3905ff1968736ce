// One turn over the bytes that a reader has ready.

ghost use Rattle.std.specs.Prelude.{◌≡◌, [], IfOk, OnOk};
ghost use Rattle.csv.specs.Records.{fields_of, partial_of};
ghost use Rattle.hlc_csv.specs.Turn.{Turns};

use crate::record_fault::RecordFault;
use crate::record_parser::RecordParser;
use csv::ByteRecord;
use std::io::BufRead;

// What the bytes came to.
#[derive(Clone, Copy)]
pub(crate) enum Turn {
    // Up to the end of a record.
    Record,
    // To the end of those that were ready, in a record or between two.
    More,
    // No byte is left.
    End,
}

// Takes the bytes that are ready up to the end of a record, or all of them.
pub(crate) fn take_turn<B: BufRead>(
    input: &mut B,
    parser: &mut RecordParser,
    fields: &mut ByteRecord,
) -> Result<Turn, RecordFault>
    requires { partial_of fields.old ≡ [] }
    ensures turn { IfOk result (Turns parser.old parser.new (fields_of fields.old) (fields_of fields.new) (B.remaining input.old) (B.remaining input.new)) }
    ensures none_partial { OnOk result (partial_of fields.new ≡ []) }
{
    let bytes = match input.fill_buf() {
        Ok(bytes) => bytes,
        Err(error) => return Err(RecordFault::of(&error)),
    };
    if bytes.is_empty() {
        return Ok(Turn::End);
    }
    match parser.take(bytes, fields)? {
        Some(used) => {
            input.consume(used);
            Ok(Turn::Record)
        }
        None => {
            let used = bytes.len();
            input.consume(used);
            Ok(Turn::More)
        }
    }
}
