// A caller of `hlc_csv`.

ghost use Rattle.std.specs.Prelude.{◌≡◌, ◌∷◌, [], IfErr, IfOk};
ghost use Rattle.hlc_csv.specs.Number.{number_of};
ghost use Rattle.hlc_csv.specs.Records.{BeginsWith, EndsAt};
ghost use Rattle.hlc_csv.specs.Rows.{Fields, field_of};

use csv::ByteRecord;
use hlc_csv::{End, field, number, read_next, script_reader};
use std::alloc::{AllocError, Global};
use std::io::Read;

/// The number that the first field of a text's first record writes, if it writes one, or why there is no record.
#[tactic(auto, using(crate::proofs::FirstRecords::first_begins, crate::proofs::FirstRecords::first_ends))]
pub fn first_number<R: Read + Drop>(
    alloc: Global,
    reader: R,
) -> Result<Result<Option<u64>, End>, AllocError>
    ensures number { IfOk result (λ read. IfOk read (λ found. (fields : Fields)
        × BeginsWith (R.remaining reader) (fields ∷ []) × (found ≡ number_of (field_of fields 0)))) }
    ensures end { IfOk result (λ read. IfErr read (EndsAt 1 (R.remaining reader) [])) }
{
    let mut input = script_reader(alloc, reader);
    let mut fields = ByteRecord::new(alloc);
    match read_next(&mut input, &mut fields)? {
        None => Ok(Ok(number(field(&fields, 0)))),
        Some(end) => Ok(Err(end)),
    }
}
