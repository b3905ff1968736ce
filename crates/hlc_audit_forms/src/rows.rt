ghost use Rattle.std.specs.Prelude.{◌≡◌, [], ℕ, IfOk, List, OnOk, Some, map};
ghost use Rattle.csv.specs.Records.{fields_of};
ghost use Rattle.hlc_csv.specs.RecordReader.{HasReadTo, ReadsRecord};
ghost use Rattle.hlc_csv.specs.Records.{AreAllOf};
ghost use Rattle.hlc_audit_forms.specs.ToldRows.{AreRowsOf};

use csv::ByteRecord;
use hlc_csv::{FoundRecord, RecordReader};
use std::alloc::{AllocError, Global};
use std::io::Read;

// Reads the next row of a text, if there is one. No read fails, since the text is a slice.
fn read_row<R: Read + Drop>(
    input: &mut RecordReader<R>,
    fields: &mut ByteRecord,
) -> Result<Option<FoundRecord>, AllocError>
    ensures { IfOk result (ReadsRecord R.remaining input.old input.new (fields_of fields.new)) }
{
    match input.read_record(fields) {
        Ok(found) => Ok(found),
        Err(_) => Err(AllocError),
    }
}

// Reads all rows of a text, of which nothing is read yet.
fn read_all<R: Read + Drop>(
    alloc: Global,
    input: &mut RecordReader<R>,
    rows: &mut Vec<ByteRecord>,
) -> Result<(), AllocError>
    requires { rows.old.items ≡ [] }
    ensures { OnOk result ((text : List ℕ) → HasReadTo R.remaining input.old (Some text) [] [] → AreAllOf (Some text) (map fields_of rows.new.items)) }
{
    // Every loop has to end, and this one would after 2^64 rows.
    for _row in 0..u64::MAX {
        let mut fields = ByteRecord::new(alloc);
        let Some(found) = read_row(input, &mut fields)? else {
            return Ok(());
        };
        rows.push(fields)?;
        if found.is_open {
            return Ok(());
        }
    }
    Err(AllocError)
}

// The rows of a text, in order, each with the fields that it has. All are kept.
pub(crate) fn told_rows(alloc: Global, text: &[u8]) -> Result<Vec<ByteRecord>, AllocError>
    ensures { IfOk result (λ rows. AreRowsOf text.now (map fields_of rows.items)) }
{
    let Ok(mut input) = RecordReader::new(alloc, text) else {
        return Err(AllocError);
    };
    let mut rows = Vec::new(alloc);
    read_all(alloc, &mut input, &mut rows)?;
    Ok(rows)
}
