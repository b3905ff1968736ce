ghost use Rattle.std.specs.Prelude.{[], IfOk, List, Some, ℕ};
ghost use Rattle.csv.specs.Records.{fields_of};
ghost use Rattle.hlc_csv.specs.RecordReader.{HasReadTo, ReadsRecord};
ghost use Rattle.hlc_log_text.specs.Question.{FindsQuestion, IsOneIf};

use crate::question::LogQuestion;
use csv::ByteRecord;
use hlc_csv::{FoundRecord, RecordReader};
use std::alloc::{AllocError, Global};
use std::io::Read;

// Reads the next record of a text, if there is one. No read fails, since the text is a slice.
fn read_record<R: Read + Drop>(
    input: &mut RecordReader<R>,
    fields: &mut ByteRecord,
) -> Result<Option<FoundRecord>, AllocError>
    ensures { IfOk result (ReadsRecord R.remaining input.old input.new (fields_of fields.new)) }
{
    match input.read_record(fields) {
        Ok(found) => Ok(found),
        Err(_) => Err(AllocError),
    }
}

// Whether a text, of which nothing is read yet, is one record, which is then in `fields`; what may stand beyond it is read into another record.
fn is_one_record<R: Read + Drop>(
    input: &mut RecordReader<R>,
    fields: &mut ByteRecord,
    beyond: &mut ByteRecord,
) -> Result<bool, AllocError>
    ensures { IfOk result (λ is_one. (text : List ℕ) → HasReadTo R.remaining input.old (Some text) [] [] → IsOneIf text (fields_of fields.new) is_one) }
{
    let Some(found) = read_record(input, fields)? else {
        return Ok(false);
    };
    if found.is_open {
        return Ok(false);
    }
    Ok(read_record(input, beyond)?.is_none())
}

// The question that a text asks, of which nothing is read yet.
fn read_question<R: Read + Drop>(
    alloc: Global,
    input: &mut RecordReader<R>,
    fields: &mut ByteRecord,
    beyond: &mut ByteRecord,
) -> Result<Option<LogQuestion>, AllocError>
    ensures { IfOk result (λ found. (text : List ℕ) → HasReadTo R.remaining input.old (Some text) [] [] → FindsQuestion text found) }
{
    if !is_one_record(input, fields, beyond)? {
        return Ok(None);
    }
    Ok(LogQuestion::parse(alloc, fields)?.ok())
}

/// The question that a text asks, if it is one record that asks one, as an argument of a command line is.
///
/// A byte order mark and blank lines are passed over, as in a log.
pub fn question_of(alloc: Global, text: &[u8]) -> Result<Option<LogQuestion>, AllocError>
    ensures { IfOk result (FindsQuestion text.now) }
{
    let Ok(mut input) = RecordReader::new(alloc, text) else {
        return Err(AllocError);
    };
    let mut fields = ByteRecord::new(alloc);
    let mut beyond = ByteRecord::new(alloc);
    read_question(alloc, &mut input, &mut fields, &mut beyond)
}
