ghost use Rattle.std.specs.Prelude.{◌≡◌, [], IfOk};
ghost use Rattle.csv.specs.Records.{fields_of};
ghost use Rattle.hlc_csv.specs.Records.{HasRead, IsScript, ReadsNext};
ghost use Rattle.hlc_csv.specs.Retrying.{retrying_remaining};
ghost use Rattle.hlc_csv.specs.Rows.{field_of};

use crate::end::End;
use crate::read_fault::ReadFault;
use crate::retrying_reader::RetryingReader;
use csv::{ByteRecord, Reader, ReaderBuilder};
use std::alloc::{AllocError, Global};
use std::io::Read;

/// A reader of the records of a script or a trace. A read that a signal interrupts is tried again.
pub fn script_reader<R: Read>(alloc: Global, reader: R) -> Reader<RetryingReader<R>>
    ensures script { IsScript result }
    ensures start { HasRead (retrying_remaining R.remaining) result (R.remaining reader) [] }
{
    ReaderBuilder::new()
        .has_headers(false)
        .flexible(true)
        .from_reader(alloc, RetryingReader::new(reader))
}

/// Reads the next record into `fields`, or tells why there is none, which is never `End::PastLimit`: a caller counts the records.
///
/// After out of memory nothing is promised of the reader.
#[inline(always)]
pub fn read_next<R: Read>(
    input: &mut Reader<R>,
    fields: &mut ByteRecord,
) -> Result<Option<End>, AllocError>
    requires { IsScript input.old }
    ensures { IfOk result (ReadsNext R.remaining input.old input.new (fields_of fields.new)) }
{
    match input.read_byte_record(fields) {
        Ok(true) => Ok(None),
        Ok(false) => Ok(Some(End::NoRecordLeft)),
        Err(error) if error.is_io_error() => Ok(Some(End::ReadFailed(ReadFault { error }))),
        Err(_) => Err(AllocError),
    }
}

/// The field at a place, which is empty if there is none.
#[inline]
pub fn field(fields: &ByteRecord, place: usize) -> &[u8]
    ensures { result.now ≡ field_of (fields_of fields.now) place }
{
    fields.get(place).unwrap_or(&[])
}
