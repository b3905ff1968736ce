ghost use Rattle.std.specs.Prelude.{drop};
ghost use Rattle.csv.specs.Records.{fields_of};
ghost use Rattle.hlc_csv.specs.NumberList.{FindsNumbers};

use crate::records::field;
use csv::ByteRecord;
use std::alloc::{AllocError, Global};

/// The numbers that the fields from a place on write, as `read` reads each of them, if it finds one in every field.
///
/// Few records list numbers, and the others don't pay for this.
#[inline(never)]
pub fn read_numbers<N: Drop, F: Fn(&[u8]) -> Option<N>>(
    alloc: Global,
    fields: &ByteRecord,
    start: usize,
    read: F,
) -> Result<Option<Vec<N>>, AllocError>
    requires { F.IsAlwaysCallable read }
    ensures { FindsNumbers F.Fn read (drop start (fields_of fields.now)) result }
{
    let mut numbers = Vec::new(alloc);
    for place in start..fields.len() {
        let Some(number) = read(field(fields, place)) else {
            return Ok(None);
        };
        numbers.push(number)?;
    }
    Ok(Some(numbers))
}
