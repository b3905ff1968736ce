ghost use Rattle.std.specs.Prelude.{◌≡◌};
ghost use Rattle.csv.specs.Records.{fields_of};
ghost use Rattle.hlc_log_text.specs.LogItem.{begins_as_skip};

use csv::ByteRecord;
use hlc_csv::field;

/// How many records were left out of a log, one at least.
#[derive(Clone, Copy)]
pub struct Skipped {
    /// How many there were.
    pub count: u32,
    /// The line on which the first of them begins, from 1.
    pub line: u32,
}

impl Skipped {
    ghost use Rattle.std.specs.Prelude.{◌≡◌, ◌<◌, ◌-◌, ◌^◌};
    ghost use Rattle.hlc_log_text.specs.Skipped.{skipped_count, with_skip};

    // Those that were left out with one more, on this line.
    pub(crate) fn with(skipped: Option<Skipped>, line: u32) -> Skipped
        requires { skipped_count skipped < 2 ^ 32 - 1 }
        ensures { result ≡ with_skip skipped line }
    {
        match skipped {
            Some(skipped) => Skipped {
                count: skipped.count + 1,
                line: skipped.line,
            },
            None => Skipped { count: 1, line },
        }
    }
}

// Whether a record begins with the word of those that were left out.
pub(crate) fn begins_as_skip(fields: &ByteRecord) -> bool
    ensures { result ≡ begins_as_skip (fields_of fields.now) }
{
    field(fields, 0) == b"skipped".as_slice()
}
