ghost use Rattle.std.specs.Prelude.{◌≡◌, true};
ghost use Rattle.csv.specs.Reading.{error_kind, is_io};

use csv::Error;

/// Why the reader failed. An error of memory is none of these.
#[derive(Debug, Drop)]
pub struct ReadFault {
    /// What `csv` says of the reader.
    pub error: Error,
    ghost of_reader: { is_io (error_kind error) ≡ true },
}
