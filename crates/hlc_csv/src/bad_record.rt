/// Why a record is no statement of a script, or no claim of a trace.
#[derive(Clone, Copy)]
pub enum BadRecord {
    /// Its first field is no word of a script, or of a trace.
    Word,
    /// It has too few or too many fields for its word.
    Fields,
    /// A field that is to be a number is none.
    Number,
}

impl BadRecord {
    ghost use Rattle.std.specs.Prelude.{◌≡◌};
    ghost use Rattle.hlc_csv.specs.BadRecord.{bad_record_word};

    /// The word of the row that answers it.
    pub fn word(self) -> &'static [u8]
        ensures { result.now ≡ bad_record_word self }
    {
        match self {
            BadRecord::Word => b"word",
            BadRecord::Fields => b"fields",
            BadRecord::Number => b"number",
        }
    }
}
