// csv's machine, as a log is read by it: fields stand between commas, and quotation marks are doubled in quoted ones.

ghost use Rattle.std.specs.Prelude.{◌≡◌};
ghost use Rattle.csv.specs.Machine.{in_field, start_field, start_record, step};
ghost use Rattle.csv.specs.Reading.{default_config};
ghost use Rattle.hlc_csv.specs.ParserState.{csv_state, csv_step, is_inside, is_plain, is_quoted};

// Where the machine stands.
#[derive(Clone, Copy)]
pub(crate) enum ParserState {
    // Between records.
    StartRecord,
    // So too, right after the carriage return that ended one.
    AfterCr,
    // Where a field begins.
    StartField,
    // In a field without quotation marks.
    InField,
    // In a field that a quotation mark opened.
    InQuoted,
    // After a quotation mark in such a field.
    AfterQuote,
}

// What a byte does to the record.
#[derive(Clone, Copy)]
pub(crate) enum ParserAction {
    Skip,
    Copy,
    EndField,
    EndRecord,
}

fn step_in_field(byte: u8) -> (ParserState, ParserAction)
    ensures { csv_step result ≡ in_field default_config byte }
{
    if byte == b',' {
        (ParserState::StartField, ParserAction::EndField)
    } else if byte == b'\r' {
        (ParserState::AfterCr, ParserAction::EndRecord)
    } else if byte == b'\n' {
        (ParserState::StartRecord, ParserAction::EndRecord)
    } else {
        (ParserState::InField, ParserAction::Copy)
    }
}

fn step_at_field(byte: u8) -> (ParserState, ParserAction)
    ensures { csv_step result ≡ start_field default_config byte }
{
    if byte == b'"' {
        (ParserState::InQuoted, ParserAction::Skip)
    } else {
        step_in_field(byte)
    }
}

fn step_between(byte: u8) -> (ParserState, ParserAction)
    ensures { csv_step result ≡ start_record default_config byte }
{
    if byte == b'\r' || byte == b'\n' {
        (ParserState::StartRecord, ParserAction::Skip)
    } else {
        step_at_field(byte)
    }
}

impl ParserState {
    // What a byte does.
    pub(crate) fn step(self, byte: u8) -> (ParserState, ParserAction)
        ensures { csv_step result ≡ step default_config (csv_state self) byte }
    {
        match self {
            ParserState::StartRecord => step_between(byte),
            ParserState::AfterCr => step_between(byte),
            ParserState::StartField => step_at_field(byte),
            ParserState::InField => step_in_field(byte),
            ParserState::InQuoted if byte == b'"' => (ParserState::AfterQuote, ParserAction::Skip),
            ParserState::InQuoted => (ParserState::InQuoted, ParserAction::Copy),
            ParserState::AfterQuote if byte == b'"' => (ParserState::InQuoted, ParserAction::Copy),
            ParserState::AfterQuote => step_in_field(byte),
        }
    }

    // Whether a record is under way.
    pub(crate) fn is_inside(self) -> bool
        ensures { result ≡ is_inside self }
    {
        !matches!(self, ParserState::StartRecord | ParserState::AfterCr)
    }

    // Whether the field under way was opened by a quotation mark that isn't closed yet.
    pub(crate) fn is_quoted(self) -> bool
        ensures { result ≡ is_quoted self }
    {
        matches!(self, ParserState::InQuoted)
    }

    // Whether a field without quotation marks is under way, or begins with a byte that is no quotation mark.
    pub(crate) fn is_plain(self) -> bool
        ensures { result ≡ is_plain self }
    {
        matches!(self, ParserState::StartField | ParserState::InField)
    }
}
