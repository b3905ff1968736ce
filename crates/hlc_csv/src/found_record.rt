ghost use Rattle.std.specs.Prelude.{◌≤◌};
ghost use Rattle.hlc_csv.specs.declared.found_record.TheConstants.{LAST_LINE};

/// The last line that is counted.
pub const LAST_LINE: u32 = 4_278_190_079;

/// What is told of a record that was read.
#[derive(Clone, Copy)]
pub struct FoundRecord {
    /// The line on which it begins, from 1: one more than the lines that end before it, or `LAST_LINE` if these are more.
    pub line: u32,
    /// Whether nothing closes its last field, which a quotation mark opened: so it has taken in the rest of the text.
    pub is_open: bool,
    pub ghost counted: { line ≤ LAST_LINE },
}
