//! The law of what JSON lines make: the contract of a function that does nothing.

ghost use Rattle.hlc_json_lines.specs.Laws.{LinesReadAsRows};

/// The records of the text that JSON lines make are the rows of the lines that aren't blank, one for each, in their order.
pub fn lines_read_as_rows()
    ensures { LinesReadAsRows }
{}
