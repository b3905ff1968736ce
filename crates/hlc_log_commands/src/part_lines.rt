// What of a log is drawn, by lines that are counted over all its files.

ghost use Rattle.std.specs.Prelude.{◌≡◌, option_map};
ghost use Rattle.hlc_log_commands.specs.PartLines.{line_in, part_in, rows_in};

use hlc_command_line::{DrawnPart, DrawnRows, LogLine};
use hlc_log_text::Files;

// The line that is named, or 0, on which no record begins, if the log doesn't have it.
fn line_in(files: &Files, line: &LogLine) -> u64
    ensures { result ≡ line_in files.now line.now }
{
    match line {
        LogLine::Located(location) => files.line_at(location).unwrap_or(0),
        LogLine::Counted(number) => u64::from(*number),
    }
}

// The same if a line is named.
fn optional_line_in(files: &Files, line: &Option<LogLine>) -> Option<u64>
    ensures { result ≡ option_map (line_in files.now) line.now }
{
    match line {
        Some(line) => Some(line_in(files, line)),
        None => None,
    }
}

// The rows, by such lines.
fn rows_in(files: &Files, rows: &DrawnRows<LogLine>) -> DrawnRows<u64>
    ensures { result ≡ rows_in files.now rows.now }
{
    match rows {
        DrawnRows::Between { from, to } => DrawnRows::Between {
            from: optional_line_in(files, from),
            to: optional_line_in(files, to),
        },
        DrawnRows::Around { event, rows } => DrawnRows::Around {
            event: line_in(files, event),
            rows: *rows,
        },
    }
}

// What is drawn, by such lines.
pub(crate) fn part_in(files: &Files, part: &DrawnPart<LogLine>) -> DrawnPart<u64>
    ensures { result ≡ part_in files.now part.now }
{
    match part {
        DrawnPart::Rows { rows, explained } => DrawnPart::Rows {
            rows: rows_in(files, rows),
            explained: optional_line_in(files, explained),
        },
        DrawnPart::Chain { event } => DrawnPart::Chain {
            event: line_in(files, event),
        },
    }
}
