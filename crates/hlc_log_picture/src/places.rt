// Where the records of events stand.

ghost use Rattle.std.specs.Prelude.{◌≡◌, ◌++◌, OnOk, codes, decimal, string_bytes};
ghost use Rattle.hlc_diagram.specs.Label.{label_text};
ghost use Rattle.hlc_log_text.specs.Files.{location_of};
ghost use Rattle.hlc_log_picture.specs.Drawn.{location_label};

use hlc_diagram::put_label;
use hlc_log_text::Files;
use std::alloc::AllocError;

// How many characters of the name of a file are shown.
pub(crate) const FILE_ROOM: u16 = 24;

// The number of a line in its file.
pub(crate) fn shown_line(files: &Files, line: u32) -> u32
    ensures { result ≡ (location_of files.now line).line }
{
    match files.mark_before(u64::from(line)) {
        Some(mark) => line - mark.line,
        None => line,
    }
}

// The colon after the name of a file, and a number.
fn put_number(text: &mut String, number: u32) -> Result<(), AllocError>
    ensures { OnOk result (string_bytes text.new ≡ string_bytes text.old ++ (codes ":" ++ decimal number)) }
{
    write!(text, ":{number}")
}

// As much of the name of a file as there is room for, and the number of a line in it.
fn put_in_file(text: &mut String, name: &[u8], number: u32) -> Result<(), AllocError>
    ensures { OnOk result (string_bytes text.new ≡ string_bytes text.old ++ (label_text FILE_ROOM name.now ++ (codes ":" ++ decimal number))) }
{
    put_label(text, name, FILE_ROOM)?;
    put_number(text, number)
}

// Adds where a line stands.
pub(crate) fn put_location(text: &mut String, files: &Files, line: u32) -> Result<(), AllocError>
    ensures { OnOk result (string_bytes text.new ≡ string_bytes text.old ++ location_label (location_of files.now line)) }
{
    match files.mark_before(u64::from(line)) {
        Some(mark) => put_in_file(text, &mark.name, line - mark.line),
        None => write!(text, "{line}"),
    }
}
