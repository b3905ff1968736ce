// The cells of a row.

ghost use Rattle.std.specs.Prelude.{◌≡◌, ◌++◌, OnOk, option_map, string_bytes};
ghost use Rattle.hlc_log_picture.specs.Cells.{ahead_text, ahead_width, cell_text, cell_width, clock_text, fact_text, heading_at, lead_text, verdict_text};

use hlc_causes::Finding;
use hlc_diagram::{
    FirstDigits, digits, first_width, label_width, number_width, put_first, put_label, put_number,
    put_stamp, stamp_width,
};
use hlc_log::LogEvent;
use hlc_verdict::Verdict;
use std::alloc::AllocError;

// What the rows have, and what the forms of dots say.
pub(crate) const LEGEND: &str =
    "A row has the claimed stamp of its event, what the clock read, how far l is ahead of that, the verdict where it isn't \
least, and the label. An unstamped event has the stamp that the rule gives. The first digits that all stamps and readings share stand in the headings. A pill is a least stamp; pointed below: \
behind its clock; a box: not above an event before it; leaning: low; pointed above: ahead; a hexagon: carried. A ring: the clock rule \
was broken there, or the message carried another stamp than its send claims.";

// How many characters of the whole name of a node are told at most, and of a label.
pub(crate) const WHOLE_ROOM: u16 = u16::MAX;

pub(crate) const LABEL_ROOM: u16 = 40;

// The greatest number of characters of a verdict's word.
pub(crate) const VERDICT_WIDTH: u32 = 9;

// How far `l` is ahead of what the clock read, with a minus sign if it is behind.
fn put_ahead(text: &mut String, l: u64, reading: u64) -> Result<(), AllocError>
    ensures { OnOk result (string_bytes text.new ≡ string_bytes text.old ++ ahead_text l reading) }
{
    if l < reading {
        let behind = reading - l;
        write!(text, "-{behind}")
    } else {
        let ahead = l - reading;
        write!(text, "{ahead}")
    }
}

fn ahead_width(l: u64, reading: u64) -> u32
    ensures { result ≡ ahead_width l reading }
{
    if l < reading {
        digits(reading - l) + 1
    } else {
        digits(l - reading)
    }
}

// What the clock read at an event, if that is told.
fn put_clock(text: &mut String, first: FirstDigits, event: LogEvent) -> Result<(), AllocError>
    ensures { OnOk result (string_bytes text.new ≡ string_bytes text.old ++ clock_text first event) }
{
    if event.has_reading {
        put_number(text, event.reading, first)
    } else {
        Ok(())
    }
}

// How far `l` of an event is ahead of what the clock read, if that is told.
fn put_lead(text: &mut String, event: LogEvent) -> Result<(), AllocError>
    ensures { OnOk result (string_bytes text.new ≡ string_bytes text.old ++ lead_text event) }
{
    if event.has_reading {
        put_ahead(text, event.stamp.l, event.reading)
    } else {
        Ok(())
    }
}

// The word of a verdict, unless it is least; or that the log tells no stamp.
fn put_verdict(text: &mut String, found: Option<Finding>) -> Result<(), AllocError>
    ensures { OnOk result (string_bytes text.new ≡ string_bytes text.old ++ verdict_text found) }
{
    text.push_str(match found {
        Some(Finding::Judged(Verdict::Least)) => "",
        Some(Finding::Judged(Verdict::Behind)) => "behind",
        Some(Finding::Judged(Verdict::NotAbove(_))) => "not-above",
        Some(Finding::Judged(Verdict::Low(_))) => "low",
        Some(Finding::Judged(Verdict::Ahead(_))) => "ahead",
        Some(Finding::RolledOver) => "carried",
        None => "unstamped",
    })
}

/// Adds the heading of a column.
pub(crate) fn put_heading(
    text: &mut String,
    first: FirstDigits,
    column: u8,
) -> Result<(), AllocError>
    ensures { OnOk result (string_bytes text.new ≡ string_bytes text.old ++ heading_at first column) }
{
    match column {
        0 => {
            text.push_str("claimed")?;
            put_first(text, first)
        }
        1 => {
            text.push_str("clock")?;
            put_first(text, first)
        }
        2 => text.push_str("ahead"),
        3 => text.push_str("verdict"),
        _ => text.push_str("label"),
    }
}

/// Adds the cell of an event in a column.
pub(crate) fn put_cell(
    text: &mut String,
    first: FirstDigits,
    event: LogEvent,
    found: Option<Finding>,
    label: Option<&[u8]>,
    column: u8,
) -> Result<(), AllocError>
    ensures { OnOk result (string_bytes text.new ≡ string_bytes text.old
        ++ cell_text first event found (option_map (λ label. label.now) label.entry) column) }
{
    match column {
        0 => put_stamp(text, event.stamp, first),
        1 => put_clock(text, first, event),
        2 => put_lead(text, event),
        3 => put_verdict(text, found),
        _ => put_label(text, label.unwrap_or(b""), LABEL_ROOM),
    }
}

/// Adds what the title of its dot tells of a column.
pub(crate) fn put_fact(
    text: &mut String,
    event: LogEvent,
    found: Option<Finding>,
    label: Option<&[u8]>,
    column: u8,
) -> Result<(), AllocError>
    ensures { OnOk result (string_bytes text.new ≡ string_bytes text.old
        ++ fact_text event found (option_map (λ label. label.now) label.entry) column) }
{
    let all = FirstDigits::none();
    put_heading(text, all, column)?;
    text.push_str(": ")?;
    put_cell(text, all, event, found, label, column)
}

/// How many characters it or the heading has, or may have at most.
pub(crate) fn cell_width(
    first: FirstDigits,
    event: LogEvent,
    label: Option<&[u8]>,
    column: u8,
) -> u32
    ensures { result ≡ cell_width first event (option_map (λ label. label.now) label.entry) column }
{
    match column {
        0 => stamp_width(event.stamp, first).max(first_width(first) + 7),
        1 => number_width(event.reading, first).max(first_width(first) + 5),
        2 => ahead_width(event.stamp.l, event.reading),
        3 => VERDICT_WIDTH,
        _ => label_width(label.unwrap_or(b""), LABEL_ROOM),
    }
}
