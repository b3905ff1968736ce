// The events of lines, and the lines of events.

ghost use Rattle.std.specs.Prelude.{◌≡◌, ◌<◌, ℕ, ◌++◌, IfNone, IfOk, IfSome, OnOk, length, map, option_map};
ghost use Rattle.hlc_stamp.specs.Ids.{places_of};
ghost use Rattle.hlc_causality.specs.Neighbours.{place_of};
ghost use Rattle.hlc_ordered_log.specs.InOrder.{IsInOrder, line_in};
ghost use Rattle.hlc_csv.specs.Rows.{row_field_bytes};
ghost use Rattle.hlc_log_text.specs.Files.{line_text};
ghost use Rattle.hlc_log_text.specs.ReadText.{LinesRise};
ghost use Rattle.hlc_log_audit.specs.Answers.{position_at, position_or_end, told_in};
ghost use Rattle.hlc_log_audit.specs.Lines.{AreEventsIn, HasNumbers, IsOnLine, position_on};

use hlc_csv::RowField;
use hlc_log_text::{Files, LineText, Location};
use hlc_ordered_log::OrderedLog;
use hlc_stamp::EventId;
use std::alloc::{AllocError, Global};

// An event of a log.
#[derive(Clone, Copy)]
pub(crate) struct Found {
    // Its place in the log.
    pub(crate) place: EventId,
    // Its position in the causal order.
    pub(crate) position: EventId,
}

// The place of the event whose record begins on a line, if there is one.
fn place_on(log: &OrderedLog, line: u64) -> Option<EventId>
    requires { LinesRise log.now.events }
    ensures ordered { IsInOrder log.now }
    ensures found { IfSome result (λ place. IsOnLine log.now.events line place.0) }
    ensures none { IfNone result ((e : ℕ) → ¬ IsOnLine log.now.events line e) }
{
    let mut low = 0;
    let mut high = log.len();
    while low < high {
        let middle = low + (high - low) / 2;
        let here = u64::from(log.at(EventId(middle)).line);
        if here == line {
            return Some(EventId(middle));
        }
        if here < line {
            low = middle + 1;
        } else {
            high = middle;
        }
    }
    None
}

// The event of a line, if there is one.
pub(crate) fn find(log: &OrderedLog, line: u64) -> Option<Found>
    requires { LinesRise log.now.events }
    ensures ordered { IsInOrder log.now }
    ensures position { option_map (λ found. found.position.0) result ≡ position_on log.now line }
    ensures numbers { IfSome result (λ found. HasNumbers log.now found.place.0 found.position.0) }
{
    match place_on(log, line) {
        Some(place) => {
            let position = log.position(place);
            Some(Found { place, position })
        }
        None => None,
    }
}

// The position of the event of a line, if there is one.
fn position_on(log: &OrderedLog, line: u64) -> Option<EventId>
    requires { LinesRise log.now.events }
    ensures position { place_of result ≡ position_on log.now line }
    ensures exists { IfSome result (λ k. k.0 < length log.now.events) }
{
    match find(log, line) {
        Some(found) => Some(found.position),
        None => None,
    }
}

// The position of the event of a location, if the log has it.
pub(crate) fn position_at(files: &Files, log: &OrderedLog, location: &Location) -> Option<EventId>
    requires { LinesRise log.now.events }
    ensures position { place_of result ≡ position_at files.now log.now location.now }
    ensures exists { IfSome result (λ k. k.0 < length log.now.events) }
{
    match files.line_at(location) {
        Some(line) => position_on(log, line),
        None => None,
    }
}

// The position of the event of a location, or the end of the log if it doesn't have it.
pub(crate) fn position_or_end(files: &Files, log: &OrderedLog, location: &Location) -> EventId
    requires { LinesRise log.now.events }
    ensures { result.0 ≡ position_or_end files.now log.now location.now }
{
    match position_at(files, log, location) {
        Some(position) => position,
        None => EventId(log.len()),
    }
}

// The same of some locations.
pub(crate) fn positions_or_end(
    alloc: Global,
    files: &Files,
    log: &OrderedLog,
    locations: &[Location],
) -> Result<Vec<EventId>, AllocError>
    requires { LinesRise log.now.events }
    ensures { IfOk result (λ events. places_of events.items ≡ map (position_or_end files.now log.now) locations.now) }
{
    let mut events = Vec::new(alloc);
    for location in locations {
        events.push(position_or_end(files, log, location))?;
    }
    Ok(events)
}

// The lines of events.
pub(crate) fn lines_of(
    alloc: Global,
    log: &OrderedLog,
    events: &[EventId],
) -> Result<Vec<u64>, AllocError>
    requires { AreEventsIn log.now (places_of events.now) }
    ensures { IfOk result (λ lines. lines.items ≡ map (line_in log.now) (places_of events.now)) }
{
    let mut lines = Vec::new(alloc);
    for event in events {
        lines.push(u64::from(log.event(*event).line))?;
    }
    Ok(lines)
}

// How the line of the event at a position is told.
pub(crate) fn told_line(
    files: &Files,
    log: &OrderedLog,
    event: EventId,
) -> Result<LineText, AllocError>
    requires { event.0 < length log.now.events }
    ensures { IfOk result (λ text. text ≡ told_in files.now log.now event.0) }
{
    LineText::new(files, u64::from(log.event(event).line))
}

// How lines are told, one after another.
pub(crate) fn line_texts(
    alloc: Global,
    files: &Files,
    lines: &[u64],
) -> Result<Vec<LineText>, AllocError>
    ensures { IfOk result (λ texts. texts.items ≡ map (line_text files.now) lines.now) }
{
    let mut texts = Vec::new(alloc);
    for line in lines {
        texts.push(LineText::new(files, *line)?)?;
    }
    Ok(texts)
}

// Adds what tells lines to the fields of a row.
pub(crate) fn push_texts<'a>(
    fields: &mut Vec<RowField<'a>>,
    texts: &'a [LineText],
) -> Result<(), AllocError>
    ensures { OnOk result (map row_field_bytes fields.new.items ≡ map row_field_bytes fields.old.items ++ texts.now) }
{
    for text in texts {
        fields.push(text.field())?;
    }
    Ok(())
}
