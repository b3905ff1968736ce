// What a picture says of itself.

ghost use Rattle.std.specs.Prelude.{◌≡◌, ◌++◌, ◌<◌, ◌≤◌, IfOk, OnOk, Some, length, string_bytes};
ghost use Rattle.hlc_stamp.specs.Ids.{places_of};
ghost use Rattle.hlc_figures.specs.Chosen.{chosen};
ghost use Rattle.hlc_figures.specs.Content.{clock_events_of};
ghost use Rattle.hlc_figures.specs.Head.{caption_of, chain_note, drawn_text, length_text, missing_text, note_of, range_of, range_text};

use crate::kept::count;
use crate::subject::Subject;
use hlc_stamp::EventId;
use hlc_svg::frame::Frame;
use hlc_svg::text::put;
use std::alloc::{AllocError, Global};
use std::fmt;

/// What is drawn, from first to last: events by their numbers, or rows, which are counted from 1.
#[derive(Clone, Copy)]
pub enum Range {
    NoEvent,
    Events { first: u32, last: u32 },
    Rows { first: u32, last: u32 },
}

impl fmt::Display for Range {
    ghost output = { λ range. Some (range_text range) };

    fn fmt<W: fmt::Write>(&self, f: &mut fmt::Formatter<W>) -> fmt::Result {
        match *self {
            Range::NoEvent => f.write_str("No event"),
            Range::Events { first, last } => write!(f, "Events {first} to {last}"),
            Range::Rows { first, last } => write!(f, "Rows {first} to {last}"),
        }
    }
}

// Which events are drawn.
fn drawn_range<S: Subject>(subject: &S, frame: Frame) -> Range
    requires { frame.end ≤ length (S.content subject.now).events }
    ensures { result ≡ range_of (S.content subject.now) frame }
{
    if frame.first >= frame.end {
        Range::NoEvent
    } else if subject.is_in_order() {
        Range::Events {
            first: subject.number(EventId(frame.first)),
            last: subject.number(EventId(frame.end - 1)),
        }
    } else {
        Range::Rows {
            first: frame.first + 1,
            last: frame.end,
        }
    }
}

// Which events are drawn, and of how many.
fn put_drawn(text: &mut String, range: Range, total: u32) -> Result<(), AllocError>
    ensures { OnOk result (string_bytes text.new ≡ string_bytes text.old ++ drawn_text range total) }
{
    write!(text, "{range} of {total}.")
}

// That there is no such event.
fn put_missing(text: &mut String, event: EventId) -> Result<(), AllocError>
    ensures { OnOk result (string_bytes text.new ≡ string_bytes text.old ++ missing_text event) }
{
    let number = event.0;
    write!(text, " There is no event {number}.")
}

// How long the marked chain is.
fn put_length(text: &mut String, len: usize) -> Result<(), AllocError>
    ensures { OnOk result (string_bytes text.new ≡ string_bytes text.old ++ length_text len) }
{
    write!(text, " on, length {len}.")
}

// That the chain of an event is marked, where it begins, and how long it is.
fn put_chain<S: Subject>(
    text: &mut String,
    subject: &S,
    event: EventId,
    origin: EventId,
    len: usize,
) -> Result<(), AllocError>
    requires event { event.0 < length (S.content subject.now).events }
    requires origin { origin.0 < length (S.content subject.now).events }
    ensures { OnOk result (string_bytes text.new ≡ string_bytes text.old ++ chain_note (S.content subject.now) event.0 origin.0 len) }
{
    put(text, " Marked: the chain of event ")?;
    subject.put_event(text, event)?;
    put(text, ", from event ")?;
    subject.put_event(text, origin)?;
    put_length(text, len)
}

// What is explained, by its chain.
#[tactic(auto, using(crate::proofs::Links::explained_exists))]
fn put_note<S: Subject>(
    text: &mut String,
    subject: &S,
    explained: Option<EventId>,
    list: &[EventId],
) -> Result<(), AllocError>
    requires { places_of list.now ≡ chosen (clock_events_of (S.content subject.now)) (S.content subject.now).stamps explained }
    ensures { OnOk result (string_bytes text.new ≡ string_bytes text.old ++ note_of (S.content subject.now) explained) }
{
    let Some(event) = explained else {
        return Ok(());
    };
    match list {
        [origin, ..] => put_chain(text, subject, event, *origin, list.len()),
        [] => put_missing(text, event),
    }
}

/// The caption of a picture in which this chain is marked: which events are drawn, of how many, and what is explained.
pub fn caption_for<S: Subject>(
    alloc: Global,
    subject: &S,
    frame: Frame,
    explained: Option<EventId>,
    list: &[EventId],
) -> Result<String, AllocError>
    requires exist { frame.end ≤ length (S.content subject.now).events }
    requires list { places_of list.now ≡ chosen (clock_events_of (S.content subject.now)) (S.content subject.now).stamps explained }
    ensures { IfOk result (λ caption. string_bytes caption ≡ caption_of (S.content subject.now) explained frame) }
{
    let mut text = String::new(alloc);
    put_drawn(&mut text, drawn_range(subject, frame), count(subject))?;
    put_note(&mut text, subject, explained, list)?;
    Ok(text)
}
