// What the title of a dot tells.

ghost use Rattle.std.specs.Prelude.{◌≡◌, ◌++◌, ◌<◌, OnOk, length, string_bytes};
ghost use Rattle.std.specs.List.{flat_map};
ghost use Rattle.hlc_causality.specs.Places.{places_below};
ghost use Rattle.hlc_figures.specs.Figure.{forcing_at};
ghost use Rattle.hlc_figures.specs.Title.{drift_text, fact_text, least_text, own_reason, place_begins, place_text, reason_text, stamp_begins, title_text};

use crate::kept::{forcing, kept, node};
use crate::subject::Subject;
use hlc_stamp::{EventId, Stamp};
use hlc_svg::text::put;
use std::alloc::AllocError;

// How an event is named.
fn put_start<S: Subject>(text: &mut String, subject: &S, event: EventId) -> Result<(), AllocError>
    requires { event.0 < length (S.content subject.now).events }
    ensures { OnOk result (string_bytes text.new ≡ string_bytes text.old ++ place_begins (S.content subject.now) event.0) }
{
    put(text, "<title>event ")?;
    subject.put_event(text, event)?;
    put(text, " at ")
}

// How an event is named, and its node.
fn put_place<S: Subject>(text: &mut String, subject: &S, event: EventId) -> Result<(), AllocError>
    requires { event.0 < length (S.content subject.now).events }
    ensures { OnOk result (string_bytes text.new ≡ string_bytes text.old ++ place_text (S.content subject.now) event.0) }
{
    let node = node(subject, event);
    put_start(text, subject, event)?;
    subject.put_name(text, node)?;
    put(text, "\n")
}

// What is told of a column.
fn put_fact<S: Subject>(
    text: &mut String,
    subject: &S,
    event: EventId,
    column: u8,
) -> Result<(), AllocError>
    requires event { event.0 < length (S.content subject.now).events }
    requires column { column < (S.content subject.now).columns }
    ensures { OnOk result (string_bytes text.new ≡ string_bytes text.old ++ fact_text (S.content subject.now) event.0 column) }
{
    subject.put_fact(text, event, column)?;
    put(text, "\n")
}

// What is told of each column.
fn put_facts<S: Subject>(text: &mut String, subject: &S, event: EventId) -> Result<(), AllocError>
    requires { event.0 < length (S.content subject.now).events }
    ensures { OnOk result (string_bytes text.new ≡ string_bytes text.old
        ++ flat_map (fact_text (S.content subject.now) event.0) (places_below (S.content subject.now).columns)) }
{
    for column in 0..subject.columns() {
        put_fact(text, subject, event, column)?;
    }
    Ok(())
}

// Its least stamp.
fn put_stamp(text: &mut String, stamp: Stamp) -> Result<(), AllocError>
    ensures { OnOk result (string_bytes text.new ≡ string_bytes text.old ++ stamp_begins stamp) }
{
    let (l, c) = (stamp.l, stamp.c);
    write!(text, "least stamp: ({l}, {c}), ")
}

// How far that is ahead of what the clock read. The stamp of an event with another floor than its reading may be behind.
#[tactic(auto, unfolding(crate::specs::Title::drift_text))]
fn put_drift(text: &mut String, l: u64, reading: u64) -> Result<(), AllocError>
    ensures { OnOk result (string_bytes text.new ≡ string_bytes text.old ++ drift_text l reading) }
{
    if l < reading {
        let behind = reading - l;
        write!(text, "{behind} behind the clock, ")
    } else {
        let ahead = l - reading;
        write!(text, "{ahead} ahead of the clock, ")
    }
}

// Its least stamp, and how far that is ahead of the clock.
fn put_least<S: Subject>(text: &mut String, subject: &S, event: EventId) -> Result<(), AllocError>
    requires { event.0 < length (S.content subject.now).events }
    ensures { OnOk result (string_bytes text.new ≡ string_bytes text.old ++ least_text (S.content subject.now) event.0) }
{
    let kept = kept(subject, event);
    put_stamp(text, kept.stamp)?;
    put_drift(text, kept.stamp.l, kept.reading)
}

// Why a stamp is no lower that no event forces: by the clock or, if that was ahead of it, as it is (0, 0).
fn own_reason(l: u64, reading: u64) -> &'static str
    ensures { result.now ≡ own_reason l reading }
{
    if l < reading {
        "as no stamp is lower"
    } else {
        "by its own clock"
    }
}

// Why that is no lower.
fn put_reason<S: Subject>(text: &mut String, subject: &S, event: EventId) -> Result<(), AllocError>
    requires { event.0 < length (S.content subject.now).events }
    ensures { OnOk result (string_bytes text.new ≡ string_bytes text.old
        ++ reason_text (S.content subject.now) event.0 (forcing_at (S.content subject.now) event.0)) }
{
    match forcing(subject, event) {
        Some(before) => {
            put(text, "forced by event ")?;
            subject.put_event(text, before)
        }
        None => {
            let kept = kept(subject, event);
            text.push_str(own_reason(kept.stamp.l, kept.reading))
        }
    }
}

/// Adds the title of an event's dot.
pub fn put_title<S: Subject>(
    text: &mut String,
    subject: &S,
    event: EventId,
) -> Result<(), AllocError>
    requires { event.0 < length (S.content subject.now).events }
    ensures { OnOk result (string_bytes text.new ≡ string_bytes text.old ++ title_text (S.content subject.now) event.0) }
{
    put_place(text, subject, event)?;
    put_facts(text, subject, event)?;
    put_least(text, subject, event)?;
    put_reason(text, subject, event)?;
    put(text, "</title>")
}
