// The picture of a chain alone.

ghost use Rattle.std.specs.Prelude.{◌≡◌, ◌<◌, ◌≤◌, All, IfOk, IsErrOf, OnOk, Some, length};
ghost use Rattle.std.specs.Io.KnownBytes.{Appends};
ghost use Rattle.hlc_causality.specs.Feasible.{IsLeastFeasible};
ghost use Rattle.hlc_stamp.specs.Ids.{places_of};
ghost use Rattle.hlc_diagram.specs.ChainPicture.{chain_picture_of, chain_view, first_or, frame_around};
ghost use Rattle.hlc_diagram.specs.Picture.{picture_text};
ghost use Rattle.hlc_figures.specs.ChainRows.{rows_of};
ghost use Rattle.hlc_figures.specs.Chosen.{IsMissing};
ghost use Rattle.hlc_figures.specs.Columns.{AreColumnsOf};
ghost use Rattle.hlc_figures.specs.Content.{clock_events_of};
ghost use Rattle.hlc_figures.specs.Lanes.{lanes_of};

use crate::draw_fault::DrawFault;
use crate::drawing::draw_scene;
use crate::layout::{Layout, lay_out};
use crate::marks::marked_chain;
use crate::view::View;
use hlc_figures::chain_rows::chain_rows;
use hlc_figures::kept::count;
use hlc_figures::lanes::lanes_at;
use hlc_figures::rows::{Row, Rows};
use hlc_figures::scene::Scene;
use hlc_figures::subject::Subject;
use hlc_stamp::EventId;
use hlc_svg::frame::{FIRST_ROW, ROW};
use std::alloc::{AllocError, Global};
use std::io::Write;

// How many rows a chain has.
fn count_rows<S: Subject>(subject: &S, rows: &[Row]) -> u32
    requires { length rows.now ≤ length (S.content subject.now).events }
    ensures { result ≡ length rows.now }
{
    let _count = count(subject);
    rows.len() as u32
}

// The first event of a chain, or one that isn't there.
fn first_or(event: EventId, list: &[EventId]) -> EventId
    ensures { result ≡ first_or event (places_of list.now) }
{
    match list {
        [first, ..] => *first,
        [] => event,
    }
}

// The view of all events from the first of a chain to its last one.
fn chain_view(event: EventId, list: &[EventId]) -> View
    ensures { result ≡ chain_view event (places_of list.now) }
{
    View {
        first: first_or(event, list),
        last: event,
        explained: Some(event),
    }
}

// Where everything stands in the picture of a chain.
fn lay_out_chain<S: Subject>(
    alloc: Global,
    subject: &S,
    event: EventId,
    list: &[EventId],
    rows: u32,
) -> Result<Layout, AllocError>
    requires exist { All (λ e. e < length (S.content subject.now).events) (places_of list.now) }
    requires rows { rows ≡ length (rows_of (places_of list.now)) }
    ensures frame { IfOk result (λ layout. layout.frame ≡ frame_around (S.content subject.now) event (places_of list.now)) }
    ensures lanes { IfOk result (λ layout. layout.lanes ≡ lanes_of (S.content subject.now) (places_of list.now)) }
    ensures columns { IfOk result (λ layout. AreColumnsOf (S.content subject.now) layout.frame layout.columns.items) }
{
    let lanes = lanes_at(alloc, subject, list)?;
    let mut layout = lay_out(alloc, subject, chain_view(event, list), lanes)?;
    layout.frame.height = FIRST_ROW + ROW * u64::from(rows);
    Ok(layout)
}

/// Draws the chain that forces the stamp of an event, and nothing else: a row for each of its events, and between two that aren't
/// next to one another one that says how many lie there.
///
/// It takes memory linear in the rows, and time linear in the events from the first of the chain to the last. After a fault of the
/// writer or of memory nothing is promised of what the writer got.
pub fn draw_chain<S: Subject, W: Write>(
    alloc: Global,
    subject: &S,
    event: EventId,
    writer: &mut W,
) -> Result<(), DrawFault>
    requires { IsLeastFeasible (clock_events_of (S.content subject.now)) (S.content subject.now).stamps }

    // What the writer got is the picture.
    ensures drawn { OnOk result (Appends (W.contents writer.old) (W.contents writer.new)
        (picture_text (chain_picture_of (S.content subject.now) event))) }

    // The same holds if there is no such event: the picture says so.
    ensures drawn_without { IsErrOf result DrawFault.NoEvent → Appends (W.contents writer.old) (W.contents writer.new)
        (picture_text (chain_picture_of (S.content subject.now) event)) }
    ensures no_event { IsErrOf result DrawFault.NoEvent → IsMissing (S.content subject.now).events (Some event) }
    ensures event { OnOk result (¬ IsMissing (S.content subject.now).events (Some event)) }
{
    let list = marked_chain(alloc, subject, Some(event))?;
    let rows = chain_rows(alloc, &list)?;
    let layout = lay_out_chain(alloc, subject, event, &list, count_rows(subject, &rows))?;
    let scene = Scene {
        frame: layout.frame,
        lanes: &layout.lanes,
        rows: &Rows::Chain(rows),
        explained: Some(event),
        marks: &[],
        next: None,
        columns: &layout.columns,
    };
    draw_scene(alloc, subject, &scene, &list, &[], writer)
}
