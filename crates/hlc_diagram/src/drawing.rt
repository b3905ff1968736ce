// The whole picture.

ghost use Rattle.std.specs.Prelude.{◌≡◌, ◌++◌, ◌<◌, ◌↔◌, All, IfErr, IsErrOf, IsTrue, OnOk, codes, string_bytes};
ghost use Rattle.std.specs.Io.KnownBytes.{Appends};
ghost use Rattle.std.specs.List.{flat_map};
ghost use Rattle.hlc_causality.specs.Feasible.{IsLeastFeasible};
ghost use Rattle.hlc_stamp.specs.Ids.{places_of};
ghost use Rattle.hlc_figures.specs.Chosen.{IsMissing, chosen};
ghost use Rattle.hlc_figures.specs.Content.{clock_events_of};
ghost use Rattle.hlc_diagram.specs.Fault.{IsOfOutput};
ghost use Rattle.hlc_figures.specs.Head.{caption_of};
ghost use Rattle.hlc_diagram.specs.Picture.{GrowsBy, KeepsText, drawn_scene, picture_of, picture_text, picture_with};
ghost use Rattle.hlc_figures.specs.DrawnRow.{drawn_in, layer_text};
ghost use Rattle.hlc_figures.specs.FigureText.{named_lane_of, named_lane_text};
ghost use Rattle.hlc_figures.specs.Rows.{rows_in};
ghost use Rattle.hlc_figures.specs.Scene.{IsScene};

use crate::cross::draw_crosses;
use crate::draw_fault::DrawFault;
use crate::failed::{Failed, failed_messages};
use crate::layout::{lanes_in, lay_out};
use crate::marks::{first_past, marked_chain, marks};
use crate::undelivered::Undelivered;
use crate::view::View;
use hlc_execution::Execution;
use hlc_figures::caption::caption_for;
use hlc_figures::figure_text::put_lane;
use hlc_figures::head::put_head;
use hlc_figures::layer::{Layer, put_layer};
use hlc_figures::rows::Rows;
use hlc_figures::scene::Scene;
use hlc_figures::subject::Subject;
use hlc_stamp::EventId;
use hlc_svg::frame::LaneId;
use std::alloc::{AllocError, Global};
use std::io::Write;

// How many bytes are gathered before they are handed to the writer.
const BATCH: usize = 65_536;

// The end of the picture.
fn put_foot(text: &mut String) -> Result<(), AllocError>
    ensures { OnOk result (string_bytes text.new ≡ string_bytes text.old ++ codes "</svg>\n") }
{
    text.push_str("</svg>\n")
}

// Hands text to the writer.
fn hand_over<W: Write>(text: &mut String, writer: &mut W) -> Result<(), DrawFault>
    ensures kept { OnOk result (KeepsText (W.contents writer.old) (W.contents writer.new) (string_bytes text.old) (string_bytes text.new)) }
    ensures all { OnOk result (Appends (W.contents writer.old) (W.contents writer.new) (string_bytes text.old)) }
    ensures fault { IfErr result IsOfOutput }
{
    if writer.write_all(text.as_bytes()).is_err() {
        return Err(DrawFault::Write);
    }
    text.clear();
    Ok(())
}

// Hands text to the writer if there is a batch of it.
pub(crate) fn spill<W: Write>(text: &mut String, writer: &mut W) -> Result<(), DrawFault>
    ensures kept { OnOk result (KeepsText (W.contents writer.old) (W.contents writer.new) (string_bytes text.old) (string_bytes text.new)) }
    ensures fault { IfErr result IsOfOutput }
{
    if text.len() < BATCH {
        return Ok(());
    }
    hand_over(text, writer)
}

fn draw_lanes<S: Subject, W: Write>(
    text: &mut String,
    subject: &S,
    scene: &Scene<'_>,
    writer: &mut W,
) -> Result<(), DrawFault>
    requires { All (λ node. node < (S.content subject.now).nodes) scene.now.lanes.now }
    ensures text { OnOk result (GrowsBy (W.contents writer.old) (W.contents writer.new) (string_bytes text.old) (string_bytes text.new)
        (flat_map (λ node. named_lane_text (named_lane_of (S.content subject.now) scene.now.frame scene.now.lanes.now node)) scene.now.lanes.now)) }
    ensures fault { IfErr result IsOfOutput }
{
    for place in 0..scene.lanes.len() {
        let node = scene.lanes.node(LaneId(place));
        put_lane(text, subject, scene.frame, scene.lanes, node)?;
        spill(text, writer)?;
    }
    Ok(())
}

fn draw_layer<S: Subject, W: Write>(
    text: &mut String,
    layer: Layer,
    subject: &S,
    scene: &Scene<'_>,
    writer: &mut W,
) -> Result<(), DrawFault>
    requires { IsScene (S.content subject.now) scene.now }
    ensures text { OnOk result (GrowsBy (W.contents writer.old) (W.contents writer.new) (string_bytes text.old) (string_bytes text.new)
        (flat_map (λ row. layer_text layer (drawn_in (S.content subject.now) scene.now row)) (rows_in scene.now.rows.now))) }
    ensures fault { IfErr result IsOfOutput }
{
    for place in 0..scene.rows.len() {
        put_layer(text, layer, subject, scene, scene.rows.row(place))?;
        spill(text, writer)?;
    }
    Ok(())
}

// Ends the picture, and hands all that waits to the writer.
fn finish<W: Write>(text: &mut String, writer: &mut W) -> Result<(), DrawFault>
    ensures text { OnOk result (Appends (W.contents writer.old) (W.contents writer.new) (string_bytes text.old ++ codes "</svg>\n")) }
    ensures fault { IfErr result IsOfOutput }
{
    put_foot(text)?;
    hand_over(text, writer)?;
    if writer.flush().is_err() {
        return Err(DrawFault::Write);
    }
    Ok(())
}

// Draws what a scene has, one over the other.
fn draw_parts<S: Subject, W: Write>(
    alloc: Global,
    subject: &S,
    scene: &Scene<'_>,
    messages: &[Failed],
    caption: &str,
    writer: &mut W,
) -> Result<(), DrawFault>
    requires scene { IsScene (S.content subject.now) scene.now }
    requires caption { caption.now ≡ caption_of (S.content subject.now) scene.now.explained scene.now.frame }
    ensures text { OnOk result (Appends (W.contents writer.old) (W.contents writer.new)
        (picture_text (drawn_scene (S.content subject.now) scene.now messages.now))) }
    ensures fault { IfErr result IsOfOutput }
{
    let mut text = String::new(alloc);
    put_head(&mut text, subject, scene, caption)?;
    draw_layer(&mut text, Layer::Back, subject, scene, writer)?;
    draw_lanes(&mut text, subject, scene, writer)?;
    draw_layer(&mut text, Layer::Lines, subject, scene, writer)?;
    draw_crosses(&mut text, subject, scene, messages, writer)?;
    draw_layer(&mut text, Layer::Front, subject, scene, writer)?;
    finish(&mut text, writer)
}

/// Whether an event is named that an execution doesn't have.
pub fn is_missing(execution: &Execution, event: Option<EventId>) -> bool
    ensures { IsTrue result ↔ IsMissing execution.now.events event }
{
    match event {
        Some(event) => event.0 >= execution.len(),
        None => false,
    }
}

// Whether an event is named that a subject doesn't have.
fn lacks<S: Subject>(subject: &S, event: Option<EventId>) -> bool
    ensures { IsTrue result ↔ IsMissing (S.content subject.now).events event }
{
    is_missing(subject.execution(), event)
}

/// Draws a scene in which this chain is marked, and says whether there is the event that it explains.
pub(crate) fn draw_scene<S: Subject, W: Write>(
    alloc: Global,
    subject: &S,
    scene: &Scene<'_>,
    list: &[EventId],
    messages: &[Failed],
    writer: &mut W,
) -> Result<(), DrawFault>
    requires scene { IsScene (S.content subject.now) scene.now }
    requires list { places_of list.now ≡ chosen (clock_events_of (S.content subject.now)) (S.content subject.now).stamps scene.now.explained }
    ensures drawn { OnOk result (Appends (W.contents writer.old) (W.contents writer.new)
        (picture_text (drawn_scene (S.content subject.now) scene.now messages.now))) }
    ensures drawn_without { IsErrOf result DrawFault.NoEvent → Appends (W.contents writer.old) (W.contents writer.new)
        (picture_text (drawn_scene (S.content subject.now) scene.now messages.now)) }
    ensures no_event { IsErrOf result DrawFault.NoEvent → IsMissing (S.content subject.now).events scene.now.explained }
    ensures event { OnOk result (¬ IsMissing (S.content subject.now).events scene.now.explained) }
{
    let caption = caption_for(alloc, subject, scene.frame, scene.explained, list)?;
    draw_parts(alloc, subject, scene, messages, &caption, writer)?;
    if lacks(subject, scene.explained) {
        return Err(DrawFault::NoEvent);
    }
    Ok(())
}

/// Draws an execution, or a part of it, as SVG.
///
/// It takes memory for the chain and for a mark for each event that is drawn, and time linear in these and in the deliveries of
/// what is sent there. After a fault of the writer or of memory nothing is promised of what the writer got.
pub fn draw<S: Subject, W: Write>(
    alloc: Global,
    subject: &S,
    view: View,
    writer: &mut W,
) -> Result<(), DrawFault>
    requires { IsLeastFeasible (clock_events_of (S.content subject.now)) (S.content subject.now).stamps }

    // What the writer got is the picture.
    ensures drawn { OnOk result (Appends (W.contents writer.old) (W.contents writer.new)
        (picture_text (picture_of (S.content subject.now) view))) }

    // The same holds if the event to explain doesn't exist: the picture says so.
    ensures drawn_without { IsErrOf result DrawFault.NoEvent → Appends (W.contents writer.old) (W.contents writer.new)
        (picture_text (picture_of (S.content subject.now) view)) }
    ensures no_event { IsErrOf result DrawFault.NoEvent → IsMissing (S.content subject.now).events view.explained }
    ensures event { OnOk result (¬ IsMissing (S.content subject.now).events view.explained) }
{
    draw_with(alloc, subject, view, &[], writer)
}

/// Draws an execution, or a part of it, as SVG, with the messages that didn't arrive. If the send of such a message is drawn, and so is
/// the last event before it first failed to arrive, an arrow runs from the send towards the lane of its target and ends in a cross, above the
/// row of the next event. A message that failed to arrive more than once has one cross, with how often it did.
///
/// It takes memory and time as `draw` does, memory for each of these messages, and time linear in how often they failed. After a fault of the writer or of memory nothing is
/// promised of what the writer got.
pub fn draw_with<S: Subject, W: Write>(
    alloc: Global,
    subject: &S,
    view: View,
    undelivered: &[Undelivered],
    writer: &mut W,
) -> Result<(), DrawFault>
    requires { IsLeastFeasible (clock_events_of (S.content subject.now)) (S.content subject.now).stamps }

    // What the writer got is the picture.
    ensures drawn { OnOk result (Appends (W.contents writer.old) (W.contents writer.new)
        (picture_text (picture_with (S.content subject.now) view undelivered.now))) }

    // The same holds if the event to explain doesn't exist: the picture says so.
    ensures drawn_without { IsErrOf result DrawFault.NoEvent → Appends (W.contents writer.old) (W.contents writer.new)
        (picture_text (picture_with (S.content subject.now) view undelivered.now)) }
    ensures no_event { IsErrOf result DrawFault.NoEvent → IsMissing (S.content subject.now).events view.explained }
    ensures event { OnOk result (¬ IsMissing (S.content subject.now).events view.explained) }
{
    let lanes = lanes_in(alloc, subject, view)?;
    let layout = lay_out(alloc, subject, view, lanes)?;
    let list = marked_chain(alloc, subject, view.explained)?;
    let marks = marks(alloc, &list, layout.frame)?;
    let rows = Rows::Range {
        first: layout.frame.first,
        end: layout.frame.end,
    };
    let scene = Scene {
        frame: layout.frame,
        lanes: &layout.lanes,
        rows: &rows,
        explained: view.explained,
        marks: &marks,
        next: first_past(&list, layout.frame),
        columns: &layout.columns,
    };
    let messages = failed_messages(alloc, undelivered)?;
    draw_scene(alloc, subject, &scene, &list, &messages, writer)
}
