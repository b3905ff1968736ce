// What is drawn of a chain, and its text.

ghost use Rattle.std.specs.Prelude.{◌≡◌, ◌++◌, OnOk, string_bytes};
ghost use Rattle.hlc_figures.specs.ChainFigure.{StopExists, counted_in, counted_text, events_word, gap_text, stop_arrow, stop_figure, stop_link};
ghost use Rattle.hlc_figures.specs.Columns.{AreColumnsOf};
ghost use Rattle.hlc_figures.specs.FigureText.{figure_text};

use crate::figure_text::put_dot;
use crate::kept::{delivers, node};
use crate::lanes::lane;
use crate::layer::Layer;
use crate::row::put_row;
use crate::rows::{Gap, Stop};
use crate::scene::Scene;
use crate::standing::{arrow_along, band_at, dot_at};
use crate::subject::Subject;
use hlc_svg::arrow::Arrow;
use hlc_svg::frame::{Frame, LaneId, row_y, x};
use hlc_svg::pieces::{put_arrow, put_band, put_link};
use hlc_svg::shapes::Link;
use std::alloc::AllocError;

// How many events lie between two of the chain, and where that stands.
#[derive(Clone, Copy)]
struct Counted {
    x: u32,
    y: u64,
    count: u32,
}

// The step to an event along its lane.
fn stop_link<S: Subject>(subject: &S, scene: &Scene<'_>, stop: Stop) -> Option<Link>
    requires { StopExists (S.content subject.now) stop }
    ensures { result ≡ stop_link (S.content subject.now) scene.now.frame scene.now.lanes.now stop }
{
    let before = stop.before?;
    if node(subject, before.event).0 != node(subject, stop.at.event).0 {
        return None;
    }
    Some(Link {
        x: x(scene.frame, lane(subject, scene.lanes, stop.at.event)),
        from: row_y(before.row),
        to: row_y(stop.at.row),
    })
}

// The step to an event by a message.
fn stop_arrow<S: Subject>(subject: &S, scene: &Scene<'_>, stop: Stop) -> Option<Arrow>
    requires { StopExists (S.content subject.now) stop }
    ensures { result ≡ stop_arrow (S.content subject.now) scene.now.frame scene.now.lanes.now stop }
{
    let (before, at) = (stop.before?, stop.at);
    if !delivers(subject, at.event, before.event) {
        return None;
    }
    Some(arrow_along(subject, scene, before, at, true))
}

// The word for so many events.
fn events_word(count: u32) -> &'static str
    ensures { result.now ≡ events_word count }
{
    if count == 1 { "event" } else { "events" }
}

// Adds how many events lie between two of the chain.
fn put_counted(text: &mut String, counted: Counted) -> Result<(), AllocError>
    ensures { OnOk result (string_bytes text.new ≡ string_bytes text.old ++ counted_text counted) }
{
    let (x, y, count) = (counted.x, counted.y, counted.count);
    let word = events_word(count);
    write!(
        text,
        "<text class=\"h\" x=\"{x}\" y=\"{y}\" dy=\"4\">&#8230; {count} {word}</text>\n"
    )
}

// How many they are, and where that stands.
fn count_in(frame: Frame, gap: Gap) -> Counted
    ensures { result ≡ counted_in frame gap }
{
    Counted {
        x: x(frame, LaneId(frame.lanes)),
        y: row_y(gap.row),
        count: gap.count,
    }
}

/// What a layer has of an event of the chain: the band behind its row, what leads to it, or its dot and its row.
pub(crate) fn put_stop<S: Subject>(
    text: &mut String,
    layer: Layer,
    subject: &S,
    scene: &Scene<'_>,
    stop: Stop,
) -> Result<(), AllocError>
    requires columns { AreColumnsOf (S.content subject.now) scene.now.frame scene.now.columns.now }
    requires exists { StopExists (S.content subject.now) stop }
    ensures { OnOk result (string_bytes text.new ≡ string_bytes text.old
        ++ figure_text layer (stop_figure (S.content subject.now) scene.now.frame scene.now.lanes.now stop)) }
{
    match layer {
        Layer::Back => put_band(text, Some(band_at(scene.frame, stop.at))),
        Layer::Lines => {
            put_link(text, stop_link(subject, scene, stop))?;
            put_arrow(text, stop_arrow(subject, scene, stop))
        }
        Layer::Front => {
            put_dot(text, subject, dot_at(subject, scene, stop.at, true))?;
            put_row(text, subject, scene, stop.at.event, row_y(stop.at.row))
        }
    }
}

/// What a layer has of how many events lie between two of the chain.
pub(crate) fn put_gap(
    text: &mut String,
    layer: Layer,
    frame: Frame,
    gap: Gap,
) -> Result<(), AllocError>
    ensures { OnOk result (string_bytes text.new ≡ string_bytes text.old ++ gap_text layer (counted_in frame gap)) }
{
    match layer {
        Layer::Back | Layer::Lines => Ok(()),
        Layer::Front => put_counted(text, count_in(frame, gap)),
    }
}
