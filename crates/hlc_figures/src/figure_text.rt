// The text of what is drawn of an event.

ghost use Rattle.std.specs.Prelude.{◌≡◌, ◌++◌, ◌<◌, OnOk, length, string_bytes};
ghost use Rattle.hlc_figures.specs.Columns.{AreColumnsOf};
ghost use Rattle.hlc_figures.specs.FigureText.{figure_of, figure_text, front_text, lane_below, lines_text, named_lane_of, named_lane_text};
ghost use Rattle.hlc_svg.specs.Shapes.{dot_text};
ghost use Rattle.hlc_figures.specs.Scene.{IsDrawn, IsMarked};
ghost use Rattle.hlc_figures.specs.Title.{title_text};

use crate::figure::{arrow, band, dot, entering, leaving, link, stub};
use crate::lanes::Lanes;
use crate::layer::Layer;
use crate::row::put_row;
use crate::scene::Scene;
use crate::subject::Subject;
use crate::title::put_title;
use hlc_stamp::{EventId, NodeId};
use hlc_svg::dot::{Dot, put_dot_end, put_dot_start, put_ring};
use hlc_svg::frame::{Frame, x, y};
use hlc_svg::pieces::{put_arrow, put_band, put_end, put_link, put_numbers};
use hlc_svg::shapes::{Lane, put_lane_line, put_lane_start};
use hlc_svg::text::put;
use std::alloc::AllocError;

/// The dot of an event, with its title.
pub fn put_dot<S: Subject>(text: &mut String, subject: &S, dot: Dot) -> Result<(), AllocError>
    requires { dot.event.0 < length (S.content subject.now).events }
    ensures { OnOk result (string_bytes text.new ≡ string_bytes text.old
        ++ dot_text dot (title_text (S.content subject.now) dot.event.0)) }
{
    put_dot_start(text, dot)?;
    put_title(text, subject, dot.event)?;
    put_ring(text, dot)?;
    put_dot_end(text, dot)
}

// The lane of a node.
fn lane_below(frame: Frame, lanes: &Lanes, node: NodeId) -> Lane
    ensures { result ≡ lane_below frame lanes.now node.0 }
{
    Lane {
        node,
        x: x(frame, lanes.lane(node)),
        height: frame.height,
    }
}

/// The name of a node, with the whole of it as its title, and its lane below.
pub fn put_lane<S: Subject>(
    text: &mut String,
    subject: &S,
    frame: Frame,
    lanes: &Lanes,
    node: NodeId,
) -> Result<(), AllocError>
    requires { node.0 < (S.content subject.now).nodes }
    ensures { OnOk result (string_bytes text.new ≡ string_bytes text.old
        ++ named_lane_text (named_lane_of (S.content subject.now) frame lanes.now node.0)) }
{
    let lane = lane_below(frame, lanes, node);
    put_lane_start(text, lane)?;
    subject.put_whole_name(text, node)?;
    put(text, "</title>")?;
    subject.put_name(text, node)?;
    put_lane_line(text, lane)
}

// What leads to an event, and from it over the border.
fn put_lines<S: Subject>(
    text: &mut String,
    subject: &S,
    scene: &Scene<'_>,
    event: EventId,
) -> Result<(), AllocError>
    requires scene { IsMarked (S.content subject.now) scene.now }
    requires drawn { IsDrawn scene.now.frame event.0 }
    ensures { OnOk result (string_bytes text.new ≡ string_bytes text.old
        ++ lines_text (figure_of (S.content subject.now) scene.now.explained scene.now.frame scene.now.lanes.now event.0)) }
{
    put_link(text, link(subject, scene, event))?;
    put_link(text, stub(subject, scene, event))?;
    put_arrow(text, arrow(subject, scene, event))?;
    put_end(text, entering(subject, scene, event))?;
    put_end(text, leaving(subject, scene, event))
}

// The numbers at an event's arrows over a border, its dot and its row.
fn put_front<S: Subject>(
    text: &mut String,
    subject: &S,
    scene: &Scene<'_>,
    event: EventId,
) -> Result<(), AllocError>
    requires columns { AreColumnsOf (S.content subject.now) scene.now.frame scene.now.columns.now }
    requires scene { IsMarked (S.content subject.now) scene.now }
    requires drawn { IsDrawn scene.now.frame event.0 }
    ensures { OnOk result (string_bytes text.new ≡ string_bytes text.old
        ++ front_text (figure_of (S.content subject.now) scene.now.explained scene.now.frame scene.now.lanes.now event.0)) }
{
    let (entering, leaving) = (
        entering(subject, scene, event),
        leaving(subject, scene, event),
    );
    put_numbers(text, entering, leaving)?;
    put_dot(text, subject, dot(subject, scene, event))?;
    put_row(text, subject, scene, event, y(scene.frame, event))
}

/// What a layer has of an event: the band behind its row, what leads to it, or its dot and its row.
pub(crate) fn put_figure<S: Subject>(
    text: &mut String,
    layer: Layer,
    subject: &S,
    scene: &Scene<'_>,
    event: EventId,
) -> Result<(), AllocError>
    requires columns { AreColumnsOf (S.content subject.now) scene.now.frame scene.now.columns.now }
    requires scene { IsMarked (S.content subject.now) scene.now }
    requires drawn { IsDrawn scene.now.frame event.0 }
    ensures { OnOk result (string_bytes text.new ≡ string_bytes text.old
        ++ figure_text layer (figure_of (S.content subject.now) scene.now.explained scene.now.frame scene.now.lanes.now event.0)) }
{
    match layer {
        Layer::Back => put_band(text, band(subject, scene, event)),
        Layer::Lines => put_lines(text, subject, scene, event),
        Layer::Front => put_front(text, subject, scene, event),
    }
}
