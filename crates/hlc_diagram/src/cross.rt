// The arrows of messages that didn't arrive, each of which ends in a cross.

ghost use Rattle.std.specs.Prelude.{◌≡◌, ◌++◌, ◌<◌, IfErr, OnOk, length, string_bytes};
ghost use Rattle.std.specs.List.{flat_map};
ghost use Rattle.hlc_diagram.specs.Cross.{below, cross_begins, cross_of, cross_text, cross_title, cross_to, is_shown, named_cross, title_ends};
ghost use Rattle.hlc_diagram.specs.Fault.{IsOfOutput};
ghost use Rattle.hlc_diagram.specs.Picture.{GrowsBy};
ghost use Rattle.hlc_svg.specs.Shapes.{if_drawn};
ghost use Rattle.hlc_figures.specs.Scene.{IsScene};

use crate::draw_fault::DrawFault;
use crate::drawing::spill;
use crate::failed::Failed;
use crate::undelivered::Undelivered;
use hlc_figures::lanes::{Lanes, lane};
use hlc_figures::scene::Scene;
use hlc_figures::subject::Subject;
use hlc_stamp::EventId;
use hlc_svg::frame::{Frame, ROW, row, row_y, x};
use hlc_svg::route::{Route, put_points};
use hlc_svg::text::put;
use std::alloc::AllocError;
use std::io::Write;

// How far below a row its arrow ends at least: midway to the next one, so that it keeps clear of the dots in both.
pub(crate) const MIDWAY: u8 = (ROW / 2) as u8;

// At how many heights such arrows end in turn, and how far these are from one another.
pub(crate) const HEIGHTS: u64 = 4;

pub(crate) const STEP: u8 = 2;

// The arrow of a message that didn't arrive.
#[derive(Clone, Copy)]
pub(crate) struct Cross {
    pub(crate) failed: Failed,
    // The number of its send.
    pub(crate) number: u32,
    pub(crate) route: Route,
}

// Whether a message is shown: its node has a lane, and drawn are its send and the event before the next one.
fn is_shown(frame: Frame, lanes: &Lanes, message: Undelivered) -> bool
    ensures { result ≡ is_shown frame lanes.now message }
{
    let (send, before) = (message.send.0, message.before.0);
    frame.first <= send && send < before && before <= frame.end && lanes.has(message.to)
}

// How far below a row the arrow of a message ends, by how many others failed before it: those in one gap end at different heights, as far as it has room.
fn below(place: u64) -> u8
    ensures { result ≡ below place }
{
    MIDWAY + STEP * (place % HEIGHTS) as u8
}

// Its arrow.
fn cross_to<S: Subject>(subject: &S, scene: &Scene<'_>, failed: Failed) -> Cross
    requires { failed.first.send.0 < length (S.content subject.now).events }
    ensures { result ≡ cross_to (S.content subject.now) scene.now.frame scene.now.lanes.now failed }
{
    let message = failed.first;
    let last = EventId(message.before.0.saturating_sub(1));
    Cross {
        failed,
        number: subject.number(message.send),
        route: Route {
            from_row: row(scene.frame, message.send),
            to_row: row(scene.frame, last),
            below: below(failed.place),
            from: lane(subject, scene.lanes, message.send),
            to: scene.lanes.lane(message.to),
            reach: u16::from(scene.frame.half),
            frame: scene.frame,
        },
    }
}

// The line of such an arrow.
fn put_line(text: &mut String, cross: Cross) -> Result<(), AllocError>
    ensures { OnOk result (string_bytes text.new ≡ string_bytes text.old ++ cross_begins cross) }
{
    put(text, "<polyline class=\"x\" points=\"")?;
    put_points(text, cross.route)
}

// What comes before the name of the node in its title.
fn put_title_start(text: &mut String, cross: Cross) -> Result<(), AllocError>
    ensures { OnOk result (string_bytes text.new ≡ string_bytes text.old ++ cross_title cross) }
{
    let number = cross.number;
    write!(
        text,
        "\"><title>the message of event {number} didn't reach "
    )
}

// What comes after it: how often the message failed to arrive, if it did more than once, in the title and beside the cross.
fn put_title_end(text: &mut String, cross: Cross) -> Result<(), AllocError>
    ensures { OnOk result (string_bytes text.new ≡ string_bytes text.old ++ title_ends cross) }
{
    let times = cross.failed.times;
    if times <= 1 {
        return put(text, "</title></polyline>\n");
    }
    let x = x(cross.route.frame, cross.route.to);
    let y = row_y(cross.route.to_row) + u64::from(cross.route.below) + 4;
    write!(
        text,
        ", {times} times</title></polyline>\n<text class=\"y\" x=\"{x}\" y=\"{y}\">&#215;{times}</text>\n"
    )
}

// The arrow of a message, with its title.
fn put_cross<S: Subject>(text: &mut String, subject: &S, cross: Cross) -> Result<(), AllocError>
    requires { cross.failed.first.to.0 < (S.content subject.now).nodes }
    ensures { OnOk result (string_bytes text.new ≡ string_bytes text.old
        ++ cross_text (named_cross (S.content subject.now) cross)) }
{
    put_line(text, cross)?;
    put_title_start(text, cross)?;
    subject.put_name(text, cross.failed.first.to)?;
    put_title_end(text, cross)
}

// The arrow of a message, if it is shown.
fn put_message<S: Subject>(
    text: &mut String,
    subject: &S,
    scene: &Scene<'_>,
    failed: Failed,
) -> Result<(), AllocError>
    requires { IsScene (S.content subject.now) scene.now }
    ensures { OnOk result (string_bytes text.new ≡ string_bytes text.old
        ++ if_drawn cross_text (cross_of (S.content subject.now) scene.now.frame scene.now.lanes.now failed)) }
{
    if !is_shown(scene.frame, scene.lanes, failed.first) {
        return Ok(());
    }
    put_cross(text, subject, cross_to(subject, scene, failed))
}

pub(crate) fn draw_crosses<S: Subject, W: Write>(
    text: &mut String,
    subject: &S,
    scene: &Scene<'_>,
    messages: &[Failed],
    writer: &mut W,
) -> Result<(), DrawFault>
    requires { IsScene (S.content subject.now) scene.now }
    ensures text { OnOk result (GrowsBy (W.contents writer.old) (W.contents writer.new) (string_bytes text.old) (string_bytes text.new)
        (flat_map (λ m. if_drawn cross_text (cross_of (S.content subject.now) scene.now.frame scene.now.lanes.now m)) messages.now)) }
    ensures fault { IfErr result IsOfOutput }
{
    for message in messages {
        put_message(text, subject, scene, *message)?;
        spill(text, writer)?;
    }
    Ok(())
}
