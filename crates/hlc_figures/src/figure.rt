// What is drawn of an event.

ghost use Rattle.std.specs.Prelude.{◌≡◌, ◌<◌, IfSome, length};
ghost use Rattle.hlc_causality.specs.FollowedChains.{is_event};
ghost use Rattle.hlc_causality.specs.Neighbours.{place_of};
ghost use Rattle.hlc_figures.specs.Figure.{arrow_of, band_of, border_of, delivery_after, dot_of, end_at, entering_of, is_left, is_step, leaving_of, link_of, link_top, next_of, number_distance, side_distance, step_after, stub_of, turn_distance};
ghost use Rattle.hlc_figures.specs.Scene.{IsDrawn, IsMarked};

use crate::kept::{delivers, first_after, forcing, is_forced_by, node, send};
use crate::lanes::lane;
use crate::scene::{Scene, is_marked};
use crate::standing::{arrow_along, band_at, dot_at, stand_in};
use crate::subject::Subject;
use hlc_stamp::EventId;
use hlc_svg::arrow::Arrow;
use hlc_svg::dot::{Dot, reach};
use hlc_svg::frame::{Frame, TOP, aside, x, y};
use hlc_svg::look::Look;
use hlc_svg::shapes::{Band, Border, End, Link};

/// What lies behind the row of an event, if that is marked.
pub fn band<S: Subject>(subject: &S, scene: &Scene<'_>, event: EventId) -> Option<Band>
    requires scene { IsMarked (S.content subject.now) scene.now }
    requires drawn { IsDrawn scene.now.frame event.0 }
    ensures { result ≡ band_of (S.content subject.now) scene.now.explained scene.now.frame event.0 }
{
    if !is_marked(subject, scene, event) {
        return None;
    }
    Some(band_at(scene.frame, stand_in(scene.frame, event)))
}

// Where a link from an event begins: at its dot, or at the upper border if the event comes before the range.
fn link_top(frame: Frame, before: EventId) -> u64
    ensures { result ≡ link_top frame before.0 }
{
    if before.0 < frame.first {
        TOP
    } else {
        y(frame, before)
    }
}

/// The step of the marked chain that leads to an event along its lane.
pub fn link<S: Subject>(subject: &S, scene: &Scene<'_>, event: EventId) -> Option<Link>
    requires scene { IsMarked (S.content subject.now) scene.now }
    requires drawn { IsDrawn scene.now.frame event.0 }
    ensures { result ≡ link_of (S.content subject.now) scene.now.explained scene.now.frame scene.now.lanes.now event.0 }
{
    if !is_marked(subject, scene, event) {
        return None;
    }
    let forcing = forcing(subject, event)?;
    if node(subject, forcing).0 != node(subject, event).0 {
        return None;
    }
    Some(Link {
        x: x(scene.frame, lane(subject, scene.lanes, event)),
        from: link_top(scene.frame, forcing),
        to: y(scene.frame, event),
    })
}

// The event with which the marked chain goes on after the range.
fn next<S: Subject>(subject: &S, scene: &Scene<'_>) -> Option<EventId>
    requires { IsMarked (S.content subject.now) scene.now }
    ensures next { place_of result ≡ next_of (S.content subject.now) scene.now.explained scene.now.frame }
    ensures exists { IfSome result (λ next. next.0 < length (S.content subject.now).events) }
{
    let _of = subject;
    scene.next
}

/// The step of the marked chain that leads from an event along its lane over the lower border.
pub fn stub<S: Subject>(subject: &S, scene: &Scene<'_>, event: EventId) -> Option<Link>
    requires scene { IsMarked (S.content subject.now) scene.now }
    requires drawn { IsDrawn scene.now.frame event.0 }
    ensures { result ≡ stub_of (S.content subject.now) scene.now.explained scene.now.frame scene.now.lanes.now event.0 }
{
    let next = next(subject, scene)?;
    let (after, at) = (node(subject, next), node(subject, event));
    if !is_forced_by(subject, next, event) || after.0 != at.0 {
        return None;
    }
    Some(Link {
        x: x(scene.frame, lane(subject, scene.lanes, event)),
        from: y(scene.frame, event),
        to: scene.frame.height,
    })
}

// Whether the marked chain goes from a send to its delivery.
fn is_step<S: Subject>(subject: &S, scene: &Scene<'_>, sent: EventId, event: EventId) -> bool
    requires scene { IsMarked (S.content subject.now) scene.now }
    requires drawn { IsDrawn scene.now.frame event.0 }
    ensures { result ≡ is_step (S.content subject.now) scene.now.explained sent.0 event.0 }
{
    is_marked(subject, scene, event) && is_forced_by(subject, event, sent)
}

/// The arrow to a delivery from its send, if that is drawn too.
pub fn arrow<S: Subject>(subject: &S, scene: &Scene<'_>, event: EventId) -> Option<Arrow>
    requires scene { IsMarked (S.content subject.now) scene.now }
    requires drawn { IsDrawn scene.now.frame event.0 }
    ensures { result ≡ arrow_of (S.content subject.now) scene.now.explained scene.now.frame scene.now.lanes.now event.0 }
{
    let sent = send(subject, event)?;
    if sent.0 < scene.frame.first {
        return None;
    }
    let (from, to) = (stand_in(scene.frame, sent), stand_in(scene.frame, event));
    let is_step = is_step(subject, scene, sent, event);
    Some(arrow_along(subject, scene, from, to, is_step))
}

// Where a border is.
fn border_y(frame: Frame, border: Border) -> u64
    ensures { result ≡ border_of frame border }
{
    match border {
        Border::Upper => TOP,
        Border::Lower => frame.height,
    }
}

/// How far from a lane an arrow over a border turns. Those that come in and those that leave go side by side.
pub(crate) fn turn_distance(border: Border, half: u8) -> u16
    ensures { result ≡ turn_distance border half }
{
    match border {
        Border::Upper => 5 * u16::from(half) / 2 + 10,
        Border::Lower => 5 * u16::from(half) / 2 + 16,
    }
}

// How far from a lane it begins or ends beside a dot: one that comes in ends at the ring, if there is one.
fn side_distance(border: Border, look: Look, half: u8) -> u16
    ensures { result ≡ side_distance border look half }
{
    match border {
        Border::Upper => reach(look, half),
        Border::Lower => u16::from(half),
    }
}

// How far from a lane its number stands: between the dot, or the head of the arrow, and where that turns.
fn number_distance(border: Border, half: u8) -> u16
    ensures { result ≡ number_distance border half }
{
    match border {
        Border::Upper => 7 * u16::from(half) / 4 + 9,
        Border::Lower => 7 * u16::from(half) / 4 + 4,
    }
}

// Whether an arrow over a border runs on the left of the dot of an event: on the side of the node of its other end, which needs no lane.
fn is_left<S: Subject>(subject: &S, event: EventId, other: EventId) -> bool
    requires event { event.0 < length (S.content subject.now).events }
    requires other { other.0 < length (S.content subject.now).events }
    ensures { result ≡ is_left (S.content subject.now) event.0 other.0 }
{
    node(subject, other).0 < node(subject, event).0
}

// The arrow over a border to the dot of an event, or from there, whose other end is this one.
fn end<S: Subject>(
    subject: &S,
    scene: &Scene<'_>,
    border: Border,
    event: EventId,
    other: EventId,
    is_marked: bool,
) -> End
    requires event { event.0 < length (S.content subject.now).events }
    requires other { other.0 < length (S.content subject.now).events }
    ensures { result ≡ end_at (S.content subject.now) scene.now.frame scene.now.lanes.now border event.0 other.0 is_marked }
{
    let (frame, half) = (scene.frame, scene.frame.half);
    let (at, is_left) = (
        lane(subject, scene.lanes, event),
        is_left(subject, event, other),
    );
    End {
        border,
        x: aside(
            frame,
            at,
            is_left,
            side_distance(border, subject.look(event), half),
        ),
        number_x: aside(frame, at, is_left, number_distance(border, half)),
        turn_x: aside(frame, at, is_left, turn_distance(border, half)),
        y: y(frame, event),
        border_y: border_y(frame, border),
        event: other,
        number: subject.shown(other),
        is_marked,
    }
}

/// The arrow into the range to a delivery, if its send comes before that.
pub fn entering<S: Subject>(subject: &S, scene: &Scene<'_>, event: EventId) -> Option<End>
    requires scene { IsMarked (S.content subject.now) scene.now }
    requires drawn { IsDrawn scene.now.frame event.0 }
    ensures { result ≡ entering_of (S.content subject.now) scene.now.explained scene.now.frame scene.now.lanes.now event.0 }
{
    let sent = send(subject, event)?;
    if sent.0 >= scene.frame.first {
        return None;
    }
    let is_marked = is_step(subject, scene, sent, event);
    Some(end(subject, scene, Border::Upper, event, sent, is_marked))
}

// Whether the chain goes on with an event after the range.
fn is_next<S: Subject>(subject: &S, scene: &Scene<'_>, event: EventId) -> bool
    requires { IsMarked (S.content subject.now) scene.now }
    ensures { result ≡ is_event (next_of (S.content subject.now) scene.now.explained scene.now.frame) event.0 }
{
    let _of = subject;
    match scene.next {
        Some(next) => next.0 == event.0,
        None => false,
    }
}

// The delivery of a send with which the chain goes on after the range, if it goes on from there by a message.
fn step_after<S: Subject>(subject: &S, scene: &Scene<'_>, event: EventId) -> Option<EventId>
    requires scene { IsMarked (S.content subject.now) scene.now }
    ensures step { place_of result ≡ step_after (S.content subject.now) event.0 (next_of (S.content subject.now) scene.now.explained scene.now.frame) }
    ensures exists { IfSome result (λ next. next.0 < length (S.content subject.now).events) }
{
    let next = next(subject, scene)?;
    if is_forced_by(subject, next, event) && delivers(subject, next, event) {
        Some(next)
    } else {
        None
    }
}

// The delivery to which an arrow over the lower border leads: that one, or else the first after the range.
fn delivery_after<S: Subject>(subject: &S, scene: &Scene<'_>, event: EventId) -> Option<EventId>
    requires scene { IsMarked (S.content subject.now) scene.now }
    requires event { event.0 < length (S.content subject.now).events }
    ensures delivery { place_of result ≡ delivery_after (S.content subject.now) scene.now.explained scene.now.frame event.0 }
    ensures exists { IfSome result (λ delivery. delivery.0 < length (S.content subject.now).events) }
{
    match step_after(subject, scene, event) {
        Some(next) => Some(next),
        None => first_after(subject, scene.frame, event),
    }
}

/// The arrow out of the range from a send, if a delivery comes after that: to the one with which the chain goes on, or to the first.
pub fn leaving<S: Subject>(subject: &S, scene: &Scene<'_>, event: EventId) -> Option<End>
    requires scene { IsMarked (S.content subject.now) scene.now }
    requires drawn { IsDrawn scene.now.frame event.0 }
    ensures { result ≡ leaving_of (S.content subject.now) scene.now.explained scene.now.frame scene.now.lanes.now event.0 }
{
    let delivered = delivery_after(subject, scene, event)?;
    let is_marked = is_next(subject, scene, delivered) && is_forced_by(subject, delivered, event);
    Some(end(subject, scene, Border::Lower, event, delivered, is_marked))
}

/// The dot of an event.
pub fn dot<S: Subject>(subject: &S, scene: &Scene<'_>, event: EventId) -> Dot
    requires scene { IsMarked (S.content subject.now) scene.now }
    requires drawn { IsDrawn scene.now.frame event.0 }
    ensures { result ≡ dot_of (S.content subject.now) scene.now.explained scene.now.frame scene.now.lanes.now event.0 }
{
    let is_marked = is_marked(subject, scene, event);
    dot_at(subject, scene, stand_in(scene.frame, event), is_marked)
}
