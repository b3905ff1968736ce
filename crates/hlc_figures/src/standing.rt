// Where an event stands, and what is drawn there.

ghost use Rattle.std.specs.Prelude.{◌≡◌, ◌<◌, length};
ghost use Rattle.hlc_figures.specs.Standing.{arrow_along, band_at, dot_at, stand_in};

use crate::lanes::lane;
use crate::scene::Scene;
use crate::subject::Subject;
use hlc_stamp::EventId;
use hlc_svg::arrow::Arrow;
use hlc_svg::dot::{Dot, reach};
use hlc_svg::frame::{Frame, ROW, row, row_y, x};
use hlc_svg::route::Route;
use hlc_svg::shapes::{Band, Point};

/// An event, and the row in which it stands.
#[derive(Clone, Copy)]
pub struct Standing {
    pub event: EventId,
    pub row: u32,
}

/// Where an event of a range stands.
pub(crate) fn stand_in(frame: Frame, event: EventId) -> Standing
    ensures { result ≡ stand_in frame event.0 }
{
    let row = row(frame, event);
    Standing { event, row }
}

/// The dot of an event.
pub(crate) fn dot_at<S: Subject>(
    subject: &S,
    scene: &Scene<'_>,
    at: Standing,
    is_marked: bool,
) -> Dot
    requires { at.event.0 < length (S.content subject.now).events }
    ensures { result ≡ dot_at (S.content subject.now) scene.now.frame scene.now.lanes.now at is_marked }
{
    Dot {
        event: at.event,
        number: subject.number(at.event),
        shown: subject.shown(at.event),
        at: Point {
            x: u64::from(x(scene.frame, lane(subject, scene.lanes, at.event))),
            y: row_y(at.row),
        },
        half: scene.frame.half,
        look: subject.look(at.event),
        is_marked,
    }
}

/// What lies behind the row of a marked event.
pub(crate) fn band_at(frame: Frame, at: Standing) -> Band
    ensures { result ≡ band_at frame at }
{
    Band {
        y: row_y(at.row).saturating_sub(ROW / 2),
        width: frame.width,
    }
}

/// The arrow from a send to a delivery.
pub(crate) fn arrow_along<S: Subject>(
    subject: &S,
    scene: &Scene<'_>,
    sent: Standing,
    delivered: Standing,
    is_marked: bool,
) -> Arrow
    requires sent { sent.event.0 < length (S.content subject.now).events }
    requires delivered { delivered.event.0 < length (S.content subject.now).events }
    ensures { result ≡ arrow_along (S.content subject.now) scene.now.frame scene.now.lanes.now sent delivered is_marked }
{
    Arrow {
        sent: sent.event,
        delivered: delivered.event,
        route: Route {
            from_row: sent.row,
            to_row: delivered.row,
            below: 0,
            from: lane(subject, scene.lanes, sent.event),
            to: lane(subject, scene.lanes, delivered.event),
            reach: reach(subject.look(delivered.event), scene.frame.half),
            frame: scene.frame,
        },
        is_marked,
    }
}
