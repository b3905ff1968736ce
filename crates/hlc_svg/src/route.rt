// Where arrows run.

ghost use Rattle.std.specs.Prelude.{◌≡◌, ◌++◌, ◌<◌, OnOk, string_bytes};
ghost use Rattle.hlc_svg.specs.Path.{around_distance, around_x, arrow_end, arrow_start, crossing_text, crossing_y, end_y, lane_at, lanes_of, path_of, points_text, way_around, way_of};

use crate::frame::{Frame, LaneId, ROW, beside, row_y, towards};
use crate::shapes::Point;
use std::alloc::AllocError;

/// How far an arrow to the same lane keeps from the dots there: its head has room between, beside a ring too.
pub const AROUND: u16 = 16;

/// How far one keeps from them that ends below a row: a bit further, so that it doesn't lie on one that ends at a dot.
pub const FURTHER: u16 = 22;

// How far an arrow to the same lane has fallen by where it is furthest from the dots, and still falls from there on: at a slant, since
// arrows over a border run along the rows of dots.
pub(crate) const SLANT: u8 = 8;

/// Where an arrow runs: from a dot to beside another lane.
#[derive(Clone, Copy)]
pub struct Route {
    /// The row of the dot.
    pub from_row: u32,
    /// The row where it ends, and how far below the middle of that.
    pub to_row: u32,
    pub below: u8,
    /// The two lanes.
    pub from: LaneId,
    pub to: LaneId,
    /// How far beside the second one it ends.
    pub reach: u16,
    pub frame: Frame,
}

// How many lanes it is from the one to the other.
fn lanes(route: Route) -> u16
    ensures { result ≡ lanes_of route }
{
    route.from.0.abs_diff(route.to.0)
}

// The lane at a place of the way.
fn lane_at(route: Route, place: u16) -> LaneId
    requires { place < lanes_of route }
    ensures { result.0 ≡ lane_at route place }
{
    LaneId(if route.from.0 < route.to.0 {
        route.from.0 + place
    } else {
        route.from.0 - place
    })
}

// How high that lane is crossed: midway between two rows, which are taken so that the arrow falls evenly.
fn crossing_y(route: Route, place: u16) -> u64
    requires { place < lanes_of route }
    ensures { result ≡ crossing_y route place }
{
    let rows = u64::from(route.to_row.saturating_sub(route.from_row));
    let above = rows * u64::from(place) / u64::from(lanes(route));
    row_y(route.from_row) + ROW * above + ROW / 2
}

// The crossing of that lane, level and as wide as a dot.
fn put_crossing(text: &mut String, route: Route, place: u16) -> Result<(), AllocError>
    requires { place < lanes_of route }
    ensures { OnOk result (string_bytes text.new ≡ string_bytes text.old ++ crossing_text route place) }
{
    let (lane, y) = (lane_at(route, place), crossing_y(route, place));
    let (before, after) = (
        beside(route.frame, lane, route.from, y),
        beside(route.frame, lane, route.to, y),
    );
    write!(text, " {before} {after}")
}

// How high it ends.
fn end_y(route: Route) -> u64
    ensures { result ≡ end_y route }
{
    row_y(route.to_row) + u64::from(route.below)
}

// Where an arrow begins and ends: beside the lanes.
fn start(route: Route) -> Point
    ensures { result ≡ arrow_start route }
{
    beside(route.frame, route.from, route.to, row_y(route.from_row))
}

fn end(route: Route) -> Point
    ensures { result ≡ arrow_end route }
{
    Point {
        x: towards(route.frame, route.to, route.from, route.reach),
        y: end_y(route),
    }
}

// The points of an arrow across the lanes: level where it crosses one, so that it keeps clear of all dots.
fn put_way(text: &mut String, route: Route) -> Result<(), AllocError>
    ensures { OnOk result (string_bytes text.new ≡ string_bytes text.old ++ points_text (way_of route)) }
{
    let (start, end) = (start(route), end(route));
    write!(text, "{start}")?;
    for place in 1..lanes(route) {
        put_crossing(text, route, place)?;
    }
    write!(text, " {end}")
}

// How far to the right of its lane an arrow to the same lane goes.
fn around_distance(route: Route) -> u16
    ensures { result ≡ around_distance route }
{
    let beyond = if route.below == 0 { AROUND } else { FURTHER };
    u16::from(route.frame.half) + beyond
}

// Where that is.
fn around_x(route: Route) -> u64
    ensures { result ≡ around_x route }
{
    towards(route.frame, route.from, route.to, around_distance(route))
}

// The points of an arrow to the same lane, around the dots between.
fn put_way_around(text: &mut String, route: Route) -> Result<(), AllocError>
    ensures { OnOk result (string_bytes text.new ≡ string_bytes text.old ++ points_text (way_around route)) }
{
    let (start, end, x) = (start(route), end(route), around_x(route));
    let (out, back) = (
        Point {
            x,
            y: row_y(route.from_row) + u64::from(SLANT),
        },
        Point {
            x,
            y: end_y(route).saturating_sub(u64::from(SLANT)),
        },
    );
    write!(text, "{start} {out} {back} {end}")
}

/// Adds the points of an arrow.
pub fn put_points(text: &mut String, route: Route) -> Result<(), AllocError>
    ensures { OnOk result (string_bytes text.new ≡ string_bytes text.old ++ points_text (path_of route)) }
{
    if route.from.0 == route.to.0 {
        put_way_around(text, route)
    } else {
        put_way(text, route)
    }
}
