// The columns of the rows beside the lanes.

ghost use Rattle.std.specs.Prelude.{◌≡◌, ◌-◌, ◌<◌, ◌≤◌, IfOk, length};
ghost use Rattle.hlc_figures.specs.Columns.{AreColumns, column_width, first_lane, greatest_number, half_width, lane_distance, places_from};

use crate::figure::turn_distance;
use crate::lanes::Lanes;
use crate::subject::Subject;
use hlc_stamp::{EventId, NodeId};
use hlc_svg::frame::{FIRST_LANE, LANE};
use hlc_svg::numbers::digits;
use hlc_svg::shapes::Border;
use std::alloc::{AllocError, Global};

// How wide a character is.
pub(crate) const CHARACTER: u64 = 8;

// How many characters keep columns apart.
pub(crate) const GAP: u64 = 2;

/// How many characters a column has room for at least: so many a heading may have.
pub const LEAST_WIDTH: u32 = 8;

// The greatest number that is shown of the events that are drawn.
fn greatest<S: Subject>(subject: &S, first: u32, end: u32) -> u32
    requires ordered { first ≤ end }
    requires exist { end ≤ length (S.content subject.now).events }
    ensures { result ≡ greatest_number (S.content subject.now).shown (places_from first (end - first)) }
{
    let mut greatest = 0;
    for place in first..end {
        greatest = subject.shown(EventId(place)).max(greatest);
    }
    greatest
}

// How many characters the widest cell of a column has.
fn widest<S: Subject>(subject: &S, first: u32, end: u32, column: u8) -> u32
    requires ordered { first ≤ end }
    requires exist { end ≤ length (S.content subject.now).events }
    requires column { column < (S.content subject.now).columns }
    ensures { result ≡ column_width (S.content subject.now) (places_from first (end - first)) column }
{
    let mut widest = 0;
    for place in first..end {
        widest = subject.cell_width(EventId(place), column).max(widest);
    }
    widest.max(LEAST_WIDTH)
}

/// Where each column begins from `start` on, and where the last one ends.
pub fn columns<S: Subject>(
    alloc: Global,
    subject: &S,
    first: u32,
    end: u32,
    start: u32,
) -> Result<Vec<u64>, AllocError>
    requires ordered { first ≤ end }
    requires exist { end ≤ length (S.content subject.now).events }
    ensures { IfOk result (λ columns. AreColumns (S.content subject.now) (places_from first (end - first)) start columns.items) }
{
    let mut x = u64::from(start);
    let mut columns = vec![in alloc; x; 1]?;
    for column in 0..subject.columns() {
        x += CHARACTER * (u64::from(widest(subject, first, end, column)) + GAP);
        columns.push(x)?;
    }
    Ok(columns)
}

// Half the width of a dot, which has room for numbers up to this one.
fn half_width(number: u32) -> u8
    ensures { result ≡ half_width number }
{
    4 * digits(u64::from(number)).max(2) as u8 + 3
}

/// How far it is from one lane to the next: beside a dot an arrow may turn to a border, and pass the dots of the next lane.
pub fn lane_distance(half: u8) -> u16
    ensures { result ≡ lane_distance half }
{
    LANE.max(4 * u16::from(half) + 4)
}

/// Where the first lane stands: if that isn't the lane of node 0, an arrow over a border may turn on its left.
pub fn first_lane(lanes: &Lanes, half: u8) -> u16
    ensures { result ≡ first_lane lanes.now half }
{
    if lanes.has(NodeId(0)) {
        FIRST_LANE
    } else {
        FIRST_LANE.max(turn_distance(Border::Lower, half) + 4)
    }
}

/// Half the width of a dot if these events are drawn.
pub fn dot_half<S: Subject>(subject: &S, first: u32, end: u32) -> u8
    requires ordered { first ≤ end }
    requires exist { end ≤ length (S.content subject.now).events }
    ensures { result ≡ half_width (greatest_number (S.content subject.now).shown (places_from first (end - first))) }
{
    half_width(greatest(subject, first, end))
}
