// Where things stand in a picture.

ghost use Rattle.std.specs.Prelude.{◌≡◌};
ghost use Rattle.hlc_svg.specs.Frame.{aside, beside, lane_x, row_of, row_y, towards, x_of, y_of};

use crate::shapes::Point;
use hlc_stamp::EventId;

/// Where the first lane stands at least, and how far it is from one lane to the next at least.
pub const FIRST_LANE: u16 = 50;

pub const LANE: u16 = 110;

/// How many characters of a node's name have room above its lane: half of them on its left, and no name comes near that of the next lane.
pub const NAME_ROOM: u8 = 12;

/// Where the first row stands, and how far it is from one row to the next.
pub const FIRST_ROW: u64 = 84;

pub const ROW: u64 = 34;

/// The least width of a picture, which has room for the caption.
pub const LEAST_PICTURE: u64 = 840;

// Half the height of a dot.
pub(crate) const HALF_HEIGHT: u8 = 11;

/// Where the headings of the columns stand, and the names of the nodes.
pub const HEADING_Y: u64 = 52;

/// The upper border: where the lanes begin.
pub const TOP: u64 = 60;

/// A lane, by its place: the first one is 0.
#[derive(Clone, Copy)]
pub struct LaneId(pub u16);

/// Where things stand in a picture: the events that are drawn, how many lanes there are, half the width of a dot, where the first
/// lane stands, and how far it is from one to the next.
#[derive(Clone, Copy)]
pub struct Frame {
    /// The events that are drawn are those from here on ..
    pub first: u32,
    /// .. and before this one.
    pub end: u32,
    /// The nodes of which it is a picture. Not each of them needs to have a lane.
    pub nodes: u16,
    pub lanes: u16,
    pub half: u8,
    pub first_lane: u16,
    pub lane_distance: u16,
    pub width: u64,
    pub height: u64,
}

/// The row in which an event stands.
pub fn row(frame: Frame, event: EventId) -> u32
    ensures { result ≡ row_of frame event.0 }
{
    event.0.saturating_sub(frame.first)
}

/// Where a lane stands, by where the first one does and how far it is from one to the next.
pub fn lane_x(first: u16, distance: u16, lane: LaneId) -> u32
    ensures { result ≡ lane_x first distance lane.0 }
{
    u32::from(first) + u32::from(distance) * u32::from(lane.0)
}

/// Where a lane stands.
pub fn x(frame: Frame, lane: LaneId) -> u32
    ensures { result ≡ x_of frame lane.0 }
{
    lane_x(frame.first_lane, frame.lane_distance, lane)
}

/// This far from a lane, to the left or to the right.
pub fn aside(frame: Frame, lane: LaneId, is_left: bool, distance: u16) -> u64
    ensures { result ≡ aside frame lane.0 is_left distance }
{
    let (x, distance) = (u64::from(x(frame, lane)), u64::from(distance));
    if is_left {
        x.saturating_sub(distance)
    } else {
        x + distance
    }
}

// This far from a lane towards another, or to the right if they are the same.
pub(crate) fn towards(frame: Frame, lane: LaneId, other: LaneId, distance: u16) -> u64
    ensures { result ≡ towards frame lane.0 other.0 distance }
{
    aside(frame, lane, other.0 < lane.0, distance)
}

// The point at this height where a dot on a lane would end on the side of another.
pub(crate) fn beside(frame: Frame, lane: LaneId, other: LaneId, y: u64) -> Point
    ensures { result ≡ beside frame lane.0 other.0 y }
{
    Point {
        x: towards(frame, lane, other, u16::from(frame.half)),
        y,
    }
}

/// Where a row stands.
pub fn row_y(row: u32) -> u64
    ensures { result ≡ row_y row }
{
    FIRST_ROW + ROW * u64::from(row)
}

/// Where an event's row stands.
pub fn y(frame: Frame, event: EventId) -> u64
    ensures { result ≡ y_of frame event.0 }
{
    row_y(row(frame, event))
}
