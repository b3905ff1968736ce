// What a picture is made of.

ghost use Rattle.std.specs.Prelude.{◌≡◌, ◌++◌, OnOk, Some, string_bytes};
ghost use Rattle.hlc_svg.specs.Path.{course_of, point_text, points_text};
ghost use Rattle.hlc_svg.specs.Shapes.{end_class, end_text, number_text, lane_line, name_begins};

use crate::frame::{HEADING_Y, TOP};
use hlc_stamp::{EventId, NodeId};
use std::alloc::AllocError;
use std::fmt;

/// A place in the picture, in pixels from its upper left corner.
#[derive(Clone, Copy)]
pub struct Point {
    pub x: u64,
    pub y: u64,
}

impl fmt::Display for Point {
    ghost output = { λ point. Some (point_text point) };

    fn fmt<W: fmt::Write>(&self, f: &mut fmt::Formatter<W>) -> fmt::Result {
        let (x, y) = (self.x, self.y);
        write!(f, "{x},{y}")
    }
}

/// The lane of a node.
#[derive(Clone, Copy)]
pub struct Lane {
    pub node: NodeId,
    pub x: u32,
    pub height: u64,
}

/// What lies behind the row of a marked event.
#[derive(Clone, Copy)]
pub struct Band {
    pub y: u64,
    pub width: u64,
}

/// A step of the marked chain along a lane, between two dots or between one and a border.
#[derive(Clone, Copy)]
pub struct Link {
    pub x: u32,
    pub from: u64,
    pub to: u64,
}

/// The border that an arrow crosses whose other end isn't drawn.
#[derive(Clone, Copy)]
pub enum Border {
    /// The upper one, which it comes in over.
    Upper,
    /// The lower one, which it leaves over.
    Lower,
}

/// An arrow whose other end isn't drawn. It runs along the row of a dot, from where it turns or to there, and up to the border.
#[derive(Clone, Copy)]
pub struct End {
    pub border: Border,
    /// The side of the dot.
    pub x: u64,
    /// Where the number stands of the event at the other end.
    pub number_x: u64,
    /// Where it turns.
    pub turn_x: u64,
    pub y: u64,
    /// Where the border is.
    pub border_y: u64,
    /// The event at the other end, and its number.
    pub event: EventId,
    pub number: u32,
    pub is_marked: bool,
}

// The line of such an arrow, which ends in its head.
#[derive(Clone, Copy)]
struct Course {
    end: End,
}

impl fmt::Display for Course {
    ghost output = { λ course. Some (points_text (course_of course.end)) };

    fn fmt<W: fmt::Write>(&self, f: &mut fmt::Formatter<W>) -> fmt::Result {
        let End {
            border,
            x,
            turn_x,
            y,
            border_y,
            ..
        } = self.end;
        let (dot, turn, border_end) = (
            Point { x, y },
            Point { x: turn_x, y },
            Point {
                x: turn_x,
                y: border_y,
            },
        );
        let (first, last) = match border {
            Border::Upper => (border_end, dot),
            Border::Lower => (dot, border_end),
        };
        write!(f, "{first} {turn} {last}")
    }
}

// The class of an arrow over a border: what leaves has its head where it turns, and what comes in at the dot.
fn end_class(border: Border, is_marked: bool) -> &'static str
    ensures { result.now ≡ end_class border is_marked }
{
    match (border, is_marked) {
        (Border::Upper, false) => "e",
        (Border::Upper, true) => "q",
        (Border::Lower, false) => "o",
        (Border::Lower, true) => "s",
    }
}

impl fmt::Display for End {
    ghost output = { λ s. Some (end_text s) };

    fn fmt<W: fmt::Write>(&self, f: &mut fmt::Formatter<W>) -> fmt::Result {
        let class = end_class(self.border, self.is_marked);
        let course = Course { end: *self };
        write!(f, "<polyline class=\"{class}\" points=\"{course}\"/>\n")
    }
}

// The number at such an arrow.
#[derive(Clone, Copy)]
pub(crate) struct Numbered {
    pub(crate) end: End,
}

impl fmt::Display for Numbered {
    ghost output = { λ numbered. Some (number_text numbered.end) };

    fn fmt<W: fmt::Write>(&self, f: &mut fmt::Formatter<W>) -> fmt::Result {
        let (x, y, number) = (
            self.end.number_x,
            self.end.y.saturating_sub(3),
            self.end.number,
        );
        write!(f, "<text class=\"f\" x=\"{x}\" y=\"{y}\">{number}</text>\n")
    }
}

/// What comes before the whole name of a node, which is the title of its heading.
pub fn put_lane_start(text: &mut String, lane: Lane) -> Result<(), AllocError>
    ensures { OnOk result (string_bytes text.new ≡ string_bytes text.old ++ name_begins lane) }
{
    let x = lane.x;
    write!(
        text,
        "<text class=\"n\" x=\"{x}\" y=\"{HEADING_Y}\"><title>"
    )
}

/// What comes after the name that is shown: the lane.
pub fn put_lane_line(text: &mut String, lane: Lane) -> Result<(), AllocError>
    ensures { OnOk result (string_bytes text.new ≡ string_bytes text.old ++ lane_line lane) }
{
    let (x, height) = (lane.x, lane.height);
    write!(
        text,
        "</text><line class=\"l\" x1=\"{x}\" y1=\"{TOP}\" x2=\"{x}\" y2=\"{height}\"/>\n"
    )
}
