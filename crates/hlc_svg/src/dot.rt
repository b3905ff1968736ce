// The dots of events.

ghost use Rattle.std.specs.Prelude.{◌≡◌, ◌*◌, ◌++◌, OnOk, Some, string_bytes};
ghost use Rattle.hlc_svg.specs.Shapes.{dot_begins, dot_ends, outline_text, reach_of, ring_if, ring_text, top_text};

use crate::frame::HALF_HEIGHT;
use crate::look::{Form, Look};
use crate::shapes::Point;
use hlc_stamp::EventId;
use std::alloc::AllocError;
use std::fmt;

// How much further than a dot the ring around it reaches, to each side.
pub(crate) const RING: u8 = 4;

/// The dot of an event, with its number, by which it is known in the picture, and the one that is shown on it.
#[derive(Clone, Copy)]
pub struct Dot {
    pub event: EventId,
    pub number: u32,
    pub shown: u32,
    pub at: Point,
    pub half: u8,
    pub look: Look,
    pub is_marked: bool,
}

/// How far a dot reaches to its sides, with the ring around it if it has one.
pub fn reach(look: Look, half: u8) -> u16
    ensures { result ≡ reach_of look half }
{
    if look.is_ringed {
        u16::from(half) + u16::from(RING)
    } else {
        u16::from(half)
    }
}

// How wide a dot is.
fn width(half: u8) -> u32
    ensures { result ≡ 2 * half }
{
    2 * u32::from(half)
}

// The upper side of a hexagon.
#[derive(Clone, Copy)]
struct Top {
    half: u8,
    inner: u8,
}

impl fmt::Display for Top {
    ghost output = { λ top. Some (top_text top.half top.inner) };

    fn fmt<W: fmt::Write>(&self, f: &mut fmt::Formatter<W>) -> fmt::Result {
        let (half, inner) = (self.half, self.inner);
        write!(f, "-{half},0 -{inner},-11 {inner},-11")
    }
}

// The outline of a dot, around its middle.
#[derive(Clone, Copy)]
struct Outline {
    form: Form,
    half: u8,
}

impl fmt::Display for Outline {
    ghost output = { λ outline. Some (outline_text outline.form outline.half) };

    fn fmt<W: fmt::Write>(&self, f: &mut fmt::Formatter<W>) -> fmt::Result {
        let (half, inner, width, height) = (
            self.half,
            self.half.saturating_sub(6),
            width(self.half),
            2 * HALF_HEIGHT,
        );
        match self.form {
            Form::Pill => write!(
                f,
                "<rect class=\"pill\" x=\"-{half}\" y=\"-{HALF_HEIGHT}\" width=\"{width}\" height=\"{height}\" rx=\"{HALF_HEIGHT}\"/>"
            ),
            Form::Box => write!(
                f,
                "<rect class=\"box\" x=\"-{half}\" y=\"-{HALF_HEIGHT}\" width=\"{width}\" height=\"{height}\" rx=\"2\"/>"
            ),
            Form::Hexagon => {
                let top = Top { half, inner };
                write!(
                    f,
                    "<polygon class=\"hexagon\" points=\"{top} {half},0 {inner},11 -{inner},11\"/>"
                )
            }
            Form::Slant => write!(
                f,
                "<polygon class=\"slant\" points=\"-{inner},-11 {half},-11 {inner},11 -{half},11\"/>"
            ),
            Form::Peak => write!(
                f,
                "<polygon class=\"peak\" points=\"-{half},-4 0,-11 {half},-4 {half},11 -{half},11\"/>"
            ),
            Form::Dip => write!(
                f,
                "<polygon class=\"dip\" points=\"-{half},-11 {half},-11 {half},4 0,11 -{half},4\"/>"
            ),
        }
    }
}

// The ring around a dot.
#[derive(Clone, Copy)]
struct Ring {
    half: u8,
}

impl fmt::Display for Ring {
    ghost output = { λ ring. Some (ring_text ring.half) };

    fn fmt<W: fmt::Write>(&self, f: &mut fmt::Formatter<W>) -> fmt::Result {
        let half = u32::from(self.half) + u32::from(RING);
        let width = 2 * half;
        write!(
            f,
            "<rect class=\"r\" x=\"-{half}\" y=\"-15\" width=\"{width}\" height=\"30\" rx=\"7\"/>"
        )
    }
}

/// Adds what comes before the title of a dot.
#[tactic(auto, unfolding(crate::specs::Shapes::dot_begins))]
pub fn put_dot_start(text: &mut String, dot: Dot) -> Result<(), AllocError>
    ensures { OnOk result (string_bytes text.new ≡ string_bytes text.old ++ dot_begins dot) }
{
    let class = if dot.is_marked { "k" } else { "d" };
    let (x, y, number) = (dot.at.x, dot.at.y, dot.number);
    write!(
        text,
        "<g id=\"e{number}\" class=\"{class}\" tabindex=\"0\" transform=\"translate({x},{y})\">"
    )
}

/// Adds the ring around a dot, if it has one.
pub fn put_ring(text: &mut String, dot: Dot) -> Result<(), AllocError>
    ensures { OnOk result (string_bytes text.new ≡ string_bytes text.old ++ ring_if dot.look.is_ringed dot.half) }
{
    if !dot.look.is_ringed {
        return Ok(());
    }
    let ring = Ring { half: dot.half };
    write!(text, "{ring}")
}

/// Adds the outline of a dot and the number that is shown on it.
#[tactic(auto, unfolding(crate::specs::Shapes::dot_ends))]
pub fn put_dot_end(text: &mut String, dot: Dot) -> Result<(), AllocError>
    ensures { OnOk result (string_bytes text.new ≡ string_bytes text.old ++ dot_ends dot) }
{
    let (outline, shown) = (
        Outline {
            form: dot.look.form,
            half: dot.half,
        },
        dot.shown,
    );
    write!(text, "{outline}<text y=\"4\">{shown}</text></g>\n")
}
