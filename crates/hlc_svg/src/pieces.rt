// Pieces of a picture that are drawn if they are there.

ghost use Rattle.std.specs.Prelude.{◌≡◌, ◌++◌, ◌<◌, OnOk, string_bytes};
ghost use Rattle.hlc_svg.specs.Shapes.{if_drawn, arrow_text, band_text, end_text, link_text, number_text, numbers_text};

use crate::arrow::{Arrow, put_path};
use crate::frame::ROW;
use crate::shapes::{Band, End, Link, Numbered};
use std::alloc::AllocError;

/// Adds what lies behind a row.
pub fn put_band(text: &mut String, band: Option<Band>) -> Result<(), AllocError>
    ensures { OnOk result (string_bytes text.new ≡ string_bytes text.old ++ if_drawn band_text band) }
{
    let Some(Band { y, width }) = band else {
        return Ok(());
    };
    write!(
        text,
        "<rect class=\"b\" x=\"0\" y=\"{y}\" width=\"{width}\" height=\"{ROW}\"/>\n"
    )
}

/// Adds a step along a lane.
pub fn put_link(text: &mut String, link: Option<Link>) -> Result<(), AllocError>
    ensures { OnOk result (string_bytes text.new ≡ string_bytes text.old ++ if_drawn link_text link) }
{
    let Some(Link { x, from, to }) = link else {
        return Ok(());
    };
    write!(
        text,
        "<line class=\"v\" x1=\"{x}\" y1=\"{from}\" x2=\"{x}\" y2=\"{to}\"/>\n"
    )
}

/// Adds an arrow between two dots.
pub fn put_arrow(text: &mut String, arrow: Option<Arrow>) -> Result<(), AllocError>
    ensures { OnOk result (string_bytes text.new ≡ string_bytes text.old ++ if_drawn arrow_text arrow) }
{
    match arrow {
        Some(arrow) => put_path(text, arrow),
        None => Ok(()),
    }
}

/// Adds an arrow over a border.
pub fn put_end(text: &mut String, end: Option<End>) -> Result<(), AllocError>
    ensures { OnOk result (string_bytes text.new ≡ string_bytes text.old ++ if_drawn end_text end) }
{
    match end {
        Some(end) => write!(text, "{end}"),
        None => Ok(()),
    }
}

// Adds the number at an arrow over a border.
fn put_number(text: &mut String, end: Option<End>) -> Result<(), AllocError>
    ensures { OnOk result (string_bytes text.new ≡ string_bytes text.old ++ if_drawn number_text end) }
{
    let Some(end) = end else {
        return Ok(());
    };
    let numbered = Numbered { end };
    write!(text, "{numbered}")
}

/// Adds the numbers at the arrows over a border that come to a dot and leave it.
pub fn put_numbers(
    text: &mut String,
    entering: Option<End>,
    leaving: Option<End>,
) -> Result<(), AllocError>
    ensures { OnOk result (string_bytes text.new ≡ string_bytes text.old ++ numbers_text entering leaving) }
{
    put_number(text, entering)?;
    put_number(text, leaving)
}
