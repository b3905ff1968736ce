// The arrows of messages.

ghost use Rattle.std.specs.Prelude.{◌≡◌, ◌++◌, OnOk, string_bytes};
ghost use Rattle.hlc_svg.specs.Shapes.{arrow_begins, arrow_text};

use crate::route::{Route, put_points};
use crate::text::put;
use hlc_stamp::EventId;
use std::alloc::AllocError;

/// An arrow from the dot of a send to that of its delivery.
#[derive(Clone, Copy)]
pub struct Arrow {
    pub sent: EventId,
    pub delivered: EventId,
    pub route: Route,
    pub is_marked: bool,
}

// What comes before the points of an arrow.
fn put_start(text: &mut String, arrow: Arrow) -> Result<(), AllocError>
    ensures { OnOk result (string_bytes text.new ≡ string_bytes text.old ++ arrow_begins arrow) }
{
    let class = if arrow.is_marked { "p" } else { "m" };
    write!(text, "<polyline class=\"{class}\" points=\"")
}

/// Adds an arrow.
pub fn put_path(text: &mut String, arrow: Arrow) -> Result<(), AllocError>
    ensures { OnOk result (string_bytes text.new ≡ string_bytes text.old ++ arrow_text arrow) }
{
    put_start(text, arrow)?;
    put_points(text, arrow.route)?;
    put(text, "\"/>\n")
}
