// A caller of `hlc_log_picture`.

ghost use Rattle.std.specs.Prelude.{◌≡◌, IfOk, None};
ghost use Rattle.hlc_diagram.specs.Picture.{picture_text};
ghost use Rattle.hlc_diagram.specs.View.{view_between};
ghost use Rattle.hlc_log_picture.specs.Drawn.{DrawnLog, drawn_log};
ghost use Rattle.hlc_log_picture.specs.StampOrder.{IsInStampOrder};

use hlc_causality::Receives;
use hlc_log_picture::{DrawFault, PicturedLog, View, draw, put_in_row_order};
use hlc_open_log::OpenLog;
use std::alloc::Global;

/// The picture of a log, which is put in the order of the rows: where receives tick that of its least stamps.
pub fn draw_log(alloc: Global, log: &mut OpenLog) -> Result<Vec<u8>, DrawFault>
    ensures { IfOk result (λ svg. (drawn : DrawnLog) × (drawn.log.events ≡ log.old.log.events)
        × (log.old.log.receives ≡ Receives.Tick → IsInStampOrder drawn.log)
        × (svg.items ≡ picture_text (drawn_log drawn (view_between None None None)))) }
{
    put_in_row_order(alloc, log)?;
    let pictured = PicturedLog::new(alloc, log)?;
    let mut svg = Vec::new(alloc);
    draw(alloc, &pictured, View::between(None, None, None), &mut svg)?;
    Ok(svg)
}
