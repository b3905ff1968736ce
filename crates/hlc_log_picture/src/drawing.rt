// The picture of a log.

ghost use Rattle.std.specs.Prelude.{IsErrOf, OnOk, Some};
ghost use Rattle.std.specs.Io.KnownBytes.{Appends};
ghost use Rattle.hlc_diagram.specs.Chosen.{IsMissing};
ghost use Rattle.hlc_diagram.specs.Picture.{picture_text};
ghost use Rattle.hlc_log_picture.specs.Drawn.{drawn_log, drawn_log_chain};

use crate::pictured_log::PicturedLog;
use hlc_diagram::{DrawFault, View};
use hlc_stamp::EventId;
use std::alloc::Global;
use std::io::Write;

/// Draws a log, or a part of it, as SVG.
///
/// It takes memory for the chain and for a mark for each event that is drawn, and time linear in these and in the deliveries of
/// what is sent there. After a fault of the writer or of memory nothing is promised of what the writer got.
pub fn draw<W: Write>(
    alloc: Global,
    log: &PicturedLog<'_>,
    view: View,
    writer: &mut W,
) -> Result<(), DrawFault>
    // What the writer got is the picture of the log.
    ensures drawn { OnOk result (Appends (W.contents writer.old) (W.contents writer.new) (picture_text (drawn_log log.now view))) }

    // The same holds if the event to explain doesn't exist: the picture says so.
    ensures drawn_without { IsErrOf result DrawFault.NoEvent → Appends (W.contents writer.old) (W.contents writer.new)
        (picture_text (drawn_log log.now view)) }
    ensures no_event { IsErrOf result DrawFault.NoEvent → IsMissing log.now.log.events view.explained }
    ensures event { OnOk result (¬ IsMissing log.now.log.events view.explained) }
{
    let _ordered = log.len();
    hlc_diagram::draw(alloc, log, view, writer)
}

/// Draws the chain that forces the least stamp of the event in a row, and nothing else: a row for each of its events, and between two that
/// aren't next to one another one that says how many lie there.
///
/// It takes memory linear in the rows, and time linear in the events from the first of the chain to the last. After a fault of the
/// writer or of memory nothing is promised of what the writer got.
pub fn draw_chain<W: Write>(
    alloc: Global,
    log: &PicturedLog<'_>,
    row: EventId,
    writer: &mut W,
) -> Result<(), DrawFault>
    // What the writer got is the picture of the chain.
    ensures drawn { OnOk result (Appends (W.contents writer.old) (W.contents writer.new)
        (picture_text (drawn_log_chain log.now row))) }

    // The same holds if there is no such row: the picture says so.
    ensures drawn_without { IsErrOf result DrawFault.NoEvent → Appends (W.contents writer.old) (W.contents writer.new)
        (picture_text (drawn_log_chain log.now row)) }
    ensures no_event { IsErrOf result DrawFault.NoEvent → IsMissing log.now.log.events (Some row) }
    ensures event { OnOk result (¬ IsMissing log.now.log.events (Some row)) }
{
    let _ordered = log.len();
    hlc_diagram::draw_chain(alloc, log, row, writer)
}
