// The picture of a history.

ghost use Rattle.std.specs.Prelude.{◌≡◌, ◌↔◌, IsErrOf, IsTrue, OnOk, Some};
ghost use Rattle.std.specs.Io.KnownBytes.{Appends};
ghost use Rattle.hlc_arena.specs.Arena.{history_of};
ghost use Rattle.hlc_arena.specs.ClockRule.{HasLeastStamps};
ghost use Rattle.hlc_diagram.specs.Chosen.{IsMissing};
ghost use Rattle.hlc_diagram.specs.Picture.{picture_text};
ghost use Rattle.hlc_picture.specs.Drawn.{drawn, drawn_chain, drawn_with};

use crate::pictured_history::PicturedHistory;
use hlc_arena::Arena;
use hlc_diagram::{DrawFault, Undelivered, View};
use hlc_stamp::EventId;
use std::alloc::Global;
use std::io::Write;

/// Whether an event is named that the history doesn't have.
pub fn is_missing(history: &Arena, event: Option<EventId>) -> bool
    ensures { IsTrue result ↔ IsMissing history.now.events event }
{
    match event {
        Some(event) => event.0 >= history.len(),
        None => false,
    }
}

/// Draws a history, or a part of it, as SVG.
///
/// It takes memory for the chain and for a mark for each event that is drawn, and time linear in these and in the deliveries of
/// what is sent there. After a fault of the writer or of memory nothing is promised of what the writer got.
pub fn draw<W: Write>(
    alloc: Global,
    history: &Arena,
    view: View,
    writer: &mut W,
) -> Result<(), DrawFault>
    requires { HasLeastStamps history.now.events }

    // What the writer got is the picture of the history.
    ensures drawn { OnOk result (Appends (W.contents writer.old) (W.contents writer.new)
        (picture_text (drawn (history_of history.now) view))) }

    // The same holds if the event to explain doesn't exist: the picture says so.
    ensures drawn_without { IsErrOf result DrawFault.NoEvent → Appends (W.contents writer.old) (W.contents writer.new)
        (picture_text (drawn (history_of history.now) view)) }
    ensures no_event { IsErrOf result DrawFault.NoEvent → IsMissing history.now.events view.explained }
    ensures event { OnOk result (¬ IsMissing history.now.events view.explained) }
{
    let pictured = PicturedHistory { history };
    hlc_diagram::draw(alloc, &pictured, view, writer)
}

/// Draws a history, or a part of it, as SVG, with the messages that didn't arrive. If the send of such a message is drawn, and so is
/// the last event before it failed to arrive, an arrow runs from the send towards the lane of its target and ends in a cross, above the
/// row of the next event.
///
/// It takes memory and time as `draw` does, and time linear in these messages. After a fault of the writer or of memory nothing is
/// promised of what the writer got.
pub fn draw_with<W: Write>(
    alloc: Global,
    history: &Arena,
    view: View,
    undelivered: &[Undelivered],
    writer: &mut W,
) -> Result<(), DrawFault>
    requires { HasLeastStamps history.now.events }

    // What the writer got is the picture of the history.
    ensures drawn { OnOk result (Appends (W.contents writer.old) (W.contents writer.new)
        (picture_text (drawn_with (history_of history.now) view undelivered.now))) }

    // The same holds if the event to explain doesn't exist: the picture says so.
    ensures drawn_without { IsErrOf result DrawFault.NoEvent → Appends (W.contents writer.old) (W.contents writer.new)
        (picture_text (drawn_with (history_of history.now) view undelivered.now)) }
    ensures no_event { IsErrOf result DrawFault.NoEvent → IsMissing history.now.events view.explained }
    ensures event { OnOk result (¬ IsMissing history.now.events view.explained) }
{
    let pictured = PicturedHistory { history };
    hlc_diagram::draw_with(alloc, &pictured, view, undelivered, writer)
}

/// Draws the chain that forces the stamp of an event of a history, and nothing else: a row for each of its events, and between two
/// that aren't next to one another one that says how many lie there.
///
/// It takes memory linear in the rows, and time linear in the events from the first of the chain to the last. After a fault of the
/// writer or of memory nothing is promised of what the writer got.
pub fn draw_chain<W: Write>(
    alloc: Global,
    history: &Arena,
    event: EventId,
    writer: &mut W,
) -> Result<(), DrawFault>
    requires { HasLeastStamps history.now.events }

    // What the writer got is the picture of the chain.
    ensures drawn { OnOk result (Appends (W.contents writer.old) (W.contents writer.new)
        (picture_text (drawn_chain (history_of history.now) event))) }

    // The same holds if there is no such event: the picture says so.
    ensures drawn_without { IsErrOf result DrawFault.NoEvent → Appends (W.contents writer.old) (W.contents writer.new)
        (picture_text (drawn_chain (history_of history.now) event)) }
    ensures no_event { IsErrOf result DrawFault.NoEvent → IsMissing history.now.events (Some event) }
    ensures event { OnOk result (¬ IsMissing history.now.events (Some event)) }
{
    let pictured = PicturedHistory { history };
    hlc_diagram::draw_chain(alloc, &pictured, event, writer)
}
