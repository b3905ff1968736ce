// The picture of the history that a script leaves.

ghost use Rattle.std.specs.Prelude.{◌≡◌, ◌↔◌, ◌⊎◌, IfErr, IfOk, IsErrOf, IsSome, OnOk, map};
ghost use Rattle.std.specs.Io.KnownBytes.{Appends};
ghost use Rattle.hlc_arena.specs.Arena.{history_of};
ghost use Rattle.hlc_arena.specs.ClockRule.{HasLeastStamps};
ghost use Rattle.hlc_core.specs.State.{new_refusal};
ghost use Rattle.hlc_command_line.specs.CommandFault.{IsOfAnswer, IsOfInput};
ghost use Rattle.hlc_command_line.specs.declared.drawn_part.DrawnPart.TheVariants.{Chain, Rows};
ghost use Rattle.hlc_script_commands.specs.Drawn.{IsDrawnBut, IsDrawnWhole, IsScriptFor, LacksNamed, LeavesUndelivered, part_text, pictured_message, view_of};
ghost use Rattle.hlc_script_commands.specs.NoEvents.{IsNoteOn};
ghost use Rattle.hlc_script_commands.specs.TooLong.{IsScriptTooLong};

use crate::no_events::note_on;
use crate::nowhere::Nowhere;
use crate::script_stop::stop_of_text;
use hlc_arena::Arena;
use hlc_command_line::{CommandFault, DrawnPart, DrawnRows, NoEvents};
use hlc_csv::RecordsFault;
use hlc_picture::{Undelivered, View, draw_chain, draw_with, is_missing};
use hlc_stamp::{EventId, Settings};
use hlc_text::{Undelivered as LeftUndelivered, run_noting};
use std::alloc::{AllocError, Global};
use std::io::{Read, Write};

// The messages that a script leaves undelivered, as a picture shows them.
fn pictured(alloc: Global, messages: &[LeftUndelivered]) -> Result<Vec<Undelivered>, AllocError>
    ensures { IfOk result (λ pictured. pictured.items ≡ map pictured_message messages.now) }
{
    messages
        .iter()
        .map(|message| Undelivered {
            send: message.send,
            to: message.to,
            before: message.before,
        })
        .collect(alloc)
}

// What a script leaves: its history, and the messages that came to no node, and the note on it.
fn left_by_script<I: Read + Drop>(
    alloc: Global,
    reader: I,
    settings: Settings,
) -> Result<(Arena, Vec<Undelivered>, Option<NoEvents>), CommandFault>
    ensures left { IfOk result (λ left. LeavesUndelivered settings (I.remaining reader) (history_of left.0) left.1.items) }
    ensures noted { IfOk result (λ left. IsNoteOn settings (I.remaining reader) left.2) }
    ensures untold { IfErr result (λ fault. ¬ IsOfAnswer fault) }
    ensures too_long { IsErrOf result (CommandFault.Records RecordsFault.TooLong) → IsScriptTooLong (I.remaining reader) }
    ensures settings { IsErrOf result CommandFault.Settings ↔ IsSome (new_refusal settings.nodes settings.capacity) }
{
    match run_noting(alloc, reader, &mut Nowhere, settings) {
        Ok((ran, messages)) => {
            let undelivered = pictured(alloc, &messages)?;
            Ok((ran.history, undelivered, note_on(ran.counts)))
        }
        Err(fault) => Err(stop_of_text(fault)),
    }
}

// What is seen of a history of so many events by these rows. From an event on that isn't there none is.
fn view_of(count: u32, rows: DrawnRows<EventId>, explained: Option<EventId>) -> View
    ensures view { result ≡ view_of count rows explained }
    ensures chain { result.explained ≡ explained }
{
    match rows {
        DrawnRows::Between { from, to } => View::between(from, to, explained),
        DrawnRows::Around { event, rows } => {
            if event.0 < count {
                View::around(event, rows, count, explained)
            } else {
                View::between(Some(event), None, explained)
            }
        }
    }
}

// Draws some rows of the history that is left, and tells if the event to explain or that of the rows isn't there.
fn draw_rows<O: Write>(
    alloc: Global,
    history: &Arena,
    undelivered: &[Undelivered],
    rows: DrawnRows<EventId>,
    explained: Option<EventId>,
    writer: &mut O,
) -> Result<(), CommandFault>
    requires { HasLeastStamps history.now.events }
    ensures drawn { OnOk result (Appends (O.contents writer.old) (O.contents writer.new)
        (part_text (history_of history.now) undelivered.now (Rows rows explained))) }
    ensures there { OnOk result (¬ LacksNamed (history_of history.now) (Rows rows explained)) }
    ensures told { IfErr result (λ fault. IsOfAnswer fault → (fault ≡ CommandFault.NoEvent)
        × Appends (O.contents writer.old) (O.contents writer.new)
        (part_text (history_of history.now) undelivered.now (Rows rows explained))
        × LacksNamed (history_of history.now) (Rows rows explained)) }
    ensures read { IfErr result (λ fault. ¬ IsOfInput fault) }
    ensures settings { ¬ IsErrOf result CommandFault.Settings }
{
    let view = view_of(history.len(), rows, explained);
    draw_with(alloc, history, view, undelivered, writer)?;
    if is_missing(history, rows.event()) {
        return Err(CommandFault::NoEvent);
    }
    Ok(())
}

// Draws the chain of an event alone of the history that is left, and tells if the event isn't there.
fn draw_chain_of<O: Write>(
    alloc: Global,
    history: &Arena,
    undelivered: &[Undelivered],
    event: EventId,
    writer: &mut O,
) -> Result<(), CommandFault>
    requires { HasLeastStamps history.now.events }
    ensures drawn { OnOk result (Appends (O.contents writer.old) (O.contents writer.new)
        (part_text (history_of history.now) undelivered.now (Chain event))) }
    ensures there { OnOk result (¬ LacksNamed (history_of history.now) (Chain event)) }
    ensures told { IfErr result (λ fault. IsOfAnswer fault → (fault ≡ CommandFault.NoEvent)
        × Appends (O.contents writer.old) (O.contents writer.new)
        (part_text (history_of history.now) undelivered.now (Chain event))
        × LacksNamed (history_of history.now) (Chain event)) }
    ensures read { IfErr result (λ fault. ¬ IsOfInput fault) }
    ensures settings { ¬ IsErrOf result CommandFault.Settings }
{
    Ok(draw_chain(alloc, history, event, writer)?)
}

// Draws a part of the history that is left, and tells if an event that is named isn't there.
fn draw_part<O: Write>(
    alloc: Global,
    history: &Arena,
    undelivered: &[Undelivered],
    part: DrawnPart<EventId>,
    writer: &mut O,
) -> Result<(), CommandFault>
    requires { HasLeastStamps history.now.events }
    ensures drawn { OnOk result (Appends (O.contents writer.old) (O.contents writer.new)
        (part_text (history_of history.now) undelivered.now part)) }
    ensures there { OnOk result (¬ LacksNamed (history_of history.now) part) }
    ensures told { IfErr result (λ fault. IsOfAnswer fault → (fault ≡ CommandFault.NoEvent)
        × Appends (O.contents writer.old) (O.contents writer.new) (part_text (history_of history.now) undelivered.now part)
        × LacksNamed (history_of history.now) part) }
    ensures read { IfErr result (λ fault. ¬ IsOfInput fault) }
    ensures settings { ¬ IsErrOf result CommandFault.Settings }
{
    match part {
        DrawnPart::Rows { rows, explained } => draw_rows(
            alloc,
            history,
            undelivered,
            rows,
            explained,
            writer,
        ),
        DrawnPart::Chain { event } => draw_chain_of(alloc, history, undelivered, event, writer),
    }
}

/// Draws a part of the history that a script leaves: some rows, in which the messages are crossed out that it lost, or whose delivery a
/// drift limit refused, or the chain that forces the stamp of an event, and nothing else. If an event that is named isn't there, the
/// picture is drawn all the same, and says so; of rows about such an event, none is there. The note on the script is there if it has
/// records and leaves no event.
pub fn draw_script<I: Read + Drop, O: Write>(
    alloc: Global,
    reader: I,
    writer: &mut O,
    settings: Settings,
    part: DrawnPart<EventId>,
) -> Result<Option<NoEvents>, CommandFault>
    ensures done { OnOk result (IsDrawnWhole settings part (I.remaining reader) (O.contents writer.old) (O.contents writer.new)) }
    ensures told { IfErr result (λ fault. IsOfAnswer fault → IsDrawnBut fault settings part
        (I.remaining reader) (O.contents writer.old) (O.contents writer.new)) }
    ensures noted { IfOk result (IsNoteOn settings (I.remaining reader)) }
    ensures unread { IfErr result (λ fault. IsOfInput fault → writer.new ≡ writer.old) }
    ensures begun { (writer.new ≡ writer.old) ⊎ IsScriptFor settings (I.remaining reader) }
    ensures too_long { IsErrOf result (CommandFault.Records RecordsFault.TooLong) → IsScriptTooLong (I.remaining reader) }
    ensures settings { IsErrOf result CommandFault.Settings ↔ IsSome (new_refusal settings.nodes settings.capacity) }
{
    let (history, undelivered, note) = left_by_script(alloc, reader, settings)?;
    draw_part(alloc, &history, &undelivered, part, writer)?;
    Ok(note)
}
