// The log of the history that a script leaves.

ghost use Rattle.std.specs.Prelude.{◌≡◌, ◌↔◌, ◌⊎◌, IfErr, IfOk, IsErrOf, IsSome, OnOk};
ghost use Rattle.std.specs.Io.KnownBytes.{Appends};
ghost use Rattle.hlc_arena.specs.Arena.{history_of};
ghost use Rattle.hlc_core.specs.State.{new_refusal};
ghost use Rattle.hlc_command_line.specs.CommandFault.{IsOfAnswer, IsOfInput};
ghost use Rattle.hlc_script_commands.specs.Drawn.{IsScriptFor, LeavesHistory};
ghost use Rattle.hlc_script_commands.specs.NoEvents.{IsNoteOn};
ghost use Rattle.hlc_script_commands.specs.TooLong.{IsScriptTooLong};
ghost use Rattle.hlc_script_commands.specs.Traced.{IsScriptTraced, trace_text};

use crate::no_events::note_on;
use crate::nowhere::Nowhere;
use crate::script_stop::stop_of_text;
use hlc_arena::Arena;
use hlc_command_line::{CommandFault, NoEvents};
use hlc_csv::{OutputFault, RecordsFault};
use hlc_history_log::{write_log, write_vectors};
use hlc_stamp::Settings;
use hlc_text::{Ran, run};
use std::alloc::Global;
use std::io::{Read, Write};

// The history that a script leaves, and the note on it.
fn history_by_script<I: Read + Drop>(
    alloc: Global,
    reader: I,
    settings: Settings,
) -> Result<(Arena, Option<NoEvents>), CommandFault>
    ensures left { IfOk result (λ left. LeavesHistory settings (I.remaining reader) (history_of left.0)) }
    ensures noted { IfOk result (λ left. IsNoteOn settings (I.remaining reader) left.1) }
    ensures untold { IfErr result (λ fault. ¬ IsOfAnswer fault) }
    ensures too_long { IsErrOf result (CommandFault.Records RecordsFault.TooLong) → IsScriptTooLong (I.remaining reader) }
    ensures settings { IsErrOf result CommandFault.Settings ↔ IsSome (new_refusal settings.nodes settings.capacity) }
{
    match run(alloc, reader, &mut Nowhere, settings) {
        Ok(Ran { history, counts }) => Ok((history, note_on(counts))),
        Err(fault) => Err(stop_of_text(fault)),
    }
}

// Writes a history as a log, with the vectors of its events or without.
fn write_trace<O: Write>(
    alloc: Global,
    history: &Arena,
    writer: &mut O,
    vector: bool,
) -> Result<(), OutputFault>
    ensures { OnOk result (Appends (O.contents writer.old) (O.contents writer.new) (trace_text vector history.now.nodes history.now.events)) }
{
    if vector {
        write_vectors(alloc, history, writer)
    } else {
        write_log(alloc, history, writer)
    }
}

/// Writes the history that a script leaves as a log. Nothing is written before the whole script is answered. The note on the script is
/// there if it has records and leaves no event.
pub fn trace_script<I: Read + Drop, O: Write>(
    alloc: Global,
    reader: I,
    writer: &mut O,
    settings: Settings,
    vector: bool,
) -> Result<Option<NoEvents>, CommandFault>
    ensures done { OnOk result (IsScriptTraced settings vector (I.remaining reader) (O.contents writer.old) (O.contents writer.new)) }
    ensures untold { IfErr result (λ fault. ¬ IsOfAnswer fault) }
    ensures noted { IfOk result (IsNoteOn settings (I.remaining reader)) }
    ensures unread { IfErr result (λ fault. IsOfInput fault → writer.new ≡ writer.old) }
    ensures begun { (writer.new ≡ writer.old) ⊎ IsScriptFor settings (I.remaining reader) }
    ensures too_long { IsErrOf result (CommandFault.Records RecordsFault.TooLong) → IsScriptTooLong (I.remaining reader) }
    ensures settings { IsErrOf result CommandFault.Settings ↔ IsSome (new_refusal settings.nodes settings.capacity) }
{
    let (history, note) = history_by_script(alloc, reader, settings)?;
    write_trace(alloc, &history, writer, vector)?;
    Ok(note)
}
