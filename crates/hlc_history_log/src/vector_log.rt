// The history with the vectors of its events.

ghost use Rattle.std.specs.Prelude.{◌≡◌, ◌++◌, ◌<◌, [], OnOk, length, option_map};
ghost use Rattle.std.specs.Io.KnownBytes.{Appends};
ghost use Rattle.hlc_arena.specs.Arena.{IsWellFormed, history_of};
ghost use Rattle.hlc_arena.specs.History.{causality_of};
ghost use Rattle.hlc_arena.specs.Kinds.{stamped_event_of};
ghost use Rattle.hlc_csv.specs.Rows.{text_of_row};
ghost use Rattle.hlc_explain.specs.Vectors.{vectors_of};
ghost use Rattle.hlc_history_log.specs.LogRows.{row_with};
ghost use Rattle.hlc_history_log.specs.VectorText.{event_text, vector_text};

use crate::label::put_label;
use crate::row::push_row;
use hlc_arena::{Arena, Record};
use hlc_csv::{OutputFault, RowBuffer};
use hlc_explain::{NodeTexts, Vectors, hand_out, plain, put_vector_line, spill, vectors};
use hlc_stamp::EventId;
use itoa::Buffer;
use std::alloc::{AllocError, Global};
use std::io::Write;

// Nodes that go by their numbers.
#[derive(Clone, Copy)]
struct Numbers;

impl NodeTexts for Numbers {
    ghost use Rattle.std.specs.Prelude.{decimal};

    ghost text_of = { λ _ number. decimal number };

    fn put_node(&self, text: &mut Vec<u8>, number: usize) -> Result<(), AllocError> {
        text.extend_from_slice(Buffer::new().format(number).as_bytes())
    }
}

// Adds the row of an event that is told of so, with a label if there is one.
fn put_row(
    alloc: Global,
    text: &mut Vec<u8>,
    event: EventId,
    told: &Record<'_>,
    label: Option<&[u8]>,
) -> Result<(), AllocError>
    ensures { OnOk result (text.new.items ≡ text.old.items
        ++ text_of_row (row_with event.0 (stamped_event_of told.now) (option_map (λ label. label.now) label.entry))) }
{
    let mut rows = RowBuffer::new(alloc);
    if push_row(&mut rows, event, told, label, text).is_err() || rows.finish(text).is_err() {
        return Err(AllocError);
    }
    Ok(())
}

// Adds the lines of an event, over a text for its label.
fn put_event(
    alloc: Global,
    text: &mut Vec<u8>,
    label: &mut Vec<u8>,
    history: &Arena,
    vectors: &Vectors,
    event: EventId,
) -> Result<(), AllocError>
    requires exists { event.0 < length history.now.events }
    requires well_formed { IsWellFormed (history_of history.now) }
    requires vectors { vectors.now ≡ vectors_of (causality_of history.now.events) history.now.nodes }
    ensures { OnOk result (text.new.items ≡ text.old.items ++ event_text history.now.nodes history.now.events event.0) }
{
    let record = history.get(event).unwrap();
    put_vector_line(text, &Numbers, record.node, vectors.vector(event))?;
    put_label(label, history, event)?;
    put_row(alloc, text, event, &record, plain(label.as_slice()))
}

// Writes the lines of all events, over a text for them and one for their labels, of which nothing is written yet. Whoever owns these has few ways
// out, on which they are dropped.
fn write_events<W: Write>(
    alloc: Global,
    text: &mut Vec<u8>,
    label: &mut Vec<u8>,
    history: &Arena,
    vectors: &Vectors,
    writer: &mut W,
) -> Result<(), OutputFault>
    requires empty { text.old.items ≡ [] }
    requires vectors { vectors.now ≡ vectors_of (causality_of history.now.events) history.now.nodes }
    ensures { OnOk result (Appends (W.contents writer.old) (W.contents writer.new) (vector_text history.now.nodes history.now.events)) }
{
    for event in 0..history.len() {
        put_event(alloc, text, label, history, vectors, EventId(event))?;
        spill(text, writer)?;
    }
    hand_out(text, writer)
}

/// Writes a history as a log in which each row stands below a line with the event's node and vector, as ShiViz and other tools that draw
/// logs read them: `NODE {"NODE":COUNT, "NODE":COUNT}`, with the nodes of which the vector counts events.
///
/// The rows are those of `write_log`, but a label with a byte other than printable ASCII is left out, so that each event has two lines. It
/// takes memory for a number for each event and node. After a fault nothing is promised of what the writer got.
pub fn write_vectors<W: Write>(
    alloc: Global,
    history: &Arena,
    writer: &mut W,
) -> Result<(), OutputFault>
    ensures { OnOk result (Appends (W.contents writer.old) (W.contents writer.new) (vector_text history.now.nodes history.now.events)) }
{
    let vectors = vectors(alloc, history.execution())?;
    let mut text = Vec::new(alloc);
    let mut label = Vec::new(alloc);
    write_events(alloc, &mut text, &mut label, history, &vectors, writer)
}
