// The log with the vectors of its events.

ghost use Rattle.std.specs.Prelude.{◌≡◌, ◌++◌, ◌<◌, [], OnOk, length, option_map};
ghost use Rattle.std.specs.Io.KnownBytes.{Appends};
ghost use Rattle.hlc_explain.specs.Vectors.{vectors_of};
ghost use Rattle.hlc_ordered_log.specs.InOrder.{skeleton_of};
ghost use Rattle.hlc_log_picture.specs.LogVectors.{event_text, log_vector_text, plain_label};

use crate::event_row::put_row;
use crate::node_names::NodeNames;
use hlc_csv::OutputFault;
use hlc_explain::{NodeTexts, Vectors, hand_out, plain, put_vector_line, spill, vectors};
use hlc_open_log::OpenLog;
use hlc_stamp::EventId;
use std::alloc::{AllocError, Global};
use std::io::Write;

// The label of the event at a place, if it has one and that is plain.
fn plain_label(log: &OpenLog, place: EventId) -> Option<&[u8]>
    ensures { option_map (λ label. label.now) result ≡ plain_label log.now.labels place.0 }
{
    let label = log.label(place)?;
    plain(label)
}

// Adds the lines of the event at a position, over a text for its node.
fn put_event(
    alloc: Global,
    text: &mut Vec<u8>,
    node: &mut Vec<u8>,
    log: &OpenLog,
    vectors: &Vectors,
    position: EventId,
) -> Result<(), AllocError>
    requires exists { position.0 < length log.now.log.events }
    requires vectors { vectors.now ≡ vectors_of (skeleton_of log.now.log) log.now.log.nodes }
    ensures { OnOk result (text.new.items ≡ text.old.items ++ event_text log.now position.0) }
{
    let ordered = log.ordered();
    let nodes = NodeNames { names: log.nodes() };
    let event = ordered.event(position);
    put_vector_line(text, &nodes, event.node, vectors.vector(position))?;
    node.clear();
    nodes.put_node(node, event.node.0 as usize)?;
    let label = plain_label(log, ordered.place(position));
    put_row(alloc, text, log.files(), node.as_slice(), event, label)
}

// Writes the lines of all events, over a text for them and one for their nodes, of which nothing is written yet. Whoever owns these has few ways
// out, on which they are dropped.
fn write_events<W: Write>(
    alloc: Global,
    text: &mut Vec<u8>,
    node: &mut Vec<u8>,
    log: &OpenLog,
    vectors: &Vectors,
    writer: &mut W,
) -> Result<(), OutputFault>
    requires empty { text.old.items ≡ [] }
    requires vectors { vectors.now ≡ vectors_of (skeleton_of log.now.log) log.now.log.nodes }
    ensures { OnOk result (Appends (W.contents writer.old) (W.contents writer.new) (log_vector_text log.now)) }
{
    for position in 0..log.ordered().len() {
        put_event(alloc, text, node, log, vectors, EventId(position))?;
        spill(text, writer)?;
    }
    hand_out(text, writer)
}

/// Writes a log with the vectors of its events, as ShiViz and other tools that draw logs read it: for each event, in the causal order that the
/// log is in, the line `NODE {"NODE":COUNT, "NODE":COUNT}`, with the nodes of which the vector counts events, and the row
/// `WORD,LINE,NODE,READING,L,C` with its label behind it, if it has one that is printable ASCII. In a file, LINE is `NAME:LINE`. What the log
/// doesn't tell is empty.
///
/// A node goes by its name. If that has a blank, a quotation mark, a backslash, a tilde or a byte other than printable ASCII, an underscore stands
/// for it, and the name ends with a tilde and the node's number. It takes memory for a number for each event and node. After a fault
/// nothing is promised of what the writer got.
pub fn write_log_vectors<W: Write>(
    alloc: Global,
    log: &OpenLog,
    writer: &mut W,
) -> Result<(), OutputFault>
    ensures { OnOk result (Appends (W.contents writer.old) (W.contents writer.new) (log_vector_text log.now)) }
{
    let vectors = vectors(alloc, log.ordered().execution())?;
    let mut text = Vec::new(alloc);
    let mut node = Vec::new(alloc);
    write_events(alloc, &mut text, &mut node, log, &vectors, writer)
}
