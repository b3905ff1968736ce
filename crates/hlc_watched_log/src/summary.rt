// The rows that sum a log up.

ghost use Rattle.std.specs.Prelude.{◌++◌, ◌<◌, ◌^◌, OnOk, length};
ghost use Rattle.std.specs.Io.KnownBytes.{Appends};
ghost use Rattle.hlc_csv.specs.Rows.{AddsRow, AddsRows, text_of};
ghost use Rattle.hlc_watched_log.specs.Summary.{count_rows, node_rows, tally_row};
ghost use Rattle.hlc_watched_log.specs.Skews.{skew_rows};

use crate::log_names::LogNames;
use crate::node_tally::NodeTally;
use crate::skews::{ShownSkews, push_skews};
use crate::watch_counts::WatchCounts;
use hlc_csv::RowField::{Number, Text};
use hlc_csv::{OutputFault, RowBuffer};
use hlc_stamp::NodeId;
use std::alloc::Global;
use std::io::Write;

// Adds the row of a node.
fn push_node<W: Write>(
    alloc: Global,
    rows: &mut RowBuffer,
    names: &LogNames,
    node: NodeId,
    tally: NodeTally,
    writer: &mut W,
) -> Result<(), OutputFault>
    ensures { OnOk result (AddsRow W.contents writer.old writer.new rows.old rows.new (tally_row names.now node.0 tally)) }
{
    let name = Text(names.node(node));
    let events = Number(tally.events);
    match tally.furthest {
        None => rows.push(&[Text(b"node"), name, events, Text(b"none")], writer),
        Some(far) => {
            let line = names.line(alloc, far.line)?;
            let (word, ahead) = (Text(b"node"), Number(far.ahead));
            rows.push(&[word, name, events, ahead, line.field()], writer)
        }
    }
}

// Adds the rows of all nodes.
fn push_nodes<W: Write>(
    alloc: Global,
    rows: &mut RowBuffer,
    names: &LogNames,
    tallies: &[NodeTally],
    writer: &mut W,
) -> Result<(), OutputFault>
    requires { length tallies.now < 2 ^ 16 }
    ensures { OnOk result (AddsRows W.contents writer.old writer.new rows.old rows.new (node_rows names.now tallies.now)) }
{
    for node in 0..tallies.len() {
        push_node(
            alloc,
            rows,
            names,
            NodeId(node as u16),
            tallies[node],
            writer,
        )?;
    }
    Ok(())
}

// Adds the rows of what was counted, of so many receives that wait, and so many that were forgotten.
fn push_counts<W: Write>(
    rows: &mut RowBuffer,
    counts: WatchCounts,
    waiting: u32,
    forgotten: u64,
    writer: &mut W,
) -> Result<(), OutputFault>
    ensures { OnOk result (AddsRows W.contents writer.old writer.new rows.old rows.new (count_rows counts waiting forgotten)) }
{
    rows.push_numbers(b"messages", &[counts.sent, counts.received], None, writer)?;
    rows.push_numbers(b"waiting", &[u64::from(waiting)], None, writer)?;
    rows.push_numbers(b"forgotten", &[forgotten], None, writer)?;
    rows.push_numbers(b"left-out", &[counts.left_out], None, writer)
}

// Writes the rows that sum a log up, and flushes the writer.
pub(crate) fn write_summary<W: Write>(
    alloc: Global,
    names: &LogNames,
    tallies: &[NodeTally],
    skews: &ShownSkews,
    counts: WatchCounts,
    waiting: u32,
    forgotten: u64,
    writer: &mut W,
) -> Result<(), OutputFault>
    requires { length tallies.now < 2 ^ 16 }
    ensures { OnOk result (Appends (W.contents writer.old) (W.contents writer.new)
        (text_of (node_rows names.now tallies.now ++ (count_rows counts waiting forgotten ++ skew_rows names.now skews.now.entries)))) }
{
    let mut rows = RowBuffer::new(alloc);
    push_nodes(alloc, &mut rows, names, tallies, writer)?;
    push_counts(&mut rows, counts, waiting, forgotten, writer)?;
    push_skews(alloc, &mut rows, names, skews, writer)?;
    rows.finish(writer)
}
