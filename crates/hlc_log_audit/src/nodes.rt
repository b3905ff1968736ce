ghost use Rattle.std.specs.Prelude.{◌≡◌, ◌<◌, ◌∷◌, [], OnOk, Some, codes, decimal, length};
ghost use Rattle.hlc_causality.specs.Causality.{skeleton_at};
ghost use Rattle.hlc_csv.specs.Rows.{AddsRow, AddsRows};
ghost use Rattle.hlc_ordered_log.specs.InOrder.{IsInOrder};
ghost use Rattle.hlc_log_audit.specs.Answers.{drift_fields};
ghost use Rattle.hlc_log_audit.specs.Report.{events_at, node_row, node_rows};
ghost use Rattle.hlc_log_audit.specs.Tally.{furthest_in};

use crate::drift::{DriftLines, drift_from};
use crate::tally::{NodeTally, tally_nodes};
use hlc_csv::RowField::{Number, Text};
use hlc_csv::{OutputFault, RowBuffer};
use hlc_execution::Execution;
use hlc_explain::Drift;
use hlc_log_text::{Files, Names, node_name};
use hlc_ordered_log::OrderedLog;
use hlc_stamp::{EventId, NodeId};
use std::alloc::Global;
use std::io::Write;

// The node of an event.
pub(crate) fn node_of(execution: &Execution, event: EventId) -> NodeId
    requires { event.0 < length execution.now.events }
    ensures { result.0 ≡ (skeleton_at execution.now.events event.0).node }
{
    execution.get(event).unwrap().node
}

// Adds the row of the node of a name with so many events, of which no reading is told.
fn push_undrifted<'a, W: Write>(
    rows: &mut RowBuffer,
    name: &'a [u8],
    events: u32,
    writer: &mut W,
) -> Result<(), OutputFault>
    ensures { OnOk result (AddsRow W.contents writer.old writer.new rows.old rows.new
        (codes "node" ∷ name.now ∷ decimal events ∷ codes "none" ∷ [])) }
{
    let (name, events) = (Text(name), Number(u64::from(events)));
    rows.push(&[Text(b"node"), name, events, Text(b"none")], writer)
}

// Adds the row of the node of a name with so many events and a drift, by how the lines of that are told.
fn push_fields<'a, W: Write>(
    rows: &mut RowBuffer,
    name: &'a [u8],
    events: u32,
    ahead: u64,
    lines: &'a DriftLines,
    writer: &mut W,
) -> Result<(), OutputFault>
    ensures { OnOk result (AddsRow W.contents writer.old writer.new rows.old rows.new
        (codes "node" ∷ name.now ∷ decimal events ∷ decimal ahead ∷ lines.now.event ∷ lines.now.origin ∷ [])) }
{
    let (word, name) = (Text(b"node"), Text(name));
    let (events, ahead) = (Number(u64::from(events)), Number(ahead));
    let (line, origin) = (lines.event.field(), lines.origin.field());
    rows.push(&[word, name, events, ahead, line, origin], writer)
}

// Adds the row of the node of a name with so many events and this drift.
fn push_drifted<W: Write>(
    rows: &mut RowBuffer,
    files: &Files,
    log: &OrderedLog,
    name: &[u8],
    events: u32,
    drift: Drift,
    writer: &mut W,
) -> Result<(), OutputFault>
    requires event { drift.event.0 < length log.now.events }
    requires origin { drift.origin.0 < length log.now.events }
    ensures { OnOk result (AddsRow W.contents writer.old writer.new rows.old rows.new
        (codes "node" ∷ name.now ∷ decimal events ∷ drift_fields files.now log.now (Some drift))) }
{
    let lines = DriftLines::new(files, log, drift)?;
    push_fields(rows, name, events, drift.ahead, &lines, writer)
}

// Adds the row of a node, of whose events this was counted.
fn push_node<W: Write>(
    rows: &mut RowBuffer,
    files: &Files,
    nodes: &Names,
    log: &OrderedLog,
    node: NodeId,
    tally: NodeTally,
    writer: &mut W,
) -> Result<(), OutputFault>
    requires ordered { IsInOrder log.now }
    requires events { tally.events ≡ events_at log.now node.0 }
    requires furthest { tally.furthest ≡ furthest_in log.now (length log.now.events) node.0 }
    ensures { OnOk result (AddsRow W.contents writer.old writer.new rows.old rows.new (node_row files.now nodes.now log.now node.0)) }
{
    let name = node_name(nodes, node);
    match drift_from(log, node, tally.furthest) {
        None => push_undrifted(rows, name, tally.events, writer),
        Some(drift) => push_drifted(rows, files, log, name, tally.events, drift, writer),
    }
}

// Adds the rows of the nodes, in the order of their numbers.
pub(crate) fn push_nodes<W: Write>(
    alloc: Global,
    rows: &mut RowBuffer,
    files: &Files,
    nodes: &Names,
    log: &OrderedLog,
    writer: &mut W,
) -> Result<(), OutputFault>
    requires ordered { IsInOrder log.now }
    requires nodes { log.now.nodes ≡ length nodes.now }
    ensures { OnOk result (AddsRows W.contents writer.old writer.new rows.old rows.new (node_rows files.now nodes.now log.now)) }
{
    let tallies = tally_nodes(alloc, log)?;
    for node in 0..nodes.len() {
        let tally = tallies[node];
        push_node(rows, files, nodes, log, NodeId(node as u16), tally, writer)?;
    }
    Ok(())
}
