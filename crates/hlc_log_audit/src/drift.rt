ghost use Rattle.std.specs.Prelude.{◌≡◌, ◌<◌, ◌∷◌, [], IfOk, IfSome, OnOk, Some, codes, decimal, length, position};
ghost use Rattle.std.specs.Str.{bytes_eq};
ghost use Rattle.hlc_csv.specs.Rows.{AddsRow};
ghost use Rattle.hlc_ordered_log.specs.InOrder.{IsInOrder};
ghost use Rattle.hlc_log_audit.specs.Answers.{drift_fields, drift_in, drift_row, told_in};
ghost use Rattle.hlc_log_audit.specs.Tally.{AreTallies, furthest_in};

use crate::lines::told_line;
use crate::tally::{Furthest, NodeTally};
use crate::words::push_missing;
use hlc_csv::RowField::{Number, Text};
use hlc_csv::{OutputFault, RowBuffer};
use hlc_explain::{Drift, Missing};
use hlc_log_text::{Files, LineText};
use hlc_open_log::OpenLog;
use hlc_ordered_log::OrderedLog;
use hlc_stamp::NodeId;
use std::alloc::AllocError;
use std::io::Write;

// How the lines of a drift are told: where its event stands, and where it began.
#[derive(Drop)]
pub(crate) struct DriftLines {
    pub(crate) event: LineText,
    pub(crate) origin: LineText,
}

impl DriftLines {
    pub(crate) fn new(
        files: &Files,
        log: &OrderedLog,
        drift: Drift,
    ) -> Result<DriftLines, AllocError>
        requires event { drift.event.0 < length log.now.events }
        requires origin { drift.origin.0 < length log.now.events }
        ensures event { IfOk result (λ lines. lines.event ≡ told_in files.now log.now drift.event.0) }
        ensures origin { IfOk result (λ lines. lines.origin ≡ told_in files.now log.now drift.origin.0) }
    {
        let event = told_line(files, log, drift.event)?;
        let origin = told_line(files, log, drift.origin)?;
        Ok(DriftLines { event, origin })
    }
}

// The drift of a node, of whose events this one is the furthest ahead of its clock, if there is one.
//
// It takes no memory, and time linear in the chain of that event.
pub(crate) fn drift_from(
    log: &OrderedLog,
    node: NodeId,
    furthest: Option<Furthest>,
) -> Option<Drift>
    requires ordered { IsInOrder log.now }
    requires furthest { furthest ≡ furthest_in log.now (length log.now.events) node.0 }
    ensures drift { result ≡ drift_in log.now node.0 }
    ensures event { IfSome result (λ drift. drift.event.0 < length log.now.events) }
    ensures origin { IfSome result (λ drift. drift.origin.0 < length log.now.events) }
{
    let Furthest { event, ahead } = furthest?;
    let origin = log.execution().origin(event);
    Some(Drift {
        ahead,
        event,
        origin,
    })
}

// Adds the row of the drift of the node of a name, by how its lines are told.
fn push_fields<'a, W: Write>(
    rows: &mut RowBuffer,
    name: &'a [u8],
    ahead: u64,
    lines: &'a DriftLines,
    writer: &mut W,
) -> Result<(), OutputFault>
    ensures { OnOk result (AddsRow W.contents writer.old writer.new rows.old rows.new
        (codes "drift" ∷ name.now ∷ decimal ahead ∷ lines.now.event ∷ lines.now.origin ∷ [])) }
{
    let (word, name, ahead) = (Text(b"drift"), Text(name), Number(ahead));
    let (line, origin) = (lines.event.field(), lines.origin.field());
    rows.push(&[word, name, ahead, line, origin], writer)
}

// Adds the row of the drift of the node of a name.
fn push_found<W: Write>(
    rows: &mut RowBuffer,
    files: &Files,
    log: &OrderedLog,
    name: &[u8],
    drift: Drift,
    writer: &mut W,
) -> Result<(), OutputFault>
    requires event { drift.event.0 < length log.now.events }
    requires origin { drift.origin.0 < length log.now.events }
    ensures { OnOk result (AddsRow W.contents writer.old writer.new rows.old rows.new
        (codes "drift" ∷ name.now ∷ drift_fields files.now log.now (Some drift))) }
{
    let lines = DriftLines::new(files, log, drift)?;
    push_fields(rows, name, drift.ahead, &lines, writer)
}

// Answers how far the stamps of the node of a name ran ahead of its clock, by the tallies of nodes.
pub(crate) fn push_drift<'a, W: Write>(
    rows: &mut RowBuffer,
    log: &OpenLog,
    tallies: &[NodeTally],
    name: &'a [u8],
    writer: &mut W,
) -> Result<(), OutputFault>
    requires { AreTallies log.now.log tallies.now }
    ensures { OnOk result (AddsRow W.contents writer.old writer.new rows.old rows.new
        (drift_row log.now.files log.now.log name.now (position (bytes_eq name.now) log.now.nodes))) }
{
    let Some(node) = log.nodes().number(name) else {
        return push_missing(rows, Missing::Node, writer);
    };
    let ordered = log.ordered();
    let furthest = tallies[node].furthest;
    match drift_from(ordered, NodeId(node as u16), furthest) {
        None => rows.push(&[Text(b"drift"), Text(name), Text(b"none")], writer),
        Some(drift) => push_found(rows, log.files(), ordered, name, drift, writer),
    }
}
