// The claims of nodes that are over a limit.

ghost use Rattle.std.specs.Prelude.{◌≡◌, ◌+◌, ◌<◌, ◌≤◌, IfOk, IfSome, List, OnOk, length};
ghost use Rattle.hlc_stamp.specs.declared.limits.TheConstants.{MAX_CAPACITY};
ghost use Rattle.hlc_csv.specs.Rows.{AddsRow, AddsRows, Fields};
ghost use Rattle.hlc_log.specs.Events.{event_at};
ghost use Rattle.hlc_ordered_log.specs.InOrder.{IsInOrder};
ghost use Rattle.hlc_log_text.specs.ReadText.{LinesRise};
ghost use Rattle.hlc_log_audit.specs.OverLimit.{AreOvers, AreOversBefore, with_claim};
ghost use Rattle.hlc_log_audit.specs.Report.{AreOverRows, NamesPlaces, origin_field, over_fields, over_row, over_rows};

use crate::claimed::brought_in_by;
use crate::claimed_ahead::claimed_ahead;
use crate::lines::told_line;
use crate::nodes::node_of;
use crate::over::Over;
use hlc_csv::RowField::{Number, Text};
use hlc_csv::{OutputFault, RowBuffer};
use hlc_log_text::{Files, LineText, node_name};
use hlc_open_log::OpenLog;
use hlc_ordered_log::OrderedLog;
use hlc_stamp::{EventId, NodeId};
use std::alloc::{AllocError, Global};
use std::io::Write;

// One claim more, by a later event, which is so far above its reading.
fn with_claim(over: Option<Over>, place: EventId, ahead: u64) -> Over
    requires { IfSome over (λ over. over.claims ≤ MAX_CAPACITY) }
    ensures { result ≡ with_claim over place ahead }
{
    match over {
        None => Over {
            claims: 1,
            first: place,
            furthest: place,
            ahead,
        },
        Some(over) if ahead <= over.ahead => Over {
            claims: over.claims + 1,
            ..over
        },
        Some(over) => Over {
            claims: over.claims + 1,
            furthest: place,
            ahead,
            ..over
        },
    }
}

// The node of the event at a place.
fn node_at(log: &OrderedLog, place: EventId) -> NodeId
    requires ordered { IsInOrder log.now }
    requires exists { place.0 < length log.now.events }
    ensures node { result.0 ≡ (event_at log.now.events place.0).node.0 }
    ensures exists { result.0 < log.now.nodes }
{
    node_of(log.execution(), log.position(place))
}

// Looks at an event: if its claim is over the limit, its node has one more.
fn add_claim(log: &OrderedLog, limit: u64, place: EventId, overs: &mut [Option<Over>])
    requires ordered { IsInOrder log.now }
    requires exists { place.0 < length log.now.events }
    requires before { AreOversBefore limit log.now.nodes log.now.events place.0 overs.old }
    ensures { AreOversBefore limit log.now.nodes log.now.events (place.0 + 1) overs.new }
{
    let ahead = claimed_ahead(log.at(place));
    if ahead <= limit {
        return;
    }
    let node = node_at(log, place).0 as usize;
    overs[node] = Some(with_claim(overs[node], place, ahead));
}

// What of each node's claims is over a limit. It goes over the events once.
fn overs_of(alloc: Global, log: &OrderedLog, limit: u64) -> Result<Vec<Option<Over>>, AllocError>
    ensures { IfOk result (λ overs. AreOvers limit log.now.nodes log.now.events overs.items) }
{
    let mut overs = vec![in alloc; None; log.execution().nodes() as usize]?;
    for place in 0..log.len() {
        add_claim(log, limit, EventId(place), &mut overs);
    }
    Ok(overs)
}

// How the line is told where the `l` that the event at a place claims came in.
fn told_origin(files: &Files, log: &OrderedLog, place: EventId) -> Result<LineText, AllocError>
    requires ordered { IsInOrder log.now }
    requires rise { LinesRise log.now.events }
    requires exists { place.0 < length log.now.events }
    ensures { IfOk result (λ text. text ≡ origin_field files.now log.now (event_at log.now.events place.0).line) }
{
    let first = brought_in_by(log.execution(), log, log.position(place));
    told_line(files, log, first)
}

// Adds the row of a node whose claims are over the limit.
fn push_over<W: Write>(
    rows: &mut RowBuffer,
    log: &OpenLog,
    node: NodeId,
    over: Over,
    writer: &mut W,
) -> Result<(), OutputFault>
    requires { NamesPlaces log.now.log over }
    ensures { OnOk result (AddsRow W.contents writer.old writer.new rows.old rows.new (over_fields log.now.files log.now.nodes log.now.log node.0 over)) }
{
    let files = log.files();
    let ordered = log.ordered();
    let (word, name) = (Text(b"over"), Text(node_name(log.nodes(), node)));
    let claims = Number(u64::from(over.claims));
    let first = LineText::new(files, u64::from(ordered.at(over.first).line))?;
    let ahead = Number(over.ahead);
    let origin = told_origin(files, ordered, over.furthest)?;
    rows.push(
        &[word, name, claims, first.field(), ahead, origin.field()],
        writer,
    )
}

// Adds the row of a node, if its claims are over the limit.
fn push_if_over<W: Write>(
    rows: &mut RowBuffer,
    log: &OpenLog,
    node: NodeId,
    over: Option<Over>,
    writer: &mut W,
) -> Result<(), OutputFault>
    requires { IfSome over (NamesPlaces log.now.log) }
    ensures { OnOk result (AddsRows W.contents writer.old writer.new rows.old rows.new (over_row log.now.files log.now.nodes log.now.log node.0 over)) }
{
    match over {
        Some(over) => push_over(rows, log, node, over, writer),
        None => Ok(()),
    }
}

// Adds the rows of the nodes whose claims are over the limit, in the order of their numbers.
fn push_each_over<W: Write>(
    rows: &mut RowBuffer,
    log: &OpenLog,
    limit: u64,
    overs: &[Option<Over>],
    writer: &mut W,
) -> Result<(), OutputFault>
    requires { AreOvers limit (length log.now.nodes) log.now.log.events overs.now }
    ensures { OnOk result (AddsRows W.contents writer.old writer.new rows.old rows.new (over_rows log.now.files log.now.nodes log.now.log overs.now)) }
{
    for node in 0..log.nodes().len() {
        let over = overs[node];
        push_if_over(rows, log, NodeId(node as u16), over, writer)?;
    }
    Ok(())
}

// Adds the rows of the nodes whose claims are over the limit, if there is one.
pub(crate) fn push_overs<W: Write>(
    alloc: Global,
    rows: &mut RowBuffer,
    log: &OpenLog,
    limit: Option<u64>,
    writer: &mut W,
) -> Result<(), OutputFault>
    ensures { OnOk result ((added : List Fields) × AreOverRows log.now.files log.now.nodes log.now.log limit added
        × AddsRows W.contents writer.old writer.new rows.old rows.new added) }
{
    match limit {
        Some(limit) => {
            let overs = overs_of(alloc, log.ordered(), limit)?;
            push_each_over(rows, log, limit, &overs, writer)
        }
        None => Ok(()),
    }
}
