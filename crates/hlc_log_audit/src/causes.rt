ghost use Rattle.std.specs.Prelude.{◌≡◌, ◌↔◌, ◌<◌, ◌∷◌, [], IfSome, IsTrue, List, OnOk, codes, decimal, length};
ghost use Rattle.hlc_causality.specs.Neighbours.{place_of};
ghost use Rattle.hlc_csv.specs.Rows.{AddsRow, AddsRows};
ghost use Rattle.hlc_log_audit.specs.Answers.{told_in};
ghost use Rattle.hlc_causes.specs.declared.answers.Causes.{Causes as CausesFound};
ghost use Rattle.hlc_ordered_log.specs.InOrder.{IsInOrder};
ghost use Rattle.hlc_ordered_log.specs.Counts.{AreCounted, no_findings};
ghost use Rattle.hlc_ordered_log.specs.Found.{AreCauses, NameEvents, swapped_at, wrong_at};
ghost use Rattle.hlc_log_audit.specs.Report.{NamesEvent, cause_fields, cause_fields_at, cause_row, cause_rows, cause_rows_at, swapped_fields, wrong_row};

use crate::lines::told_line;
use crate::soundness::carries_wrongly;
use hlc_causes::{Cause, Causes};
use hlc_csv::RowField::{Number, Text};
use hlc_csv::{OutputFault, RowBuffer};
use hlc_log_text::{Files, LineText, Names, node_name};
use hlc_ordered_log::{Counts, OrderedLog};
use hlc_stamp::{EventId, Stamp};
use std::io::Write;

// Whether the event at a place of the log stands swapped with its node's event before it.
fn is_swapped_at(log: &OrderedLog, place: EventId, full: u32) -> bool
    requires ordered { IsInOrder log.now }
    requires exists { place.0 < length log.now.events }
    ensures { result ≡ swapped_at log.now full place.0 }
{
    log.is_swapped(log.position(place), full)
}

// Adds the row of a message that carried another stamp than this send, if there is one.
fn push_wrong<W: Write>(
    rows: &mut RowBuffer,
    files: &Files,
    nodes: &Names,
    log: &OrderedLog,
    place: EventId,
    send: Option<EventId>,
    writer: &mut W,
) -> Result<(), OutputFault>
    requires exists { place.0 < length log.now.events }
    requires event { IfSome send (λ d. d.0 < length log.now.events) }
    ensures { OnOk result (AddsRows W.contents writer.old writer.new rows.old rows.new (wrong_row files.now nodes.now log.now place.0 (place_of send))) }
{
    let Some(send) = send else {
        return Ok(());
    };
    let event = log.at(place);
    let line = LineText::new(files, u64::from(event.line))?;
    let node = Text(node_name(nodes, event.node));
    let sent = told_line(files, log, send)?;
    rows.push(
        &[
            Text(b"cause"),
            line.field(),
            node,
            Text(b"carried"),
            sent.field(),
        ],
        writer,
    )
}

// Adds the row of an event on a line, at a node, whose stamp is behind.
fn push_behind<'a, W: Write>(
    rows: &mut RowBuffer,
    line: &'a LineText,
    node: &'a [u8],
    writer: &mut W,
) -> Result<(), OutputFault>
    ensures { OnOk result (AddsRow W.contents writer.old writer.new rows.old rows.new
        (codes "cause" ∷ line.now ∷ node.now ∷ codes "behind" ∷ [])) }
{
    let (line, node) = (line.field(), Text(node));
    rows.push(&[Text(b"cause"), line, node, Text(b"behind")], writer)
}

// The same of one whose stamp is ahead of this one.
fn push_ahead<'a, W: Write>(
    rows: &mut RowBuffer,
    line: &'a LineText,
    node: &'a [u8],
    least: Stamp,
    writer: &mut W,
) -> Result<(), OutputFault>
    ensures { OnOk result (AddsRow W.contents writer.old writer.new rows.old rows.new
        (codes "cause" ∷ line.now ∷ node.now ∷ codes "ahead" ∷ decimal least.l ∷ decimal least.c ∷ [])) }
{
    let (line, node) = (line.field(), Text(node));
    let (l, c) = (Number(least.l), Number(u64::from(least.c)));
    rows.push(&[Text(b"cause"), line, node, Text(b"ahead"), l, c], writer)
}

// The same of one whose stamp isn't above that of the event on another line, with which it stands swapped or doesn't.
fn push_two_lines<'a, W: Write>(
    rows: &mut RowBuffer,
    line: &'a LineText,
    node: &'a [u8],
    direct: &'a LineText,
    swapped: bool,
    writer: &mut W,
) -> Result<(), OutputFault>
    ensures { OnOk result (AddsRow W.contents writer.old writer.new rows.old rows.new
        (codes "cause" ∷ line.now ∷ node.now ∷ codes "not-above" ∷ direct.now ∷ swapped_fields swapped)) }
{
    let (cause, line, node) = (Text(b"cause"), line.field(), Text(node));
    let (rule, direct) = (Text(b"not-above"), direct.field());
    if swapped {
        let swapped = Text(b"swapped");
        rows.push(&[cause, line, node, rule, direct, swapped], writer)
    } else {
        rows.push(&[cause, line, node, rule, direct], writer)
    }
}

// The same, by the number of the other event, a direct predecessor.
fn push_not_above<W: Write>(
    rows: &mut RowBuffer,
    files: &Files,
    log: &OrderedLog,
    line: &LineText,
    node: &[u8],
    direct: EventId,
    swapped: bool,
    writer: &mut W,
) -> Result<(), OutputFault>
    requires { direct.0 < length log.now.events }
    ensures { OnOk result (AddsRow W.contents writer.old writer.new rows.old rows.new
        (codes "cause" ∷ line.now ∷ node.now ∷ codes "not-above" ∷ told_in files.now log.now direct.0 ∷ swapped_fields swapped)) }
{
    let direct = told_line(files, log, direct)?;
    push_two_lines(rows, line, node, &direct, swapped, writer)
}

// Adds the row of a cause of the event at a place, which stands on this line, at a node of this name.
fn push_rule<W: Write>(
    rows: &mut RowBuffer,
    files: &Files,
    log: &OrderedLog,
    place: EventId,
    line: &LineText,
    node: &[u8],
    found: Cause,
    full: u32,
    writer: &mut W,
) -> Result<(), OutputFault>
    requires ordered { IsInOrder log.now }
    requires exists { place.0 < length log.now.events }
    requires event { NamesEvent log.now found }
    ensures { OnOk result (AddsRow W.contents writer.old writer.new rows.old rows.new
        (codes "cause" ∷ line.now ∷ node.now ∷ cause_fields files.now log.now (swapped_at log.now full place.0) found)) }
{
    match found {
        Cause::Behind => push_behind(rows, line, node, writer),
        Cause::NotAbovePrevious(direct) => {
            let swapped = is_swapped_at(log, place, full);
            push_not_above(rows, files, log, line, node, direct, swapped, writer)
        }
        Cause::NotAboveSend(direct) => {
            push_not_above(rows, files, log, line, node, direct, false, writer)
        }
        Cause::Ahead(least) => push_ahead(rows, line, node, least, writer),
    }
}

// Adds the row of a cause.
fn push_cause<W: Write>(
    rows: &mut RowBuffer,
    files: &Files,
    nodes: &Names,
    log: &OrderedLog,
    place: EventId,
    found: Cause,
    full: u32,
    writer: &mut W,
) -> Result<(), OutputFault>
    requires ordered { IsInOrder log.now }
    requires exists { place.0 < length log.now.events }
    requires event { NamesEvent log.now found }
    ensures { OnOk result (AddsRow W.contents writer.old writer.new rows.old rows.new
        (cause_fields_at files.now nodes.now log.now (swapped_at log.now full place.0) place.0 found)) }
{
    let event = log.at(place);
    let line = LineText::new(files, u64::from(event.line))?;
    let node = node_name(nodes, event.node);
    push_rule(rows, files, log, place, &line, node, found, full, writer)
}

// Adds the row of a cause, if there is one.
fn push_if_cause<W: Write>(
    rows: &mut RowBuffer,
    files: &Files,
    nodes: &Names,
    log: &OrderedLog,
    place: EventId,
    found: Option<Cause>,
    full: u32,
    writer: &mut W,
) -> Result<(), OutputFault>
    requires ordered { IsInOrder log.now }
    requires exists { place.0 < length log.now.events }
    requires event { IfSome found (NamesEvent log.now) }
    ensures { OnOk result (AddsRows W.contents writer.old writer.new rows.old rows.new (cause_row files.now nodes.now log.now full place.0 found)) }
{
    match found {
        Some(found) => push_cause(rows, files, nodes, log, place, found, full, writer),
        None => Ok(()),
    }
}

// Adds the rows of the event at a place: one for each rule that it breaks, and one if its message carried another stamp than its send.
fn push_causes_of<W: Write>(
    rows: &mut RowBuffer,
    files: &Files,
    nodes: &Names,
    log: &OrderedLog,
    place: EventId,
    found: Causes,
    wrong: Option<EventId>,
    full: u32,
    writer: &mut W,
) -> Result<(), OutputFault>
    requires ordered { IsInOrder log.now }
    requires exists { place.0 < length log.now.events }
    requires events { NameEvents log.now found }
    requires wrong { place_of wrong ≡ wrong_at log.now place.0 }
    requires wrong_event { IfSome wrong (λ d. d.0 < length log.now.events) }
    ensures { OnOk result (AddsRows W.contents writer.old writer.new rows.old rows.new (cause_rows_at files.now nodes.now log.now full place.0 found)) }
{
    let behind = found.behind.then_some(Cause::Behind);
    let previous = found.not_above_previous.map(Cause::NotAbovePrevious);
    let send = found.not_above_send.map(Cause::NotAboveSend);
    let ahead = found.ahead.map(Cause::Ahead);
    push_if_cause(rows, files, nodes, log, place, behind, full, writer)?;
    push_if_cause(rows, files, nodes, log, place, previous, full, writer)?;
    push_if_cause(rows, files, nodes, log, place, send, full, writer)?;
    push_if_cause(rows, files, nodes, log, place, ahead, full, writer)?;
    push_wrong(rows, files, nodes, log, place, wrong, writer)
}

// Whether no stamp has another verdict than least.
fn are_least(counts: Counts) -> bool
    ensures { IsTrue result ↔ (counts ≡ record no_findings { least = counts.least }) }
{
    counts.behind == 0
        && counts.not_above == 0
        && counts.low == 0
        && counts.ahead == 0
        && counts.rolled_over == 0
}

// Adds the rows of the causes, in the order of the lines. It looks for none if each stamp that is told is the least one, and each message
// carried its send's.
pub(crate) fn push_causes<W: Write>(
    rows: &mut RowBuffer,
    files: &Files,
    nodes: &Names,
    log: &OrderedLog,
    counts: Counts,
    full: u32,
    writer: &mut W,
) -> Result<(), OutputFault>
    requires ordered { IsInOrder log.now }
    requires counts { AreCounted log.now full counts }
    ensures { OnOk result ((causes : List CausesFound) × AreCauses log.now full causes
        × AddsRows W.contents writer.old writer.new rows.old rows.new (cause_rows files.now nodes.now log.now full causes)) }
{
    if are_least(counts) && !carries_wrongly(log) {
        return Ok(());
    }
    push_each_cause(rows, files, nodes, log, full, writer)
}

// Adds the rows of each event that is a cause.
fn push_each_cause<W: Write>(
    rows: &mut RowBuffer,
    files: &Files,
    nodes: &Names,
    log: &OrderedLog,
    full: u32,
    writer: &mut W,
) -> Result<(), OutputFault>
    ensures { OnOk result ((causes : List CausesFound) × AreCauses log.now full causes
        × AddsRows W.contents writer.old writer.new rows.old rows.new (cause_rows files.now nodes.now log.now full causes)) }
{
    for place in 0..log.len() {
        let found = log.causes_of(EventId(place), full);
        let wrong = log.wrongly_carried_at(EventId(place));
        push_causes_of(
            rows,
            files,
            nodes,
            log,
            EventId(place),
            found,
            wrong,
            full,
            writer,
        )?;
    }
    Ok(())
}
