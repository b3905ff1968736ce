// The rows of what an event breaks.

ghost use Rattle.std.specs.Prelude.{◌≡◌, ◌∷◌, [], OnOk, codes, decimal};
ghost use Rattle.hlc_csv.specs.Rows.{AddsRow, AddsRows};
ghost use Rattle.hlc_watched_log.specs.CauseRows.{ahead_row, behind_row, breaks_by, cause_rows, line_row, row_if, row_of, rows_of, wrong_line};

use crate::log_names::LogNames;
use hlc_csv::RowField::{Number, Text};
use hlc_csv::{OutputFault, RowBuffer};
use hlc_log_text::LineText;
use hlc_stamp::Stamp;
use hlc_watch::{FileLine, LineCauses, Records};
use std::alloc::Global;
use std::io::Write;

// The line of the send of what an event receives, if its message carried another stamp than that claims.
pub(crate) fn wrong_line(records: &Records) -> Option<FileLine>
    ensures { result ≡ wrong_line records.now }
{
    match (records.event.carried, records.send) {
        (Some(carried), Some(send)) => {
            if carried.l == send.stamp.l && carried.c == send.stamp.c {
                None
            } else {
                Some(send.line)
            }
        }
        _ => None,
    }
}

// Whether one of these rules is broken that isn't about least stamps.
pub(crate) fn breaks_by(causes: LineCauses, wrong: Option<FileLine>) -> bool
    ensures { result ≡ breaks_by causes wrong }
{
    causes.behind
        || causes.not_above_previous.is_some()
        || causes.not_above_send.is_some()
        || wrong.is_some()
}

// Adds the row of a stamp that is behind, if it is.
fn push_behind<W: Write>(
    alloc: Global,
    rows: &mut RowBuffer,
    names: &LogNames,
    records: &Records,
    behind: bool,
    writer: &mut W,
) -> Result<(), OutputFault>
    ensures { OnOk result (AddsRows W.contents writer.old writer.new rows.old rows.new (row_if behind (behind_row names.now records.now))) }
{
    if behind {
        let line = names.line(alloc, records.event.line)?;
        let node = Text(names.node(records.event.node));
        let behind = Text(b"behind");
        return rows.push(&[Text(b"cause"), line.field(), node, behind], writer);
    }
    Ok(())
}

// Adds the row of a rule that is broken by what a line claims, by how these lines are told.
fn push_line_row<'a, W: Write>(
    rows: &mut RowBuffer,
    line: &'a LineText,
    node: &'a [u8],
    rule: &'a [u8],
    claim: &'a LineText,
    writer: &mut W,
) -> Result<(), OutputFault>
    ensures { OnOk result (AddsRow W.contents writer.old writer.new rows.old rows.new
        (codes "cause" ∷ line.now ∷ node.now ∷ rule.now ∷ claim.now ∷ [])) }
{
    let (line, claim) = (line.field(), claim.field());
    rows.push(
        &[Text(b"cause"), line, Text(node), Text(rule), claim],
        writer,
    )
}

// Adds the row of a rule that is broken by what a line claims, if there is such a line.
fn push_line<W: Write>(
    alloc: Global,
    rows: &mut RowBuffer,
    names: &LogNames,
    records: &Records,
    rule: &[u8],
    claimed: Option<FileLine>,
    writer: &mut W,
) -> Result<(), OutputFault>
    ensures { OnOk result (AddsRows W.contents writer.old writer.new rows.old rows.new (row_of (line_row names.now records.now rule.now) claimed)) }
{
    let Some(claim) = claimed else {
        return Ok(());
    };
    let line = names.line(alloc, records.event.line)?;
    let claim = names.line(alloc, claim)?;
    push_line_row(
        rows,
        &line,
        names.node(records.event.node),
        rule,
        &claim,
        writer,
    )
}

// Adds the row of a stamp that is ahead of this one, by how its line is told.
fn push_ahead_row<'a, W: Write>(
    rows: &mut RowBuffer,
    line: &'a LineText,
    node: &'a [u8],
    least: Stamp,
    writer: &mut W,
) -> Result<(), OutputFault>
    ensures { OnOk result (AddsRow W.contents writer.old writer.new rows.old rows.new
        (codes "cause" ∷ line.now ∷ node.now ∷ codes "ahead" ∷ decimal least.l ∷ decimal least.c ∷ [])) }
{
    let (line, node) = (line.field(), Text(node));
    let (l, c) = (Number(least.l), Number(u64::from(least.c)));
    rows.push(&[Text(b"cause"), line, node, Text(b"ahead"), l, c], writer)
}

// Adds the row of a stamp that is ahead of this one, if it is.
fn push_ahead<W: Write>(
    alloc: Global,
    rows: &mut RowBuffer,
    names: &LogNames,
    records: &Records,
    least: Option<Stamp>,
    writer: &mut W,
) -> Result<(), OutputFault>
    ensures { OnOk result (AddsRows W.contents writer.old writer.new rows.old rows.new (row_of (ahead_row names.now records.now) least)) }
{
    let Some(least) = least else {
        return Ok(());
    };
    let line = names.line(alloc, records.event.line)?;
    push_ahead_row(rows, &line, names.node(records.event.node), least, writer)
}

// Adds the rows of these rules.
fn push_rules<W: Write>(
    alloc: Global,
    rows: &mut RowBuffer,
    names: &LogNames,
    records: &Records,
    causes: LineCauses,
    writer: &mut W,
) -> Result<(), OutputFault>
    ensures { OnOk result (AddsRows W.contents writer.old writer.new rows.old rows.new (rows_of names.now records.now causes)) }
{
    let (previous, send) = (causes.not_above_previous, causes.not_above_send);
    push_behind(alloc, rows, names, records, causes.behind, writer)?;
    push_line(alloc, rows, names, records, b"not-above", previous, writer)?;
    push_line(alloc, rows, names, records, b"not-above", send, writer)?;
    push_ahead(alloc, rows, names, records, causes.ahead, writer)?;
    let wrong = wrong_line(records);
    push_line(alloc, rows, names, records, b"carried", wrong, writer)
}

// Adds the rows of an event: one for each rule that it breaks, and one if its message carried another stamp than its send.
pub(crate) fn push_causes<W: Write>(
    alloc: Global,
    rows: &mut RowBuffer,
    names: &LogNames,
    records: &Records,
    full: u32,
    writer: &mut W,
) -> Result<(), OutputFault>
    ensures { OnOk result (AddsRows W.contents writer.old writer.new rows.old rows.new (cause_rows names.now full records.now)) }
{
    push_rules(alloc, rows, names, records, records.causes(full), writer)
}
