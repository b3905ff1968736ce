ghost use Rattle.std.specs.Prelude.{◌∷◌, [], OnOk, codes, map};
ghost use Rattle.hlc_csv.specs.Rows.{AddsRow, AddsRows};
ghost use Rattle.hlc_ordered_log.specs.InOrder.{IsInOrder, reading_told, skeleton_of};
ghost use Rattle.hlc_ordered_log.specs.Skew.{AreSkews};
ghost use Rattle.hlc_log_audit.specs.Report.{IsSkewOfEvents, skew_row};

use crate::lines::told_line;
use hlc_csv::RowField::Text;
use hlc_csv::{OutputFault, RowBuffer};
use hlc_log_text::{Files, LineText, Names, node_name};
use hlc_ordered_log::{OrderedLog, Skew, SkewNodes};
use itoa::Buffer;
use std::collections::BTreeMap;
use std::io::Write;

// Adds the row of a skew, by the names of its nodes, how far the first is ahead, and the lines of the send and its delivery.
fn push_skew_row<'a, W: Write>(
    rows: &mut RowBuffer,
    from: &'a [u8],
    to: &'a [u8],
    ahead: &'a [u8],
    send: &'a LineText,
    delivery: &'a LineText,
    writer: &mut W,
) -> Result<(), OutputFault>
    ensures { OnOk result (AddsRow W.contents writer.old writer.new rows.old rows.new
        (codes "skew" ∷ from.now ∷ to.now ∷ ahead.now ∷ send.now ∷ delivery.now ∷ [])) }
{
    let (from, to, ahead) = (Text(from), Text(to), Text(ahead));
    let (send, delivery) = (send.field(), delivery.field());
    rows.push(&[Text(b"skew"), from, to, ahead, send, delivery], writer)
}

// Adds the row of the skew between two nodes.
fn push_skew<W: Write>(
    rows: &mut RowBuffer,
    files: &Files,
    nodes: &Names,
    log: &OrderedLog,
    between: SkewNodes,
    skew: Skew,
    writer: &mut W,
) -> Result<(), OutputFault>
    requires { IsSkewOfEvents log.now skew }
    ensures { OnOk result (AddsRow W.contents writer.old writer.new rows.old rows.new (skew_row files.now nodes.now log.now (between, skew))) }
{
    let (from, to) = (node_name(nodes, between.from), node_name(nodes, between.to));
    let send = told_line(files, log, skew.send)?;
    let delivery = told_line(files, log, skew.delivery)?;
    let mut text = Buffer::new();
    let ahead = text.format(i128::from(skew.sent_at) - i128::from(skew.delivered_at));
    push_skew_row(rows, from, to, ahead.as_bytes(), &send, &delivery, writer)
}

// Adds the rows of all skews, in the order of the numbers of the nodes to which the messages went, and of those from which they came.
pub(crate) fn push_skews<W: Write>(
    rows: &mut RowBuffer,
    files: &Files,
    nodes: &Names,
    log: &OrderedLog,
    skews: &BTreeMap<SkewNodes, Skew>,
    writer: &mut W,
) -> Result<(), OutputFault>
    requires ordered { IsInOrder log.now }
    requires skews { AreSkews (skeleton_of log.now) (reading_told log.now) skews.now.entries }
    ensures { OnOk result (AddsRows W.contents writer.old writer.new rows.old rows.new (map (skew_row files.now nodes.now log.now) skews.now.entries)) }
{
    for (between, skew) in skews {
        push_skew(rows, files, nodes, log, *between, *skew, writer)?;
    }
    Ok(())
}
