// How far one node's clock is ahead of another's, as the messages that were judged show it.

ghost use Rattle.std.specs.Prelude.{◌≡◌, ◌∷◌, ◌+◌, [], OnOk, codes, nat_lt, pos, ◌-ℤ◌};
ghost use Rattle.std.specs.Fmt.{signed_decimal};
ghost use Rattle.hlc_csv.specs.Rows.{AddsRow, AddsRows};
ghost use Rattle.hlc_log_text.specs.LogText.{name_of};
ghost use Rattle.hlc_watched_log.specs.Skews.{is_greater, shown, skew_row, skew_rows, skews_after, with_judged};
ghost use Rattle.hlc_watched_log.specs.Taken.{complete_in};

use crate::log_names::LogNames;
use crate::shown_skew::ShownSkew;
use hlc_csv::RowField::Text;
use hlc_csv::{OutputFault, RowBuffer};
use hlc_log_text::LineText;
use hlc_ordered_log::SkewNodes;
use hlc_watch::{Complete, Records};
use itoa::Buffer;
use std::alloc::{AllocError, Global};
use std::collections::BTreeMap;
use std::io::Write;

// The skews of nodes, by these.
pub(crate) type ShownSkews = BTreeMap<SkewNodes, ShownSkew>;

// What the message of an event shows whose records are there.
fn shown(records: &Records) -> Option<(SkewNodes, ShownSkew)>
    ensures { result ≡ shown records.now }
{
    let send = records.send?;
    let received_at = records.event.reading?;
    let sent_at = send.reading?;
    let nodes = SkewNodes {
        to: records.event.node,
        from: send.node,
    };
    let skew = ShownSkew {
        sent_at,
        received_at,
        send: send.line,
        receive: records.event.line,
    };
    Some((nodes, skew))
}

// Whether a skew is greater than the greatest before it, if there is one.
fn is_greater(skew: ShownSkew, first: Option<ShownSkew>) -> bool
    ensures { result ≡ is_greater skew first }
{
    match first {
        None => true,
        Some(first) => {
            let this = u128::from(skew.sent_at) + u128::from(first.received_at);
            u128::from(first.sent_at) + u128::from(skew.received_at) < this
        }
    }
}

// Takes in what the message of an event shows.
fn take_shown(skews: &mut ShownSkews, records: &Records) -> Result<(), AllocError>
    ensures { OnOk result (skews.new.entries ≡ with_judged skews.old.entries records.now) }
{
    let Some((nodes, skew)) = shown(records) else {
        return Ok(());
    };
    if is_greater(skew, skews.get(&nodes).copied()) {
        skews.insert(nodes, skew)?;
    }
    Ok(())
}

// Takes in what the messages of some events show.
fn take_each(skews: &mut ShownSkews, complete: &[Records]) -> Result<(), AllocError>
    ensures { OnOk result (skews.new.entries ≡ skews_after skews.old.entries complete.now) }
{
    for records in complete {
        take_shown(skews, records)?;
    }
    Ok(())
}

// Takes in what the messages of the events show that are complete now.
pub(crate) fn take_skews(skews: &mut ShownSkews, complete: &Complete) -> Result<(), AllocError>
    ensures { OnOk result (skews.new.entries ≡ skews_after skews.old.entries (complete_in complete.now)) }
{
    if let Some(records) = &complete.event {
        take_shown(skews, records)?;
    }
    take_each(skews, &complete.waited)
}

// Adds the row of a skew, by how far the first node is ahead, and the lines of the send and the receive.
fn push_skew_row<'a, W: Write>(
    rows: &mut RowBuffer,
    names: &'a LogNames,
    nodes: SkewNodes,
    ahead: &'a [u8],
    send: &'a LineText,
    receive: &'a LineText,
    writer: &mut W,
) -> Result<(), OutputFault>
    ensures { OnOk result (AddsRow W.contents writer.old writer.new rows.old rows.new
        (codes "skew" ∷ name_of names.now.nodes nodes.from.0 ∷ name_of names.now.nodes nodes.to.0 ∷ ahead.now ∷ send.now ∷ receive.now ∷ [])) }
{
    let (from, to) = (Text(names.node(nodes.from)), Text(names.node(nodes.to)));
    let (send, receive) = (send.field(), receive.field());
    rows.push(
        &[Text(b"skew"), from, to, Text(ahead), send, receive],
        writer,
    )
}

// Adds the row of the skew between two nodes.
fn push_skew<W: Write>(
    alloc: Global,
    rows: &mut RowBuffer,
    names: &LogNames,
    nodes: SkewNodes,
    skew: ShownSkew,
    writer: &mut W,
) -> Result<(), OutputFault>
    ensures { OnOk result (AddsRow W.contents writer.old writer.new rows.old rows.new (skew_row names.now (nodes, skew))) }
{
    let send = names.line(alloc, skew.send)?;
    let receive = names.line(alloc, skew.receive)?;
    let mut text = Buffer::new();
    let ahead = text.format(i128::from(skew.sent_at) - i128::from(skew.received_at));
    push_skew_row(
        rows,
        names,
        nodes,
        ahead.as_bytes(),
        &send,
        &receive,
        writer,
    )
}

// Adds the rows of all skews, in the order of the numbers of the nodes to which the messages went, and of those from which they came.
pub(crate) fn push_skews<W: Write>(
    alloc: Global,
    rows: &mut RowBuffer,
    names: &LogNames,
    skews: &ShownSkews,
    writer: &mut W,
) -> Result<(), OutputFault>
    ensures { OnOk result (AddsRows W.contents writer.old writer.new rows.old rows.new (skew_rows names.now skews.now.entries)) }
{
    for (nodes, skew) in skews {
        push_skew(alloc, rows, names, *nodes, *skew, writer)?;
    }
    Ok(())
}
