ghost use Rattle.std.specs.Prelude.{◌≡◌, List, OnOk};
ghost use Rattle.hlc_csv.specs.Rows.{AddsRows, Fields};
ghost use Rattle.hlc_ordered_log.specs.InOrder.{reading_told, skeleton_of};
ghost use Rattle.hlc_ordered_log.specs.Messages.{message_counts};
ghost use Rattle.hlc_ordered_log.specs.Skew.{AreSkews};
ghost use Rattle.hlc_ordered_log.specs.Counts.{AreCounted};
ghost use Rattle.hlc_log_audit.specs.Report.{IsReport};

use crate::causes::push_causes;
use crate::counts::push_counts;
use crate::messages::push_messages;
use crate::nodes::push_nodes;
use crate::skews::push_skews;
use crate::units::push_units;
use hlc_csv::{OutputFault, RowBuffer};
use hlc_open_log::OpenLog;
use hlc_ordered_log::{Counts, MessageCounts, Skew, SkewNodes};
use std::alloc::Global;
use std::collections::BTreeMap;
use std::io::Write;

/// Adds the rows of the report on a log: the counts of the verdicts, the causes, the nodes, the messages, the skews, and
/// whether readings look as if they had another unit than `l`.
///
/// `counts` has those of its verdicts, `messages` those of its messages, and `skews` the skews between its nodes. It takes memory for each
/// node, and for the rows. After a fault nothing is promised of what the writer got.
pub fn push_report<W: Write>(
    alloc: Global,
    rows: &mut RowBuffer,
    log: &OpenLog,
    counts: Counts,
    messages: MessageCounts,
    skews: &BTreeMap<SkewNodes, Skew>,
    writer: &mut W,
) -> Result<(), OutputFault>
    requires counts { AreCounted log.now.log log.now.full counts }
    requires messages { messages ≡ message_counts log.now.log }
    requires skews { AreSkews (skeleton_of log.now.log) (reading_told log.now.log) skews.now.entries }
    ensures { OnOk result ((report : List Fields) × IsReport log.now.files log.now.nodes log.now.log log.now.full report
        × AddsRows W.contents writer.old writer.new rows.old rows.new report) }
{
    let files = log.files();
    let nodes = log.nodes();
    let ordered = log.ordered();
    push_counts(rows, counts, writer)?;
    push_causes(rows, files, nodes, ordered, counts, log.full(), writer)?;
    push_nodes(alloc, rows, files, nodes, ordered, writer)?;
    push_messages(rows, messages, writer)?;
    push_skews(rows, files, nodes, ordered, skews, writer)?;
    push_units(rows, ordered, counts, writer)
}
