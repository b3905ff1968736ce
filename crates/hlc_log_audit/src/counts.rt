ghost use Rattle.std.specs.Prelude.{OnOk};
ghost use Rattle.hlc_csv.specs.Rows.{AddsRows};
ghost use Rattle.hlc_ordered_log.specs.Counts.{AreCounted};
ghost use Rattle.hlc_log_audit.specs.Report.{count_row, count_rows};

use hlc_csv::RowField::{Number, Text};
use hlc_csv::{OutputFault, RowBuffer};
use hlc_ordered_log::{Counts, OrderedLog, count_findings};
use std::io::Write;

// How many of the log's stamps have each verdict. `full` is the greatest `c` that their form can write.
pub(crate) fn count_stamps(log: &OrderedLog, full: u32) -> Counts
    ensures { AreCounted log.now full result }
{
    count_findings(log, full)
}

// Adds the row of the count of a verdict, if there are some.
fn push_count<W: Write>(
    rows: &mut RowBuffer,
    word: &[u8],
    count: u32,
    writer: &mut W,
) -> Result<(), OutputFault>
    ensures { OnOk result (AddsRows W.contents writer.old writer.new rows.old rows.new (count_row word.now count)) }
{
    if count == 0 {
        return Ok(());
    }
    let count = Number(u64::from(count));
    rows.push(&[Text(b"count"), Text(word), count], writer)
}

// Adds the rows of the counts of all verdicts.
pub(crate) fn push_counts<W: Write>(
    rows: &mut RowBuffer,
    counts: Counts,
    writer: &mut W,
) -> Result<(), OutputFault>
    ensures { OnOk result (AddsRows W.contents writer.old writer.new rows.old rows.new (count_rows counts)) }
{
    push_count(rows, b"behind", counts.behind, writer)?;
    push_count(rows, b"not-above", counts.not_above, writer)?;
    push_count(rows, b"low", counts.low, writer)?;
    push_count(rows, b"least", counts.least, writer)?;
    push_count(rows, b"ahead", counts.ahead, writer)?;
    push_count(rows, b"carried", counts.rolled_over, writer)
}
