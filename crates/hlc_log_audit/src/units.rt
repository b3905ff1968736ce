ghost use Rattle.std.specs.Prelude.{OnOk};
ghost use Rattle.hlc_csv.specs.Rows.{AddsRows};
ghost use Rattle.hlc_log_audit.specs.Report.{unit_rows};

use hlc_csv::{OutputFault, RowBuffer};
use hlc_ordered_log::{Counts, OrderedLog, unit_factor};
use std::io::Write;

// Adds the row that tells how many units of `l` make one of the readings, if all stamps are ahead by that.
pub(crate) fn push_units<W: Write>(
    rows: &mut RowBuffer,
    log: &OrderedLog,
    counts: Counts,
    writer: &mut W,
) -> Result<(), OutputFault>
    ensures { OnOk result (AddsRows W.contents writer.old writer.new rows.old rows.new (unit_rows counts log.now.events)) }
{
    if !counts.are_all_ahead() {
        return Ok(());
    }
    match unit_factor(log) {
        Some(factor) => rows.push_numbers(b"units", &[u64::from(factor)], None, writer),
        None => Ok(()),
    }
}
