// A caller of `hlc_trace`.

ghost use Rattle.std.specs.Prelude.{[], IfOk, Some};
ghost use Rattle.hlc_stamp.specs.declared.limits.TheConstants.{MAX_RECORDS};
ghost use Rattle.hlc_trace.specs.Trace.{IsJudged};

use hlc_trace::{RecordsFault, judge_run};
use std::alloc::Global;

/// The verdicts on the stamps in a log that is in memory, as `hlc judge` writes them: a row for each record, or one row that
/// names the first record that is wrong.
pub fn judge_log(alloc: Global, log: &[u8]) -> Result<Vec<u8>, RecordsFault>
    ensures { IfOk result (λ rows. IsJudged MAX_RECORDS (Some log.now) (Some []) (Some rows.items)) }
{
    let mut rows = Vec::new(alloc);
    judge_run(alloc, log, &mut rows)?;
    Ok(rows)
}
