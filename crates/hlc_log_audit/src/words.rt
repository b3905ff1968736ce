// The words of answers.

ghost use Rattle.std.specs.Prelude.{◌≡◌, OnOk};
ghost use Rattle.hlc_csv.specs.Rows.{AddsRow};
ghost use Rattle.hlc_log_audit.specs.Words.{found_word, missing_row};

use hlc_causes::Finding;
use hlc_csv::{OutputFault, RowBuffer};
use hlc_explain::Missing;
use hlc_verdict::Verdict;
use std::io::Write;

// Adds the row that is the answer if the log has no such node or event.
pub(crate) fn push_missing<W: Write>(
    rows: &mut RowBuffer,
    missing: Missing,
    writer: &mut W,
) -> Result<(), OutputFault>
    ensures { OnOk result (AddsRow W.contents writer.old writer.new rows.old rows.new (missing_row missing)) }
{
    rows.push_refusal(missing.word(), writer)
}

// What is found of a claimed stamp, or that none is claimed.
pub(crate) fn found_word(found: Option<Finding>) -> &'static [u8]
    ensures { result.now ≡ found_word found }
{
    match found {
        Some(Finding::Judged(Verdict::Behind)) => b"behind",
        Some(Finding::Judged(Verdict::NotAbove(_))) => b"not-above",
        Some(Finding::Judged(Verdict::Low(_))) => b"low",
        Some(Finding::Judged(Verdict::Least)) => b"least",
        Some(Finding::Judged(Verdict::Ahead(_))) => b"ahead",
        Some(Finding::RolledOver) => b"carried",
        None => b"unstamped",
    }
}
