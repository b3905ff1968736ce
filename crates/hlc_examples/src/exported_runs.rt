// A caller of `hlc_text`.

ghost use Rattle.std.specs.Prelude.{◌≡◌, IfOk, Some};
ghost use Rattle.hlc_arena.specs.Arena.{history_of};
ghost use Rattle.hlc_stamp.specs.declared.limits.TheConstants.{MAX_RECORDS};
ghost use Rattle.hlc_text.specs.Export.{export_text};
ghost use Rattle.hlc_text.specs.Replay.{RunsToEqualHistory};
ghost use Rattle.hlc_text.specs.Run.{Finished};

use hlc_text::laws::exports_run_to_equal_histories;
use hlc_text::{Ran, Settings, TextFault, export, run};
use std::alloc::Global;

/// Runs a script, and gives what it leaves with a script of its history's events. Run on the same settings, the second
/// script leaves an equal history, and none of its records is refused.
pub fn run_and_export(
    alloc: Global,
    script: &[u8],
    settings: Settings,
    answers: &mut Vec<u8>,
) -> Result<(Ran, Vec<u8>), TextFault>
    ensures ran { IfOk result (λ left. Finished MAX_RECORDS settings (Some script.now) (Some answers.old.items) (Some answers.new.items) left.0) }
    ensures exported { IfOk result (λ left. left.1.items ≡ export_text left.0.history.events) }
    ensures replays { IfOk result (λ left. RunsToEqualHistory (history_of left.0.history) settings) }
{
    let ran = run(alloc, script, answers, settings)?;
    let mut exported = Vec::new(alloc);
    export(alloc, &ran.history, &mut exported)?;
    exports_run_to_equal_histories();
    Ok((ran, exported))
}
