ghost use Rattle.std.specs.Prelude.{◌≡◌, Some};
ghost use Rattle.hlc_stamp.specs.declared.limits.TheConstants.{MAX_RECORDS};
ghost use Rattle.hlc_trace.specs.Trace.{HasTooMany};
ghost use Rattle.hlc_page.specs.Answer.{IsVerdicts};
ghost use Rattle.hlc_page.specs.Status.{IsStatusOf};

use crate::room::put;
use crate::status::{PAGE_OK, PAGE_SETTINGS, PAGE_TOO_LONG, status};
use hlc_command_line::CommandFault;
use hlc_trace::judge_run;
use std::alloc::Global;

/// Judges a trace, as `hlc judge` does.
#[unsafe(no_mangle)]
pub extern "C" fn hlc_page_judge(
    alloc: Global,
    trace: &[u8],
    room: &mut [u8],
    told: &mut usize,
) -> u32
    ensures status { IsStatusOf (IsVerdicts trace.now) room.old room.new told.old told.new result }
    ensures settings { ¬ (result ≡ PAGE_SETTINGS) }
    ensures too_long { result ≡ PAGE_TOO_LONG → HasTooMany MAX_RECORDS (Some trace.now) }
{
    let mut verdicts = Vec::new(alloc);
    match judge_run(alloc, trace, &mut verdicts) {
        Ok(()) => put(&verdicts, PAGE_OK, room, told),
        Err(fault) => status(CommandFault::from(fault)),
    }
}
