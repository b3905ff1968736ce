ghost use Rattle.std.specs.Prelude.{◌≡◌, ◌↔◌, IsSome, Some};
ghost use Rattle.hlc_core.specs.State.{new_refusal};
ghost use Rattle.hlc_script_commands.specs.TooLong.{IsScriptTooLong};
ghost use Rattle.hlc_page.specs.Answer.{IsTrace};
ghost use Rattle.hlc_page.specs.Status.{IsStatusOf};

use crate::options::settings;
use crate::room::put;
use crate::status::{PAGE_OK, PAGE_SETTINGS, PAGE_TOO_LONG, status};
use hlc_script_commands::trace_script;
use std::alloc::Global;

/// Writes the history that a script leaves as a log, as `hlc trace` does, or if vectors are asked for, with those of its events. A limit of
/// 2^64 - 1 is none.
#[unsafe(no_mangle)]
pub extern "C" fn hlc_page_trace(
    alloc: Global,
    script: &[u8],
    nodes: u16,
    capacity: u32,
    drift_limit: u64,
    vector: bool,
    room: &mut [u8],
    told: &mut usize,
) -> u32
    ensures status { IsStatusOf (IsTrace nodes capacity drift_limit vector script.now) room.old room.new told.old told.new result }
    ensures settings { result ≡ PAGE_SETTINGS ↔ IsSome (new_refusal nodes capacity) }
    ensures too_long { result ≡ PAGE_TOO_LONG → IsScriptTooLong (Some script.now) }
{
    let Some(settings) = settings(nodes, capacity, drift_limit) else {
        return PAGE_SETTINGS;
    };
    let mut log = Vec::new(alloc);
    match trace_script(alloc, script, &mut log, settings, vector) {
        Ok(_) => put(&log, PAGE_OK, room, told),
        Err(fault) => status(fault),
    }
}
