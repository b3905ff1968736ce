ghost use Rattle.std.specs.Prelude.{◌≡◌, ◌↔◌, IsSome, Some};
ghost use Rattle.hlc_core.specs.State.{new_refusal};
ghost use Rattle.hlc_script_commands.specs.TooLong.{IsScriptTooLong};
ghost use Rattle.hlc_page.specs.Answer.{IsPicture, events_between};
ghost use Rattle.hlc_page.specs.Status.{IsStatusOf};
ghost use Rattle.hlc_page.specs.declared.status.TheConstants.{PAGE_SETTINGS, PAGE_TOO_LONG};

use crate::options::events_between;
use crate::picture::draw_part;
use std::alloc::Global;

/// Draws the history that a script leaves, as `hlc draw` does. A limit of 2^64 - 1 is none, and the number 2^32 - 1 names no event.
#[unsafe(no_mangle)]
pub extern "C" fn hlc_page_draw(
    alloc: Global,
    script: &[u8],
    nodes: u16,
    capacity: u32,
    drift_limit: u64,
    explained: u32,
    from: u32,
    to: u32,
    room: &mut [u8],
    told: &mut usize,
) -> u32
    ensures status { IsStatusOf (IsPicture nodes capacity drift_limit (events_between explained from to) script.now)
        room.old room.new told.old told.new result }
    ensures settings { result ≡ PAGE_SETTINGS ↔ IsSome (new_refusal nodes capacity) }
    ensures too_long { result ≡ PAGE_TOO_LONG → IsScriptTooLong (Some script.now) }
{
    let part = events_between(explained, from, to);
    draw_part(
        alloc,
        script,
        nodes,
        capacity,
        drift_limit,
        part,
        room,
        told,
    )
}
