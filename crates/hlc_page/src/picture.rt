// The picture of a part of the history that a script leaves.

ghost use Rattle.std.specs.Prelude.{◌≡◌, ◌↔◌, IsSome, Some};
ghost use Rattle.hlc_core.specs.State.{new_refusal};
ghost use Rattle.hlc_script_commands.specs.TooLong.{IsScriptTooLong};
ghost use Rattle.hlc_page.specs.Answer.{IsPicture};
ghost use Rattle.hlc_page.specs.Status.{IsStatusOf};

use crate::options::settings;
use crate::room::put;
use crate::status::{PAGE_NO_EVENT, PAGE_OK, PAGE_SETTINGS, PAGE_TOO_LONG, status};
use hlc_command_line::DrawnPart;
use hlc_script_commands::{CommandFault, draw_script};
use hlc_stamp::EventId;
use std::alloc::Global;

// Draws it.
pub(crate) fn draw_part(
    alloc: Global,
    script: &[u8],
    nodes: u16,
    capacity: u32,
    drift_limit: u64,
    part: DrawnPart<EventId>,
    room: &mut [u8],
    told: &mut usize,
) -> u32
    ensures status { IsStatusOf (IsPicture nodes capacity drift_limit part script.now) room.old room.new told.old told.new result }
    ensures settings { result ≡ PAGE_SETTINGS ↔ IsSome (new_refusal nodes capacity) }
    ensures too_long { result ≡ PAGE_TOO_LONG → IsScriptTooLong (Some script.now) }
{
    let Some(settings) = settings(nodes, capacity, drift_limit) else {
        return PAGE_SETTINGS;
    };
    let mut picture = Vec::new(alloc);
    match draw_script(alloc, script, &mut picture, settings, part) {
        Ok(_) => put(&picture, PAGE_OK, room, told),
        Err(CommandFault::NoEvent) => put(&picture, PAGE_NO_EVENT, room, told),
        Err(fault) => status(fault),
    }
}
