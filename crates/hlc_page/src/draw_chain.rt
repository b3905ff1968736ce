ghost use Rattle.std.specs.Prelude.{◌≡◌, ◌↔◌, IsSome, Some};
ghost use Rattle.hlc_core.specs.State.{new_refusal};
ghost use Rattle.hlc_script_commands.specs.TooLong.{IsScriptTooLong};
ghost use Rattle.hlc_page.specs.Answer.{IsPicture, chain_of};
ghost use Rattle.hlc_page.specs.Status.{IsStatusOf};
ghost use Rattle.hlc_page.specs.declared.status.TheConstants.{PAGE_SETTINGS, PAGE_TOO_LONG};

use crate::picture::draw_part;
use hlc_command_line::DrawnPart;
use hlc_stamp::EventId;
use std::alloc::Global;

/// Draws the chain that explains the stamp of an event of the history that a script leaves, and nothing else, as `hlc draw --only-chain` does. A
/// limit of 2^64 - 1 is none.
#[unsafe(no_mangle)]
pub extern "C" fn hlc_page_draw_chain(
    alloc: Global,
    script: &[u8],
    nodes: u16,
    capacity: u32,
    drift_limit: u64,
    event: u32,
    room: &mut [u8],
    told: &mut usize,
) -> u32
    ensures status { IsStatusOf (IsPicture nodes capacity drift_limit (chain_of event) script.now) room.old room.new told.old told.new result }
    ensures settings { result ≡ PAGE_SETTINGS ↔ IsSome (new_refusal nodes capacity) }
    ensures too_long { result ≡ PAGE_TOO_LONG → IsScriptTooLong (Some script.now) }
{
    let part = DrawnPart::Chain {
        event: EventId(event),
    };
    draw_part(
        alloc,
        script,
        nodes,
        capacity,
        drift_limit,
        part,
        room,
        told,
    )
}
