ghost use Rattle.std.specs.Prelude.{◌≡◌, ◌↔◌, false};
ghost use Rattle.hlc_seeded.specs.Storm.{are_settings};
ghost use Rattle.hlc_page.specs.Answer.{IsStorm};
ghost use Rattle.hlc_page.specs.Status.{IsStatusOf};

use crate::options::has_storm;
use crate::room::put;
use crate::status::{PAGE_MEMORY, PAGE_OK, PAGE_SETTINGS, PAGE_TOO_LONG};
use hlc_script_commands::print_storm;
use std::alloc::Global;

/// Prints the script that is drawn from a seed, as `hlc storm` does.
#[unsafe(no_mangle)]
pub extern "C" fn hlc_page_storm(
    alloc: Global,
    nodes: u16,
    steps: u32,
    seed: u64,
    room: &mut [u8],
    told: &mut usize,
) -> u32
    ensures status { IsStatusOf (IsStorm nodes steps seed) room.old room.new told.old told.new result }
    ensures settings { result ≡ PAGE_SETTINGS ↔ are_settings nodes steps ≡ false }
    ensures too_long { ¬ (result ≡ PAGE_TOO_LONG) }
{
    if !has_storm(nodes, steps) {
        return PAGE_SETTINGS;
    }
    let mut script = Vec::new(alloc);
    match print_storm(alloc, nodes, steps, seed, &mut script) {
        Ok(()) => put(&script, PAGE_OK, room, told),
        // There is such a script, and nothing is read.
        Err(_) => PAGE_MEMORY,
    }
}
