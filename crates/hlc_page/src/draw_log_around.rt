ghost use Rattle.std.specs.Prelude.{◌≡◌};
ghost use Rattle.hlc_page.specs.Answer.{IsAroundAnswer, IsLogTooLong};
ghost use Rattle.hlc_page.specs.Given.{IsJsonMistake};
ghost use Rattle.hlc_page.specs.Status.{IsStatusOf};

use crate::given::json_rules;
use crate::options::drawing_around;
use crate::page_log::PageLog;
use crate::room::put;
use crate::status::{
    PAGE_BAD_LOG, PAGE_NO_EVENT, PAGE_OK, PAGE_SETTINGS, PAGE_TOO_LONG, given_status, status,
};
use hlc_log_commands::{CommandFault, draw_log};
use hlc_log_text::NameKey;
use std::alloc::Global;

/// Draws so many rows of a log about the event on a line, as `hlc draw-log --around` does, or with 0 rows the chain that explains the stamp
/// of that event and nothing else, as `--only-chain` does. All else is as `hlc_page_draw_log` has it.
#[unsafe(no_mangle)]
pub extern "C" fn hlc_page_draw_log_around(
    alloc: Global,
    log: &PageLog<'_>,
    explained: u32,
    about: u32,
    rows: u32,
    room: &mut [u8],
    told: &mut usize,
) -> u32
    ensures status { IsStatusOf (IsAroundAnswer log.now explained about rows) room.old room.new told.old told.new result }
    ensures settings { result ≡ PAGE_SETTINGS → IsJsonMistake log.now }
    ensures too_long { result ≡ PAGE_TOO_LONG → IsLogTooLong log.now }
{
    let json = match json_rules(alloc, log) {
        Ok(json) => json,
        Err(fault) => return given_status(fault),
    };
    let options = drawing_around(log, explained, about, rows);
    let mut picture = Vec::new(alloc);
    match draw_log(
        alloc,
        log.text,
        &mut picture,
        options,
        json,
        NameKey::fixed(),
    ) {
        Ok(()) => put(&picture, PAGE_OK, room, told),
        Err(CommandFault::NoEvent) => put(&picture, PAGE_NO_EVENT, room, told),
        Err(CommandFault::BadLog) => put(&picture, PAGE_BAD_LOG, room, told),
        Err(CommandFault::LogTooLong { .. }) => PAGE_TOO_LONG,
        Err(fault) => status(fault),
    }
}
