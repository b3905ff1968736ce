ghost use Rattle.std.specs.Prelude.{◌≡◌};
ghost use Rattle.hlc_page.specs.Answer.{IsLogAnswer, IsLogTooLong};
ghost use Rattle.hlc_page.specs.Given.{IsJsonMistake};
ghost use Rattle.hlc_page.specs.Status.{IsStatusOf};

use crate::given::json_rules;
use crate::options::drawing;
use crate::page_log::PageLog;
use crate::room::put;
use crate::status::{
    PAGE_BAD_LOG, PAGE_NO_EVENT, PAGE_OK, PAGE_SETTINGS, PAGE_TOO_LONG, given_status, status,
};
use hlc_log_commands::{CommandFault, draw_log};
use hlc_log_text::NameKey;
use std::alloc::Global;

/// Draws a log, as `hlc draw-log` does. Lines are counted over all files, and the number 2^32 - 1 names none.
#[unsafe(no_mangle)]
pub extern "C" fn hlc_page_draw_log(
    alloc: Global,
    log: &PageLog<'_>,
    explained: u32,
    from: u32,
    to: u32,
    room: &mut [u8],
    told: &mut usize,
) -> u32
    ensures status { IsStatusOf (IsLogAnswer log.now explained from to) room.old room.new told.old told.new result }
    ensures settings { result ≡ PAGE_SETTINGS → IsJsonMistake log.now }
    ensures too_long { result ≡ PAGE_TOO_LONG → IsLogTooLong log.now }
{
    let json = match json_rules(alloc, log) {
        Ok(json) => json,
        Err(fault) => return given_status(fault),
    };
    let options = drawing(log, explained, from, to);
    let mut picture = Vec::new(alloc);
    match draw_log(
        alloc,
        log.text,
        &mut picture,
        options,
        json,
        NameKey::fixed(),
    ) {
        Ok(()) => put(&picture, PAGE_OK, room, told),
        Err(CommandFault::NoEvent) => put(&picture, PAGE_NO_EVENT, room, told),
        Err(CommandFault::BadLog) => put(&picture, PAGE_BAD_LOG, room, told),
        Err(CommandFault::LogTooLong { .. }) => PAGE_TOO_LONG,
        Err(fault) => status(fault),
    }
}
