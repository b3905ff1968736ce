ghost use Rattle.std.specs.Prelude.{◌≡◌};
ghost use Rattle.hlc_page.specs.Answer.{IsLogTooLong, IsVectorsAnswer};
ghost use Rattle.hlc_page.specs.Given.{IsJsonMistake};
ghost use Rattle.hlc_page.specs.Status.{IsStatusOf};

use crate::given::json_rules;
use crate::options::records;
use crate::page_log::PageLog;
use crate::room::put;
use crate::status::{PAGE_BAD_LOG, PAGE_OK, PAGE_SETTINGS, PAGE_TOO_LONG, given_status, status};
use hlc_log_commands::{CommandFault, vectors_of_log};
use hlc_log_text::NameKey;
use std::alloc::Global;

/// Writes the events of a log with their vectors, as `hlc vectors` does.
#[unsafe(no_mangle)]
pub extern "C" fn hlc_page_vectors(
    alloc: Global,
    log: &PageLog<'_>,
    room: &mut [u8],
    told: &mut usize,
) -> u32
    ensures status { IsStatusOf (IsVectorsAnswer log.now) room.old room.new told.old told.new result }
    ensures settings { result ≡ PAGE_SETTINGS → IsJsonMistake log.now }
    ensures too_long { result ≡ PAGE_TOO_LONG → IsLogTooLong log.now }
{
    let json = match json_rules(alloc, log) {
        Ok(json) => json,
        Err(fault) => return given_status(fault),
    };
    let records = records(log);
    let mut events = Vec::new(alloc);
    match vectors_of_log(
        alloc,
        log.text,
        &mut events,
        records,
        json,
        NameKey::fixed(),
    ) {
        Ok(()) => put(&events, PAGE_OK, room, told),
        Err(CommandFault::BadLog) => put(&events, PAGE_BAD_LOG, room, told),
        Err(CommandFault::LogTooLong { .. }) => PAGE_TOO_LONG,
        Err(fault) => status(fault),
    }
}
