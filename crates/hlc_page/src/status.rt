ghost use Rattle.std.specs.Prelude.{◌≡◌, ◌↔◌, ◌∷◌, []};
ghost use Rattle.hlc_csv.specs.declared.records_fault.RecordsFault.TheVariants as records;
ghost use Rattle.hlc_command_line.specs.declared.command_fault.CommandFault.TheVariants as stop;
ghost use Rattle.hlc_page.specs.declared.page_fault.PageFault.TheVariants as page;

use crate::page_fault::PageFault;
use hlc_command_line::CommandFault;
use hlc_csv::RecordsFault;

/// The answer stands at the front of the room.
pub const PAGE_OK: u32 = 0;

/// An event that was named isn't there: the picture of a script stands there, and says so, and of a log nothing stands there.
pub const PAGE_NO_EVENT: u32 = 1;

/// What is told of the log stands there, and a stamp is behind or not above another one, or a message carried another stamp than its send.
pub const PAGE_BROKEN: u32 = 2;

/// The row stands there that says why the text is no log. With a status above this one nothing stands there, save for `PAGE_OVER_LIMIT`.
pub const PAGE_BAD_LOG: u32 = 3;

/// The room is too small for the answer, whose length is told.
pub const PAGE_ROOM: u32 = 4;

/// The settings are out of their limits; or of a log, a text says nothing of how lines of JSON are read, or asks nothing.
pub const PAGE_SETTINGS: u32 = 5;

/// The text has more records than are taken.
pub const PAGE_TOO_LONG: u32 = 6;

/// An allocation was refused. Nothing else fails when bytes in memory are read and written.
pub const PAGE_MEMORY: u32 = 7;

/// What is told of the log stands there, and a drift exceeds the limit, or a claimed `l` is above its reading by more than that. No stamp is
/// behind or not above another one, and each message carried its send's.
pub const PAGE_OVER_LIMIT: u32 = 8;

/// The numbers by which the scripts of a page know the statuses.
pub fn statuses_have_numbers()
    ensures { PAGE_OK ∷ PAGE_NO_EVENT ∷ PAGE_BROKEN ∷ PAGE_BAD_LOG ∷ PAGE_ROOM ∷ PAGE_SETTINGS ∷ PAGE_TOO_LONG ∷ PAGE_MEMORY
        ∷ PAGE_OVER_LIMIT ∷ [] ≡ 0 ∷ 1 ∷ 2 ∷ 3 ∷ 4 ∷ 5 ∷ 6 ∷ 7 ∷ 8 ∷ [] }
{}

// The status of a fault that left no answer, where the settings were within their limits: the text was too long, or memory was
// refused. A writer in memory reports that as a failed write.
pub(crate) fn status(fault: CommandFault) -> u32
    ensures too_long { result ≡ PAGE_TOO_LONG ↔ fault ≡ stop.Records records.TooLong }
    ensures memory { result ≡ PAGE_MEMORY ↔ ¬ (fault ≡ stop.Records records.TooLong) }
{
    match fault {
        CommandFault::Records(RecordsFault::TooLong) => PAGE_TOO_LONG,
        _ => PAGE_MEMORY,
    }
}

// The status of a fault in what a page gives.
pub(crate) fn given_status(fault: PageFault) -> u32
    ensures settings { result ≡ PAGE_SETTINGS ↔ fault ≡ page.Mistake }
    ensures memory { result ≡ PAGE_MEMORY ↔ ¬ (fault ≡ page.Mistake) }
{
    match fault {
        PageFault::Mistake => PAGE_SETTINGS,
        PageFault::Memory => PAGE_MEMORY,
    }
}
