//! The numbers by which C knows statuses, kinds and verdicts, as include/hlc.h has them: the contract of a function that does nothing.

ghost use Rattle.std.specs.Prelude.{◌≡◌, ◌∷◌, []};
ghost use Rattle.hlc_c.specs.Clock.{TicksAfterMessagesAreMerges};

use crate::claim::{HLC_LOCAL, HLC_RECEIVE, HLC_SEND};
use crate::log_event::HLC_RESTART;
use crate::status::{
    HLC_BAD_TRACE, HLC_BITS, HLC_LENGTHS, HLC_MEMORY, HLC_MESSAGE_TOO_FAR, HLC_NO_ROOM, HLC_OK,
    HLC_READING, HLC_TEXT, HLC_TOO_FAR, HLC_WIDE,
};
use crate::verdict::{HLC_AHEAD, HLC_BEHIND, HLC_LEAST, HLC_LOW, HLC_NOT_ABOVE};

/// The constants have the numbers of the header. In what order the fields of a struct lie, no contract can say: the header asserts it.
pub fn constants_have_numbers()
    ensures statuses { HLC_OK ∷ HLC_READING ∷ HLC_NO_ROOM ∷ HLC_TOO_FAR ∷ HLC_LENGTHS ∷ HLC_BAD_TRACE ∷ HLC_MEMORY ∷ []
        ≡ 0 ∷ 1 ∷ 2 ∷ 3 ∷ 4 ∷ 5 ∷ 6 ∷ [] }
    ensures later_statuses { HLC_BITS ∷ HLC_WIDE ∷ HLC_MESSAGE_TOO_FAR ∷ HLC_TEXT ∷ [] ≡ 7 ∷ 8 ∷ 9 ∷ 10 ∷ [] }
    ensures kinds { HLC_LOCAL ∷ HLC_SEND ∷ HLC_RECEIVE ∷ HLC_RESTART ∷ [] ≡ 0 ∷ 1 ∷ 2 ∷ 3 ∷ [] }
    ensures verdicts { HLC_LEAST ∷ HLC_AHEAD ∷ HLC_LOW ∷ HLC_NOT_ABOVE ∷ HLC_BEHIND ∷ [] ≡ 0 ∷ 1 ∷ 2 ∷ 3 ∷ 4 ∷ [] }
{}

/// A clock that has seen a message gives the stamp next that the message's delivery would have got: one above the message's.
pub fn seen_messages_count_later()
    ensures { TicksAfterMessagesAreMerges }
{}
