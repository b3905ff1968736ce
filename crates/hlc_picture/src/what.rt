// What happened at an event, as text.

ghost use Rattle.std.specs.Prelude.{◌≡◌, ◌++◌, ◌<◌, OnOk, length, string_bytes};
ghost use Rattle.hlc_arena.specs.Arena.{IsWellFormed, history_of};
ghost use Rattle.hlc_picture.specs.What.{what_at, what_text};

use hlc_arena::{Arena, Kind};
use hlc_diagram::put_label;
use hlc_stamp::EventId;
use std::alloc::AllocError;

// How many characters of a key and of a value are shown at most.
pub(crate) const KEY_ROOM: u16 = 16;

pub(crate) const VALUE_ROOM: u16 = 24;

// The greatest number of characters that say what happened.
pub(crate) const WIDTH: u32 = 53;

/// Adds what happened at an event.
pub(crate) fn put_what(text: &mut String, history: &Arena, event: EventId) -> Result<(), AllocError>
    requires exists { event.0 < length history.now.events }
    requires well_formed { IsWellFormed (history_of history.now) }
    ensures { OnOk result (string_bytes text.new ≡ string_bytes text.old ++ what_text (what_at history.now.events event.0)) }
{
    match history.get(event).unwrap().kind {
        Kind::Write { key, value } => {
            text.push_str("write ")?;
            put_label(text, key, KEY_ROOM)?;
            text.push_str(" = ")?;
            put_label(text, value, VALUE_ROOM)
        }
        Kind::Erase { key } => {
            text.push_str("erase ")?;
            put_label(text, key, KEY_ROOM)
        }
        Kind::Send { to, write } => {
            text.push_str("send ")?;
            put_label(
                text,
                history.get(write).unwrap().kind.key().unwrap(),
                KEY_ROOM,
            )?;
            write!(text, " to {}", to.0)
        }
        Kind::Sync { to, writes } => write!(text, "sync {} to {}", writes.len(), to.0),
        Kind::Deliver { sent } => write!(text, "deliver {}", sent.0),
    }
}
