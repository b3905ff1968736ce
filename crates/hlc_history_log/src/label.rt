// What a label says of an event.

ghost use Rattle.std.specs.Prelude.{◌≡◌, ◌++◌, ◌<◌, OnOk, decimal, length};
ghost use Rattle.hlc_arena.specs.Arena.{IsWellFormed, history_of};
ghost use Rattle.hlc_arena.specs.History.{event_at};
ghost use Rattle.hlc_history_log.specs.Label.{label_of};

use hlc_arena::{Arena, Kind};
use hlc_stamp::EventId;
use itoa::Buffer;
use std::alloc::AllocError;

// Adds words and a number.
fn put_number(text: &mut Vec<u8>, words: &[u8], number: u32) -> Result<(), AllocError>
    ensures { OnOk result (text.new.items ≡ text.old.items ++ words.now ++ decimal number) }
{
    text.extend_from_slice(words)?;
    text.extend_from_slice(Buffer::new().format(number).as_bytes())
}

// Adds words and a key.
fn put_key(text: &mut Vec<u8>, words: &[u8], key: &[u8]) -> Result<(), AllocError>
    ensures { OnOk result (text.new.items ≡ text.old.items ++ words.now ++ key.now) }
{
    text.extend_from_slice(words)?;
    text.extend_from_slice(key)
}

/// Writes the label of an event in place of what the text had.
pub(crate) fn put_label(
    text: &mut Vec<u8>,
    history: &Arena,
    event: EventId,
) -> Result<(), AllocError>
    requires exists { event.0 < length history.now.events }
    requires well_formed { IsWellFormed (history_of history.now) }
    ensures { OnOk result (text.new.items ≡ label_of history.now.events (event_at history.now.events event.0).kind) }
{
    text.clear();
    match history.get(event).unwrap().kind {
        Kind::Write { key, .. } => put_key(text, b"write ", key),
        Kind::Erase { key } => put_key(text, b"erase ", key),
        Kind::Send { to, write } => {
            put_key(
                text,
                b"send ",
                history.get(write).unwrap().kind.key().unwrap(),
            )?;
            put_number(text, b" to ", u32::from(to.0))
        }
        Kind::Sync { to, .. } => put_number(text, b"sync to ", u32::from(to.0)),
        Kind::Deliver { sent } => put_number(text, b"deliver ", sent.0),
    }
}
