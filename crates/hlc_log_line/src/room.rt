//! Texts in a room of bytes.

ghost use Rattle.std.specs.Prelude.{◌+◌, ◌≤◌, length};
ghost use Rattle.hlc_log_line.specs.Room.{IsPut, IsWritten};

// Puts a text at a place of a room. Answers where it ends.
#[inline]
pub(crate) fn put(room: &mut [u8], at: usize, text: &[u8]) -> usize
    requires { at + length text.now ≤ length room.old }
    ensures { IsPut room.old room.new at text.now result }
{
    let end = at + text.len();
    room[at..end].copy_from_slice(text);
    end
}

// Writes a text at the front of a room, if it fits. Answers how long it is.
#[inline]
pub(crate) fn write(room: &mut [u8], text: &[u8]) -> usize
    ensures { IsWritten room.old room.new text.now result }
{
    if text.len() <= room.len() {
        room[..text.len()].copy_from_slice(text);
    }
    text.len()
}
