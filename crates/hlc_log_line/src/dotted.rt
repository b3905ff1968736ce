ghost use Rattle.std.specs.Prelude.{◌≡◌, ◌==◌, ◌<◌, ◌≤◌, IfSome, length, drop, position};
ghost use Rattle.hlc_log_line.specs.Room.{IsWritten};
ghost use Rattle.hlc_log_line.specs.StampText.{count_of, dotted_or_none, dotted_stamp, dotted_text, pair_stamp};

use crate::room::write;
use hlc_csv::number;
use hlc_stamp::Stamp;
use itoa::write_digits;

// The digits of any l, a dot, and those of any c.
pub(crate) const STAMP_ROOM: usize = 31;

/// Writes a stamp as `L.C` at the front of a room, if it fits. Answers how long that is.
pub fn write_dotted(room: &mut [u8], stamp: Stamp) -> usize
    ensures { IsWritten room.old room.new (dotted_text stamp) result }
{
    let mut text = [0; STAMP_ROOM];
    let start = end_with_pair(&mut text, stamp.l, stamp.c);
    write(room, &text[start..])
}

/// The stamp that a text writes as `L.C`, where both are numbers of one to twenty digits, as logs have them.
pub fn read_dotted(text: &[u8]) -> Option<Stamp>
    ensures { result ≡ dotted_stamp text.now }
{
    let dot = dot_in(text)?;
    read_pair(&text[..dot], &text[dot + 1..])
}

// Writes l, a dot and c at the end of their room. Answers where they begin.
fn end_with_pair(text: &mut [u8; STAMP_ROOM], l: u64, c: u32) -> usize
    ensures within { result ≤ length text.new }
    ensures text { drop result text.new ≡ dotted_text (record { l = l; c = c }) }
{
    let dot = write_digits(u64::from(c), text, STAMP_ROOM) - 1;
    text[dot] = b'.';
    write_digits(l, text, dot)
}

// Writes a stamp so, and nothing for (0, 0). Answers where it begins.
pub(crate) fn end_with_stamp_or_none(text: &mut [u8; STAMP_ROOM], stamp: Stamp) -> usize
    ensures within { result ≤ length text.new }
    ensures text { drop result text.new ≡ dotted_or_none stamp }
{
    if stamp.l == 0 && stamp.c == 0 {
        return STAMP_ROOM;
    }
    end_with_pair(text, stamp.l, stamp.c)
}

// The `c` that a field writes, if it has at most 32 bits.
#[inline]
fn count(field: &[u8]) -> Option<u32>
    ensures { result ≡ count_of field.now }
{
    u32::try_from(number(field)?).ok()
}

/// The stamp of which two fields are the numbers.
#[inline]
pub fn read_pair(l: &[u8], c: &[u8]) -> Option<Stamp>
    ensures { result ≡ pair_stamp l.now c.now }
{
    let l = number(l)?;
    let c = count(c)?;
    Some(Stamp { l, c })
}

// Where the first dot of a field is.
fn dot_in(field: &[u8]) -> Option<usize>
    ensures dot { result ≡ position (λ byte. byte == 46) field.now }
    ensures there { IfSome result (λ dot. dot < length field.now) }
{
    field.iter().position(|byte| *byte == b'.')
}
