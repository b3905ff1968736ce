ghost use Rattle.std.specs.Prelude.{◌≡◌, ◌+◌, ◌≤◌, length, drop, decimal};
ghost use Rattle.hlc_log_line.specs.Room.{IsWritten};
ghost use Rattle.hlc_log_line.specs.StampText.{number_or_none};

use crate::room::write;
use itoa::write_digits;

// The digits of any number.
pub(crate) const NUMBER_ROOM: usize = 20;

/// Writes a number in shortest decimal at the front of a room, if it fits. Answers how many digits it has.
pub fn write_number(room: &mut [u8], number: u64) -> usize
    ensures { IsWritten room.old room.new (decimal number) result }
{
    let mut digits = [0; NUMBER_ROOM];
    let start = write_digits(number, &mut digits, NUMBER_ROOM);
    write(room, &digits[start..])
}

// Writes a number at the end of its digits' room, and nothing for 0. Answers where it begins.
pub(crate) fn end_with_number(digits: &mut [u8; NUMBER_ROOM], number: u64) -> usize
    ensures within { result ≤ length digits.new }
    ensures text { drop result digits.new ≡ number_or_none number }
{
    if number == 0 {
        return NUMBER_ROOM;
    }
    write_digits(number, digits, NUMBER_ROOM)
}
