ghost use Rattle.std.specs.Prelude.{◌≡◌, ◌↔◌, IsNone, IsSome, Some, decimal};
ghost use Rattle.hlc_csv.specs.Number.{number_of};
ghost use Rattle.hlc_log_line.specs.Room.{IsWritten};
ghost use Rattle.hlc_log_line.specs.StampText.{dotted_stamp, dotted_text};
ghost use Rattle.hlc_c.specs.Stamp.{pair_of};

use crate::stamp::CStamp;
use crate::status::{HLC_OK, HLC_TEXT};
use hlc_csv::number;
use hlc_log_line::{read_dotted, write_dotted, write_number};

/// Writes a stamp as `L.C`, if it fits. Answers how long that is.
#[unsafe(no_mangle)]
pub extern "C" fn hlc_stamp_text(buffer: &mut [u8], stamp: CStamp) -> usize
    ensures { IsWritten buffer.old buffer.new (dotted_text (pair_of stamp)) result }
{
    write_dotted(buffer, stamp.into())
}

/// Writes a packed stamp as a number, if it fits. Answers how long that is.
#[unsafe(no_mangle)]
pub extern "C" fn hlc_packed_text(buffer: &mut [u8], packed: u64) -> usize
    ensures { IsWritten buffer.old buffer.new (decimal packed) result }
{
    write_number(buffer, packed)
}

/// Reads a stamp from `L.C`.
#[unsafe(no_mangle)]
pub extern "C" fn hlc_stamp_read(text: &[u8], stamp: &mut CStamp) -> u32
    ensures ok { result ≡ HLC_OK ↔ IsSome (dotted_stamp text.now) }
    ensures text { result ≡ HLC_TEXT ↔ IsNone (dotted_stamp text.now) }

    ensures stamp { result ≡ HLC_OK → dotted_stamp text.now ≡ Some (pair_of stamp.new) }
    ensures unchanged { ¬ (result ≡ HLC_OK) → stamp.new ≡ stamp.old }
{
    match read_dotted(text) {
        Some(read) => {
            *stamp = read.into();
            HLC_OK
        }
        None => HLC_TEXT,
    }
}

/// Reads a packed stamp from a number.
#[unsafe(no_mangle)]
pub extern "C" fn hlc_packed_read(text: &[u8], packed: &mut u64) -> u32
    ensures ok { result ≡ HLC_OK ↔ IsSome (number_of text.now) }
    ensures text { result ≡ HLC_TEXT ↔ IsNone (number_of text.now) }

    ensures number { result ≡ HLC_OK → number_of text.now ≡ Some packed.new }
    ensures unchanged { ¬ (result ≡ HLC_OK) → packed.new ≡ packed.old }
{
    match number(text) {
        Some(read) => {
            *packed = read;
            HLC_OK
        }
        None => HLC_TEXT,
    }
}
