ghost use Rattle.std.specs.Prelude.{◌≡◌, IfSome, IsNone};
ghost use Rattle.hlc_log_line.specs.LogRow.{IsRowWritten};
ghost use Rattle.hlc_log_line.specs.StampText.{dotted_or_none, number_or_none};
ghost use Rattle.hlc_c.specs.LogEvent.{event_from_c};
ghost use Rattle.hlc_c.specs.Stamp.{pair_of};

use crate::log_event::CLogEvent;
use crate::stamp::CStamp;

/// Writes the row of an event for a log, with stamps as `L.C`, if it fits: its own and the one that a received message carried, of which
/// (0, 0) stands for none.
///
/// Answers how long the row is, and 0 if no log has such an event.
#[unsafe(no_mangle)]
pub extern "C" fn hlc_log_row(
    buffer: &mut [u8],
    event: &CLogEvent<'_>,
    stamp: CStamp,
    carried: CStamp,
) -> usize
    ensures row { IfSome (event_from_c event.now)
        (λ told. IsRowWritten told (dotted_or_none (pair_of stamp)) (dotted_or_none (pair_of carried)) buffer.old buffer.new result) }
    ensures no_kind { IsNone (event_from_c event.now) → (result ≡ 0) × (buffer.new ≡ buffer.old) }
{
    match event.event() {
        Some(told) => told.write_dotted(buffer, stamp.into(), carried.into()),
        None => 0,
    }
}

/// The same with packed stamps, of which 0 stands for none.
#[unsafe(no_mangle)]
pub extern "C" fn hlc_packed_log_row(
    buffer: &mut [u8],
    event: &CLogEvent<'_>,
    stamp: u64,
    carried: u64,
) -> usize
    ensures row { IfSome (event_from_c event.now)
        (λ told. IsRowWritten told (number_or_none stamp) (number_or_none carried) buffer.old buffer.new result) }
    ensures no_kind { IsNone (event_from_c event.now) → (result ≡ 0) × (buffer.new ≡ buffer.old) }
{
    match event.event() {
        Some(told) => told.write_packed(buffer, stamp, carried),
        None => 0,
    }
}
