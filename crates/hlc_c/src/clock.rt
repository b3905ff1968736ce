ghost use Rattle.std.specs.Prelude.{◌≡◌, ◌↔◌, IsTrue};
ghost use Rattle.hlc_stamp.specs.Order.{IsBelow};
ghost use Rattle.hlc_c.specs.Clock.{CanCountAt, CanMerge, CanTick, IsLater, IsMerge, IsMergeTooFar, IsObserved, IsReading, IsTick, IsTickTooFar, IsTooFar};
ghost use Rattle.hlc_c.specs.Stamp.{pair_of};

use crate::stamp::CStamp;
use crate::status::{HLC_MESSAGE_TOO_FAR, HLC_NO_ROOM, HLC_OK, HLC_READING, HLC_TOO_FAR};
use hlc_stamp::{MAX_READING, Stamp, tick};

/// The clock's next event, a send or a local one: its stamp becomes the clock's.
///
/// The clock is the stamp of the node's last event, (0, 0) before its first.
#[unsafe(no_mangle)]
pub extern "C" fn hlc_tick(clock: &mut CStamp, reading: u64) -> u32
    ensures ok { result ≡ HLC_OK ↔ (IsReading reading × CanTick clock.old reading) }
    ensures reading { result ≡ HLC_READING ↔ ¬ IsReading reading }
    ensures no_room { result ≡ HLC_NO_ROOM ↔ (IsReading reading × ¬ CanTick clock.old reading) }

    ensures least { result ≡ HLC_OK → IsTick (pair_of clock.old) reading (pair_of clock.new) }
    ensures unchanged { ¬ (result ≡ HLC_OK) → clock.new ≡ clock.old }
{
    if !is_reading(reading) {
        return HLC_READING;
    }
    let l = clock.l.max(reading);
    if !can_count_at(*clock, l) {
        return HLC_NO_ROOM;
    }
    *clock = tick(Stamp::from(*clock), reading).into();
    HLC_OK
}

/// `hlc_tick`, unless the clock is ahead of the reading by more than the limit.
#[unsafe(no_mangle)]
pub extern "C" fn hlc_tick_within(clock: &mut CStamp, reading: u64, limit: u64) -> u32
    ensures ok { result ≡ HLC_OK ↔ (IsReading reading × ¬ IsTickTooFar clock.old reading limit × CanTick clock.old reading) }
    ensures reading { result ≡ HLC_READING ↔ ¬ IsReading reading }
    ensures too_far { result ≡ HLC_TOO_FAR ↔ (IsReading reading × IsTickTooFar clock.old reading limit) }
    ensures no_room { result ≡ HLC_NO_ROOM ↔ (IsReading reading × ¬ IsTickTooFar clock.old reading limit × ¬ CanTick clock.old reading) }

    ensures least { result ≡ HLC_OK → IsTick (pair_of clock.old) reading (pair_of clock.new) }
    ensures unchanged { ¬ (result ≡ HLC_OK) → clock.new ≡ clock.old }
{
    if is_reading(reading) && is_too_far(clock.l, reading, limit) {
        return HLC_TOO_FAR;
    }
    hlc_tick(clock, reading)
}

/// The clock's next event, a delivery of a message of this stamp: its stamp becomes the clock's.
///
/// The clock is the stamp of the node's last event, (0, 0) before its first; the message has the stamp of its send.
#[unsafe(no_mangle)]
pub extern "C" fn hlc_merge(clock: &mut CStamp, message: CStamp, reading: u64) -> u32
    ensures ok { result ≡ HLC_OK ↔ (IsReading reading × CanMerge clock.old message reading) }
    ensures reading { result ≡ HLC_READING ↔ ¬ IsReading reading }
    ensures no_room { result ≡ HLC_NO_ROOM ↔ (IsReading reading × ¬ CanMerge clock.old message reading) }

    ensures least { result ≡ HLC_OK → IsMerge (pair_of clock.old) (pair_of message) reading (pair_of clock.new) }
    ensures unchanged { ¬ (result ≡ HLC_OK) → clock.new ≡ clock.old }
{
    let mut seen = later(*clock, message);
    let status = hlc_tick(&mut seen, reading);
    if status == HLC_OK {
        *clock = seen;
    }
    status
}

/// `hlc_merge`, unless the clock or the message is ahead of the reading by more than the limit.
///
/// So a message from a clock that is far ahead doesn't pull this one along.
#[unsafe(no_mangle)]
pub extern "C" fn hlc_merge_within(
    clock: &mut CStamp,
    message: CStamp,
    reading: u64,
    limit: u64,
) -> u32
    ensures ok { result ≡ HLC_OK ↔ (IsReading reading × ¬ IsMergeTooFar clock.old message reading limit × CanMerge clock.old message reading) }
    ensures reading { result ≡ HLC_READING ↔ ¬ IsReading reading }
    ensures too_far { result ≡ HLC_TOO_FAR ↔ (IsReading reading × IsMergeTooFar clock.old message reading limit) }
    ensures no_room { result ≡ HLC_NO_ROOM ↔
        (IsReading reading × ¬ IsMergeTooFar clock.old message reading limit × ¬ CanMerge clock.old message reading) }

    ensures least { result ≡ HLC_OK → IsMerge (pair_of clock.old) (pair_of message) reading (pair_of clock.new) }
    ensures unchanged { ¬ (result ≡ HLC_OK) → clock.new ≡ clock.old }
{
    if is_reading(reading) && is_too_far(clock.l.max(message.l), reading, limit) {
        return HLC_TOO_FAR;
    }
    hlc_merge(clock, message, reading)
}

/// The clock sees a message of this stamp, and counts nothing: it becomes the greater of both.
#[unsafe(no_mangle)]
pub extern "C" fn hlc_observe(clock: &mut CStamp, message: CStamp, reading: u64, limit: u64) -> u32
    ensures ok { result ≡ HLC_OK ↔ (IsReading reading × ¬ IsTooFar message.l reading limit) }
    ensures reading { result ≡ HLC_READING ↔ ¬ IsReading reading }
    ensures message_too_far { result ≡ HLC_MESSAGE_TOO_FAR ↔ (IsReading reading × IsTooFar message.l reading limit) }

    ensures least { result ≡ HLC_OK → IsObserved (pair_of clock.old) (pair_of message) (pair_of clock.new) }
    ensures unchanged { ¬ (result ≡ HLC_OK) → clock.new ≡ clock.old }
{
    if !is_reading(reading) {
        return HLC_READING;
    }
    if is_too_far(message.l, reading, limit) {
        return HLC_MESSAGE_TOO_FAR;
    }
    *clock = later(*clock, message);
    HLC_OK
}

/// Whether the first stamp comes before the second.
#[unsafe(no_mangle)]
pub extern "C" fn hlc_is_below(first: CStamp, second: CStamp) -> bool
    ensures { IsTrue result ↔ IsBelow (pair_of first) (pair_of second) }
{
    Stamp::from(first).is_below(second.into())
}

// The greater of two stamps.
fn later(first: CStamp, second: CStamp) -> CStamp
    ensures { IsLater first second result }
{
    if hlc_is_below(first, second) {
        second
    } else {
        first
    }
}

// Whether a clock may read this.
fn is_reading(reading: u64) -> bool
    ensures { IsTrue result ↔ IsReading reading }
{
    reading >= 1 && reading <= MAX_READING
}

// Whether an l is ahead of the reading by more than the limit.
fn is_too_far(l: u64, reading: u64, limit: u64) -> bool
    ensures { IsTrue result ↔ IsTooFar l reading limit }
{
    l.saturating_sub(reading) > limit
}

// Whether an event of this l can be counted after a stamp.
fn can_count_at(stamp: CStamp, l: u64) -> bool
    ensures { IsTrue result ↔ CanCountAt stamp l }
{
    stamp.l != l || stamp.c < u32::MAX
}
