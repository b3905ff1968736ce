ghost use Rattle.std.specs.Prelude.{◌≡◌, ◌↔◌, ◌^◌, ◌<◌, ◌≤◌, max};
ghost use Rattle.hlc_packed.specs.Packed.{CanCount, IsPackable, packed, unpacked};
ghost use Rattle.hlc_packed.specs.Steps.{HasNext, IsNextTooFar, IsPackedMerge, IsPackedReading, IsPackedTick, IsPackedTooFar, bound_of};
ghost use Rattle.hlc_c.specs.Stamp.{pair_of};
ghost use Rattle.hlc_c.specs.Status.{status_of};

use crate::stamp::CStamp;
use crate::status::{
    HLC_BITS, HLC_MESSAGE_TOO_FAR, HLC_NO_ROOM, HLC_OK, HLC_READING, HLC_TOO_FAR, HLC_WIDE,
};
use hlc_packed::{PackedBits, StepFault};

/// The number that packs a stamp with so many bits for `c`.
#[unsafe(no_mangle)]
pub extern "C" fn hlc_pack(stamp: CStamp, bits: u32, number: &mut u64) -> u32
    ensures ok { result ≡ HLC_OK ↔ (CanCount bits × IsPackable bits (pair_of stamp)) }
    ensures bits { result ≡ HLC_BITS ↔ ¬ CanCount bits }
    ensures wide { result ≡ HLC_WIDE ↔ (CanCount bits × ¬ IsPackable bits (pair_of stamp)) }

    ensures number { result ≡ HLC_OK → number.new ≡ packed bits (pair_of stamp) }
    ensures unchanged { ¬ (result ≡ HLC_OK) → number.new ≡ number.old }
{
    let Some(bits) = PackedBits::new(bits) else {
        return HLC_BITS;
    };
    match bits.pack(stamp.into()) {
        Some(packed) => {
            *number = packed;
            HLC_OK
        }
        None => HLC_WIDE,
    }
}

/// The stamp that a number packs with so many bits for `c`.
#[unsafe(no_mangle)]
pub extern "C" fn hlc_unpack(number: u64, bits: u32, stamp: &mut CStamp) -> u32
    ensures ok { result ≡ HLC_OK ↔ CanCount bits }
    ensures bits { result ≡ HLC_BITS ↔ ¬ CanCount bits }

    ensures stamp { result ≡ HLC_OK → pair_of stamp.new ≡ unpacked bits number }
    ensures unchanged { ¬ (result ≡ HLC_OK) → stamp.new ≡ stamp.old }
{
    let Some(bits) = PackedBits::new(bits) else {
        return HLC_BITS;
    };
    *stamp = bits.unpack(number).into();
    HLC_OK
}

/// The number of the next event, a send or a local one, after the number of the node's last event.
///
/// The clock's number is 0 before the node's first event.
#[unsafe(no_mangle)]
pub extern "C" fn hlc_packed_after(
    old: u64,
    bits: u32,
    reading: u64,
    limit: u64,
    new: &mut u64,
) -> u32
    ensures ok { result ≡ HLC_OK ↔ (CanCount bits × IsPackedReading bits reading × ¬ IsNextTooFar bits old reading limit × HasNext old) }
    ensures bits { result ≡ HLC_BITS ↔ ¬ CanCount bits }
    ensures reading { result ≡ HLC_READING ↔ (CanCount bits × ¬ IsPackedReading bits reading) }
    ensures too_far { result ≡ HLC_TOO_FAR ↔ (CanCount bits × IsPackedReading bits reading × IsNextTooFar bits old reading limit) }
    ensures no_room { result ≡ HLC_NO_ROOM
        ↔ (CanCount bits × IsPackedReading bits reading × ¬ IsNextTooFar bits old reading limit × ¬ HasNext old) }

    ensures least { result ≡ HLC_OK → IsPackedTick bits old reading new.new }
    ensures within_limit { result ≡ HLC_OK → ¬ IsPackedTooFar bits new.new reading limit }
    ensures unchanged { ¬ (result ≡ HLC_OK) → new.new ≡ new.old }
{
    let Some(bits) = PackedBits::new(bits) else {
        return HLC_BITS;
    };
    match bits.tick(old, reading, limit) {
        Ok(number) => {
            *new = number;
            HLC_OK
        }
        Err(fault) => fault_status(fault),
    }
}

/// The clock's next event, a send or a local one: its number becomes the clock's.
#[unsafe(no_mangle)]
pub extern "C" fn hlc_packed_tick(clock: &mut u64, bits: u32, reading: u64, limit: u64) -> u32
    ensures ok { result ≡ HLC_OK ↔ (CanCount bits × IsPackedReading bits reading × ¬ IsNextTooFar bits clock.old reading limit × HasNext clock.old) }
    ensures bits { result ≡ HLC_BITS ↔ ¬ CanCount bits }
    ensures reading { result ≡ HLC_READING ↔ (CanCount bits × ¬ IsPackedReading bits reading) }
    ensures too_far { result ≡ HLC_TOO_FAR ↔ (CanCount bits × IsPackedReading bits reading × IsNextTooFar bits clock.old reading limit) }
    ensures no_room { result ≡ HLC_NO_ROOM
        ↔ (CanCount bits × IsPackedReading bits reading × ¬ IsNextTooFar bits clock.old reading limit × ¬ HasNext clock.old) }

    ensures least { result ≡ HLC_OK → IsPackedTick bits clock.old reading clock.new }
    ensures within_limit { result ≡ HLC_OK → ¬ IsPackedTooFar bits clock.new reading limit }
    ensures unchanged { ¬ (result ≡ HLC_OK) → clock.new ≡ clock.old }
{
    hlc_packed_after(*clock, bits, reading, limit, clock)
}

/// The number of the next event, a delivery of a message that carries a number, after the number of the node's last event.
#[unsafe(no_mangle)]
pub extern "C" fn hlc_packed_after_message(
    old: u64,
    message: u64,
    bits: u32,
    reading: u64,
    limit: u64,
    new: &mut u64,
) -> u32
    ensures ok { result ≡ HLC_OK ↔ (CanCount bits × IsPackedReading bits reading × ¬ IsNextTooFar bits old reading limit
        × ¬ IsNextTooFar bits message reading limit × HasNext old × HasNext message) }
    ensures bits { result ≡ HLC_BITS ↔ ¬ CanCount bits }
    ensures reading { result ≡ HLC_READING ↔ (CanCount bits × ¬ IsPackedReading bits reading) }
    ensures too_far { result ≡ HLC_TOO_FAR ↔ (CanCount bits × IsPackedReading bits reading × IsNextTooFar bits old reading limit) }
    ensures message_too_far { result ≡ HLC_MESSAGE_TOO_FAR ↔ (CanCount bits × IsPackedReading bits reading
        × ¬ IsNextTooFar bits old reading limit × IsNextTooFar bits message reading limit) }
    ensures no_room { result ≡ HLC_NO_ROOM ↔ (CanCount bits × IsPackedReading bits reading × ¬ IsNextTooFar bits old reading limit
        × ¬ IsNextTooFar bits message reading limit × ¬ (HasNext old × HasNext message)) }

    ensures least { result ≡ HLC_OK → IsPackedMerge bits old message reading new.new }
    ensures within_limit { result ≡ HLC_OK → ¬ IsPackedTooFar bits new.new reading limit }
    ensures unchanged { ¬ (result ≡ HLC_OK) → new.new ≡ new.old }
{
    let Some(bits) = PackedBits::new(bits) else {
        return HLC_BITS;
    };
    match bits.merge(old, message, reading, limit) {
        Ok(number) => {
            *new = number;
            HLC_OK
        }
        Err(fault) => fault_status(fault),
    }
}

/// The clock's next event, a delivery of a message that carries a number: its number becomes the clock's.
#[unsafe(no_mangle)]
pub extern "C" fn hlc_packed_merge(
    clock: &mut u64,
    message: u64,
    bits: u32,
    reading: u64,
    limit: u64,
) -> u32
    ensures ok { result ≡ HLC_OK ↔ (CanCount bits × IsPackedReading bits reading × ¬ IsNextTooFar bits clock.old reading limit
        × ¬ IsNextTooFar bits message reading limit × HasNext clock.old × HasNext message) }
    ensures bits { result ≡ HLC_BITS ↔ ¬ CanCount bits }
    ensures reading { result ≡ HLC_READING ↔ (CanCount bits × ¬ IsPackedReading bits reading) }
    ensures too_far { result ≡ HLC_TOO_FAR ↔ (CanCount bits × IsPackedReading bits reading × IsNextTooFar bits clock.old reading limit) }
    ensures message_too_far { result ≡ HLC_MESSAGE_TOO_FAR ↔ (CanCount bits × IsPackedReading bits reading
        × ¬ IsNextTooFar bits clock.old reading limit × IsNextTooFar bits message reading limit) }
    ensures no_room { result ≡ HLC_NO_ROOM ↔ (CanCount bits × IsPackedReading bits reading × ¬ IsNextTooFar bits clock.old reading limit
        × ¬ IsNextTooFar bits message reading limit × ¬ (HasNext clock.old × HasNext message)) }

    ensures least { result ≡ HLC_OK → IsPackedMerge bits clock.old message reading clock.new }
    ensures within_limit { result ≡ HLC_OK → ¬ IsPackedTooFar bits clock.new reading limit }
    ensures unchanged { ¬ (result ≡ HLC_OK) → clock.new ≡ clock.old }
{
    hlc_packed_after_message(*clock, message, bits, reading, limit, clock)
}

/// The clock sees a message that carries a number, and counts nothing: it becomes the greater of both.
#[unsafe(no_mangle)]
pub extern "C" fn hlc_packed_observe(
    clock: &mut u64,
    message: u64,
    bits: u32,
    reading: u64,
    limit: u64,
) -> u32
    ensures ok { result ≡ HLC_OK ↔ (CanCount bits × IsPackedReading bits reading × ¬ IsPackedTooFar bits message reading limit) }
    ensures bits { result ≡ HLC_BITS ↔ ¬ CanCount bits }
    ensures reading { result ≡ HLC_READING ↔ (CanCount bits × ¬ IsPackedReading bits reading) }
    ensures message_too_far { result ≡ HLC_MESSAGE_TOO_FAR
        ↔ (CanCount bits × IsPackedReading bits reading × IsPackedTooFar bits message reading limit) }

    ensures greater { result ≡ HLC_OK → clock.new ≡ max clock.old message }
    ensures unchanged { ¬ (result ≡ HLC_OK) → clock.new ≡ clock.old }
{
    let Some(bits) = PackedBits::new(bits) else {
        return HLC_BITS;
    };
    match bits.observe(*clock, message, reading, limit) {
        Ok(number) => {
            *clock = number;
            HLC_OK
        }
        Err(fault) => fault_status(fault),
    }
}

/// The bound that is to be durable before the clock gives numbers that aren't below the bound before.
#[unsafe(no_mangle)]
pub extern "C" fn hlc_packed_bound(clock: u64, bits: u32, window: u64, bound: &mut u64) -> u32
    ensures ok { result ≡ HLC_OK ↔ (CanCount bits × (bound_of bits clock window < 2 ^ 64)) }
    ensures bits { result ≡ HLC_BITS ↔ ¬ CanCount bits }
    ensures no_room { result ≡ HLC_NO_ROOM ↔ (CanCount bits × (2 ^ 64 ≤ bound_of bits clock window)) }

    ensures bound { result ≡ HLC_OK → bound.new ≡ bound_of bits clock window }
    ensures unchanged { ¬ (result ≡ HLC_OK) → bound.new ≡ bound.old }
{
    let Some(bits) = PackedBits::new(bits) else {
        return HLC_BITS;
    };
    match bits.bound(clock, window) {
        Some(number) => {
            *bound = number;
            HLC_OK
        }
        None => HLC_NO_ROOM,
    }
}

// The status that stands for a fault.
fn fault_status(fault: StepFault) -> u32
    ensures { result ≡ status_of fault }
{
    match fault {
        StepFault::Reading => HLC_READING,
        StepFault::ClockTooFar => HLC_TOO_FAR,
        StepFault::MessageTooFar => HLC_MESSAGE_TOO_FAR,
        StepFault::NoRoom => HLC_NO_ROOM,
    }
}
