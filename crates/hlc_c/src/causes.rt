ghost use Rattle.std.specs.Prelude.{◌≡◌, ◌↔◌, ◌<◌, IfSome, IsNone, IsTrue};
ghost use Rattle.hlc_stamp.specs.Order.{IsBelow};
ghost use Rattle.hlc_packed.specs.Packed.{CanCount};
ghost use Rattle.hlc_packed.specs.Steps.{IsAbove, IsNotBehind, IsPackedAhead};
ghost use Rattle.hlc_c.specs.Causes.{IsAhead, IsAllowedStamp, IsStampBefore};
ghost use Rattle.hlc_c.specs.Stamp.{pair_of};

use crate::clock::hlc_is_below;
use crate::stamp::CStamp;
use crate::status::{HLC_BITS, HLC_OK};
use hlc_packed::PackedBits;

/// Which rules the stamp of an event breaks, as C sees them: 4 bytes.
#[repr(C)]
#[derive(Clone, Copy)]
pub struct CCauses {
    /// Its `l` is below the reading.
    pub behind: bool,
    /// It isn't above the stamp of the node's event before.
    pub not_above_old: bool,
    /// It isn't above the message's.
    pub not_above_message: bool,
    /// A lower stamp breaks none of these.
    pub ahead: bool,
}

/// What is to be said of one event's stamp: which rules it breaks.
///
/// `old` is the stamp of the node's event before, (0, 0) for its first; `message` is that of the message which the event delivers, (0, 0)
/// if it delivers none.
#[unsafe(no_mangle)]
pub extern "C" fn hlc_check(
    old: CStamp,
    message: CStamp,
    reading: u64,
    stamp: CStamp,
    causes: &mut CCauses,
)
    ensures behind { IsTrue causes.new.behind ↔ (stamp.l < reading) }
    ensures not_above_old { IsTrue causes.new.not_above_old ↔ ¬ IsBelow (pair_of old) (pair_of stamp) }
    ensures not_above_message { IsTrue causes.new.not_above_message ↔ ¬ IsBelow (pair_of message) (pair_of stamp) }
    ensures ahead { IsTrue causes.new.ahead ↔ IsAhead (pair_of old) (pair_of message) reading (pair_of stamp) }
{
    let behind = stamp.l < reading;
    let not_above_old = !hlc_is_below(old, stamp);
    let not_above_message = !hlc_is_below(message, stamp);
    let ahead = is_ahead(old, message, reading, stamp);
    *causes = CCauses {
        behind,
        not_above_old,
        not_above_message,
        ahead,
    };
}

/// `hlc_check` of packed stamps, of which 0 stands for none.
#[unsafe(no_mangle)]
pub extern "C" fn hlc_packed_check(
    old: u64,
    message: u64,
    bits: u32,
    reading: u64,
    stamp: u64,
    causes: &mut CCauses,
) -> u32
    ensures ok { result ≡ HLC_OK ↔ CanCount bits }
    ensures bits { result ≡ HLC_BITS ↔ ¬ CanCount bits }

    ensures behind { result ≡ HLC_OK → (IsTrue causes.new.behind ↔ ¬ IsNotBehind bits reading stamp) }
    ensures not_above_old { result ≡ HLC_OK → (IsTrue causes.new.not_above_old ↔ ¬ IsAbove bits old stamp) }
    ensures not_above_message { result ≡ HLC_OK → (IsTrue causes.new.not_above_message ↔ ¬ IsAbove bits message stamp) }
    ensures ahead { result ≡ HLC_OK → (IsTrue causes.new.ahead ↔ IsPackedAhead bits old message reading stamp) }
    ensures unchanged { ¬ (result ≡ HLC_OK) → causes.new ≡ causes.old }
{
    let Some(bits) = PackedBits::new(bits) else {
        return HLC_BITS;
    };
    let own = bits.unpack(stamp);
    let behind = own.l < reading;
    let not_above_old = !bits.unpack(old).is_below(own);
    let not_above_message = !bits.unpack(message).is_below(own);
    let ahead = bits.is_ahead(old, message, reading, stamp);
    *causes = CCauses {
        behind,
        not_above_old,
        not_above_message,
        ahead,
    };
    HLC_OK
}

// Whether the event may have a lower stamp.
fn is_ahead(old: CStamp, message: CStamp, reading: u64, stamp: CStamp) -> bool
    ensures { IsTrue result ↔ IsAhead (pair_of old) (pair_of message) reading (pair_of stamp) }
{
    match stamp_before(stamp) {
        Some(before) => is_allowed(old, message, reading, before),
        None => false,
    }
}

// Whether the event may have this stamp.
fn is_allowed(old: CStamp, message: CStamp, reading: u64, stamp: CStamp) -> bool
    ensures { IsTrue result ↔ IsAllowedStamp (pair_of old) (pair_of message) reading (pair_of stamp) }
{
    hlc_is_below(old, stamp) && hlc_is_below(message, stamp) && reading <= stamp.l
}

// The greatest stamp below another, if there is one.
fn stamp_before(stamp: CStamp) -> Option<CStamp>
    ensures none { IsNone result ↔ ((stamp.l ≡ 0) × (stamp.c ≡ 0)) }
    ensures before { IfSome result (IsStampBefore stamp) }
{
    let CStamp { l, c } = stamp;
    if c > 0 {
        Some(CStamp { l, c: c - 1 })
    } else if l > 0 {
        Some(CStamp {
            l: l - 1,
            c: u32::MAX,
        })
    } else {
        None
    }
}
