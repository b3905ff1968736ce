ghost use Rattle.std.specs.Prelude.{◌≡◌, ◌↔◌, ◌+◌, ◌-◌, ◌^◌, ◌<◌};
ghost use Rattle.hlc_c.specs.Restart.{IsBoundOf, first_of};
ghost use Rattle.hlc_c.specs.Stamp.{pair_of};

use crate::stamp::CStamp;
use crate::status::{HLC_NO_ROOM, HLC_OK};

/// The clock begins from a bound that was made durable: each stamp that the node gave before is below it.
#[unsafe(no_mangle)]
pub extern "C" fn hlc_restore(clock: &mut CStamp, bound: u64)
    ensures { pair_of clock.new ≡ first_of bound }
{
    *clock = CStamp { l: bound, c: 0 };
}

/// The bound that is to be durable before the clock gives stamps that aren't below the bound before.
#[unsafe(no_mangle)]
pub extern "C" fn hlc_bound(clock: CStamp, window: u64, bound: &mut u64) -> u32
    ensures ok { result ≡ HLC_OK ↔ (clock.l + window < 2 ^ 64 - 1) }
    ensures no_room { result ≡ HLC_NO_ROOM ↔ ¬ (clock.l + window < 2 ^ 64 - 1) }

    ensures bound { result ≡ HLC_OK → IsBoundOf (pair_of clock) window bound.new }
    ensures unchanged { ¬ (result ≡ HLC_OK) → bound.new ≡ bound.old }
{
    match clock.l.checked_add(window) {
        Some(last) if last < u64::MAX => {
            *bound = last + 1;
            HLC_OK
        }
        _ => HLC_NO_ROOM,
    }
}
