ghost use Rattle.std.specs.Prelude.{◌≡◌, ◌-◌, ◌^◌, ◌<◌, ◌≤◌};
ghost use Rattle.hlc_stamp.specs.Order.{IsAtMost, IsBelow, Pair};

use crate::limits::MAX_READING;
use crate::stamp::Stamp;

/// The stamp of a send or a local event: of all pairs of natural numbers the least that is above the node's last stamp
/// and not behind the reading.
///
/// `old` is the stamp of the node's last event, (0, 0) before its first. A full counter is in the way only until the
/// reading is past its `l`. The body is the HLC algorithm of Kulkarni and others 2014, section 3.
pub fn tick(old: Stamp, reading: u64) -> Stamp
    requires positive { 1 ≤ reading }
    requires in_range { reading ≤ MAX_READING }
    requires room { reading ≤ old.l → old.c < 2 ^ 32 - 1 }
    ensures above { IsBelow old result }
    ensures not_behind { reading ≤ result.l }
    ensures least { (p : Pair) → IsBelow old p → reading ≤ p.l → IsAtMost result p }
{
    let l = old.l.max(reading);
    let c = if l == old.l { old.c + 1 } else { 0 };
    Stamp { l, c }
}

/// The stamp of a delivery: of all pairs of natural numbers the least that is above the node's last stamp and above the
/// message's, and not behind the reading.
///
/// `old` is the stamp of the node's last event, (0, 0) before its first; `message` is the stamp of the send. A full
/// counter is in the way only if no greater `l` is at hand. The body is the HLC algorithm of Kulkarni and others 2014,
/// section 3.
pub fn merge(old: Stamp, message: Stamp, reading: u64) -> Stamp
    requires positive { 1 ≤ reading }
    requires in_range { reading ≤ MAX_READING }
    requires room { message.l ≤ old.l → reading ≤ old.l → old.c < 2 ^ 32 - 1 }
    requires message_room { old.l ≤ message.l → reading ≤ message.l → message.c < 2 ^ 32 - 1 }
    ensures above_old { IsBelow old result }
    ensures above_message { IsBelow message result }
    ensures not_behind { reading ≤ result.l }
    ensures least { (p : Pair) → IsBelow old p → IsBelow message p → reading ≤ p.l → IsAtMost result p }
{
    let l = old.l.max(message.l).max(reading);
    let c = if l == old.l && l == message.l {
        old.c.max(message.c) + 1
    } else if l == old.l {
        old.c + 1
    } else if l == message.l {
        message.c + 1
    } else {
        0
    };
    Stamp { l, c }
}
