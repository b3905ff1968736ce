// A caller of `hlc_stamp`.

ghost use Rattle.std.specs.Prelude.{◌+◌, ◌-◌, ◌^◌, ◌<◌, ◌≤◌};
ghost use Rattle.hlc_stamp.specs.Order.{IsBelow};

use hlc_stamp::{MAX_READING, Stamp, merge, tick};

/// The stamps of a message's send and of its delivery, from the last stamps of the two nodes and what their clocks read.
/// The delivery's stamp is above the send's and above the receiver's last one, even if the receiver's clock is behind.
pub fn pass_message(sender: Stamp, sent: u64, receiver: Stamp, delivered: u64) -> (Stamp, Stamp)
    requires sent { (1 ≤ sent) × (sent ≤ MAX_READING) }
    requires delivered { (1 ≤ delivered) × (delivered ≤ MAX_READING) }
    requires room { (sender.c + 1 < 2 ^ 32 - 1) × (receiver.c < 2 ^ 32 - 1) }
    ensures above_sender { IsBelow sender result.0 }
    ensures above_send { IsBelow result.0 result.1 }
    ensures above_receiver { IsBelow receiver result.1 }
{
    let send = tick(sender, sent);
    let delivery = merge(receiver, send, delivered);
    (send, delivery)
}
