// A caller of `hlc_packed`.

ghost use Rattle.std.specs.Prelude.{IfOk};
ghost use Rattle.hlc_packed.specs.Steps.{IsAbove};

use hlc_packed::{PackedBits, StepFault};

/// The packed stamps of a message's send and of its delivery, from the last ones of the two nodes. Both clocks read the same here,
/// and neither stamp is ahead of that by more than the limit.
pub fn pass_packed(
    bits: PackedBits,
    sender: u64,
    receiver: u64,
    reading: u64,
    limit: u64,
) -> Result<(u64, u64), StepFault>
    ensures above_sender { IfOk result (λ numbers. IsAbove bits.bits sender numbers.0) }
    ensures above_send { IfOk result (λ numbers. IsAbove bits.bits numbers.0 numbers.1) }
    ensures above_receiver { IfOk result (λ numbers. IsAbove bits.bits receiver numbers.1) }
{
    let send = bits.tick(sender, reading, limit)?;
    let delivery = bits.merge(receiver, send, reading, limit)?;
    Ok((send, delivery))
}
