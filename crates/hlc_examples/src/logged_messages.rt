// A caller of `hlc_execution`.

ghost use Rattle.std.specs.Prelude.{◌≡◌, ◌∷◌, [], IfOk, None, Some};
ghost use Rattle.hlc_causality.specs.Forcing.{NamesForcing};

use hlc_execution::Execution;
use hlc_stamp::{EventId, NodeId, Stamp};
use std::alloc::{AllocError, Global};

/// What another system logged of a message: a send at node 0 and its delivery at node 1, each with the reading and the stamp
/// that it claims. The answer names the event that forces the delivery's stamp, judged by these stamps alone.
pub fn keep_message(
    alloc: Global,
    send: (u64, Stamp),
    delivery: (u64, Stamp),
) -> Result<(Execution, Option<EventId>), AllocError>
    ensures events { IfOk result (λ kept. kept.0.events
        ≡ record { node = 0; reading = send.0; send = None } ∷ record { node = 1; reading = delivery.0; send = Some 0 } ∷ []) }
    ensures stamps { IfOk result (λ kept. kept.0.stamps ≡ send.1 ∷ delivery.1 ∷ []) }
    ensures forcing { IfOk result (λ kept. NamesForcing kept.0.events kept.0.stamps 1 kept.1) }
{
    let mut execution = Execution::new(alloc, 2)?;
    execution.reserve()?;
    let sent = execution.push(NodeId(0), send.0, send.1, None);
    execution.reserve()?;
    let delivered = execution.push(NodeId(1), delivery.0, delivery.1, Some(sent));
    let forcing = execution.forcing(delivered);
    Ok((execution, forcing))
}
