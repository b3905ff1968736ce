// A caller of `hlc_core`.

ghost use Rattle.std.specs.Prelude.{◌≡◌, IfOk};
ghost use Rattle.hlc_core.specs.Request.{request_of};
ghost use Rattle.hlc_core.specs.Timed.{timed_request_of};

use hlc_core::{Action, Step};
use std::alloc::{AllocError, Global};

/// A step for a node's list: it asks the same as an action, of which it has a copy, when the clock reads `reading`.
pub fn plan_step(alloc: Global, reading: u64, action: &Action) -> Result<Step, AllocError>
    ensures { IfOk result (λ step. timed_request_of step ≡ record { reading = reading; request = request_of action.now }) }
{
    let action = action.copy(alloc)?;
    Ok(Step { reading, action })
}
