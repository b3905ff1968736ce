// A caller of `hlc_causes`.

ghost use Rattle.std.specs.Prelude.{ℕ, ◌≡◌, ◌^◌, ◌-◌, ◌<◌, IfNone, IfSome, length};
ghost use Rattle.hlc_execution.specs.Execution.{clock_of};
ghost use Rattle.hlc_causes.specs.Causes.{BreaksRule, IsCause, IsFirstOf};

use hlc_causes::{Cause, causes_at};
use hlc_execution::Execution;
use hlc_stamp::{EventId, Stamp};

/// The first event of another system's log at which a clock broke a rule, and the first that it broke, by the stamps in the log.
pub fn first_cause(execution: &Execution, stamps: &Vec<Stamp>) -> Option<(EventId, Cause)>
    requires { length stamps.now.items ≡ length execution.now.events }
    ensures none { IfNone result ((f : ℕ) → f < length execution.now.events → ¬ IsCause (clock_of execution.now) stamps.now.items (2 ^ 32 - 1) f) }
    ensures cause { IfSome result (λ found. IsFirstOf (BreaksRule (clock_of execution.now) stamps.now.items (2 ^ 32 - 1) found.0.0) found.1) }
    ensures first { IfSome result (λ found. (e : ℕ) → e < found.0.0 → ¬ IsCause (clock_of execution.now) stamps.now.items (2 ^ 32 - 1) e) }
{
    for place in 0..execution.len() {
        let event = EventId(place);
        if let Some(cause) = causes_at(execution, stamps, event, u32::MAX).first() {
            return Some((event, cause));
        }
    }
    None
}
