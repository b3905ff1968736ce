ghost use Rattle.std.specs.Prelude.{◌≡◌, ◌<◌, ◌↔◌, IsTrue, if◌then◌else◌, length, nat_le};
ghost use Rattle.std.specs.Option.{ForSome};
ghost use Rattle.hlc_causality.specs.Neighbours.{place_of};
ghost use Rattle.hlc_execution.specs.Execution.{clock_of};
ghost use Rattle.hlc_causes.specs.Rule.{next_l, rule_pair};
ghost use Rattle.hlc_causes.specs.Swapped.{keeps_after};

use crate::causes::{leaves_room, next_l};
use crate::claims::Claims;
use crate::direct::{greatest_claimed, rule_event};
use hlc_causality::EventRule;
use hlc_execution::Execution;
use hlc_stamp::{EventId, Stamp};

/// Whether an event would keep the rule, if this one, or none, were the previous event of its node: its claimed stamp would be the least
/// that can be written there.
///
/// `full` is what it is at `causes_at`. The execution's own stamps don't matter. It takes constant time and no memory.
pub fn keeps_after<C: Claims>(
    execution: &Execution,
    claims: &C,
    event: EventId,
    previous: Option<EventId>,
    full: u32,
) -> bool
    requires exists { event.0 < length execution.now.events }
    requires previous { ForSome previous (λ d. d.0 < length execution.now.events) }
    requires one_each { length (C.claimed claims.now) ≡ length execution.now.events }
    ensures { result ≡ keeps_after (clock_of execution.now) (C.claimed claims.now) full event.0 (place_of previous) }
{
    let rule = rule_event(execution, event);
    let before = greatest_claimed(claims, previous, rule.send);
    let claimed = claims.stamp(event);
    is_least_written(rule.ticks, before, rule.floor, full.max(claimed.c), claimed)
}

// Whether a stamp is the least with a `c` up to `top` that may come directly after the greatest before it, if there is any, and isn't below
// the floor.
fn is_least_written(
    ticks: bool,
    before: Option<Stamp>,
    floor: Stamp,
    top: u32,
    stamp: Stamp,
) -> bool
    ensures { let p = rule_pair ticks before floor in IsTrue result ↔ (stamp ≡ if nat_le p.c top then p else next_l p) }
{
    match before {
        Some(before) if floor <= before => {
            if leaves_room(ticks, before, top) {
                stamp == EventRule { floor, ticks }.after(before)
            } else {
                before.l < stamp.l && stamp == next_l(before)
            }
        }
        _ => {
            if floor.c <= top {
                stamp == floor
            } else {
                floor.l < stamp.l && stamp == next_l(floor)
            }
        }
    }
}
