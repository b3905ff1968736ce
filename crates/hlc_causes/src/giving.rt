ghost use Rattle.std.specs.Prelude.{◌≡◌, ◌<◌, length};
ghost use Rattle.hlc_causality.specs.LeastFeasible.{next_pair};
ghost use Rattle.hlc_execution.specs.Execution.{clock_of};
ghost use Rattle.hlc_causes.specs.Given.{given_at, stamp_for};
ghost use Rattle.hlc_causes.specs.Rule.{rule_pair};

use crate::causes::{leaves_room, next_l};
use crate::claims::Claims;
use crate::direct::{greatest_claimed, rule_event};
use hlc_causality::EventRule;
use hlc_execution::Execution;
use hlc_stamp::{EventId, Stamp};

/// The stamp that the clock rule gives an event: the least that isn't below its floor and is above those claimed directly before it, or,
/// where the event doesn't tick, not below them. If none is left there, it is the greatest stamp.
///
/// Neither the stamp claimed for the event itself nor the execution's own stamps matter. It takes constant time and no memory.
pub fn stamp_given<C: Claims>(execution: &Execution, claims: &C, event: EventId) -> Stamp
    requires exists { event.0 < length execution.now.events }
    requires one_each { length (C.claimed claims.now) ≡ length execution.now.events }
    ensures { result ≡ given_at (clock_of execution.now) (C.claimed claims.now) event.0 }
{
    let rule = rule_event(execution, event);
    let before = greatest_claimed(claims, rule.previous, rule.send);
    match before {
        Some(before) if rule.floor <= before => next_given(rule.ticks, before),
        _ => rule.floor,
    }
}

// The least stamp that may come directly after another one, or the greatest stamp if none may.
fn next_given(ticks: bool, before: Stamp) -> Stamp
    ensures { result ≡ stamp_for (next_pair ticks before) }
{
    if leaves_room(ticks, before, u32::MAX) {
        EventRule {
            floor: before,
            ticks,
        }
        .after(before)
    } else if before.l < u64::MAX {
        next_l(before)
    } else {
        before
    }
}
