ghost use Rattle.std.specs.Prelude.{◌≡◌, ◌-◌, ◌^◌, ◌<◌, ◌≤◌, ◌↔◌, IsTrue, if◌then◌else◌, length, nat_le};
ghost use Rattle.hlc_causality.specs.LeastFeasible.{next_pair};
ghost use Rattle.hlc_execution.specs.Execution.{clock_of};
ghost use Rattle.hlc_causes.specs.Causes.{NamesCauses, RollsOver, NamesAhead};
ghost use Rattle.hlc_causes.specs.Rule.{next_l, rule_pair};

use crate::answers::Causes;
use crate::claims::Claims;
use crate::direct::{first_not_above, greatest_claimed, if_not_above, rule_event};
use hlc_causality::EventRule;
use hlc_execution::Execution;
use hlc_stamp::{EventId, Stamp};

/// The rules that are broken at an event itself, whatever happened before it: none if the claimed stamp is the least that can be
/// written there, not below its floor and above those claimed directly before it, or, where the event doesn't tick, not below them.
///
/// `full` is the greatest `c` that the claims' form of stamps can write; a greater one that is claimed for the event itself
/// counts as written, too. The execution's own stamps don't matter. It takes constant time and no memory.
pub fn causes_at<C: Claims>(execution: &Execution, claims: &C, event: EventId, full: u32) -> Causes
    requires exists { event.0 < length execution.now.events }
    requires one_each { length (C.claimed claims.now) ≡ length execution.now.events }
    ensures { NamesCauses (clock_of execution.now) (C.claimed claims.now) full event.0 result }
{
    let rule = rule_event(execution, event);
    let claimed = claims.stamp(event);
    Causes {
        behind: rule.is_behind(claimed),
        not_above_previous: if_not_above(claims, rule.ticks, claimed, rule.previous),
        not_above_send: if_not_above(claims, rule.ticks, claimed, rule.send),
        ahead: if_ahead(execution, claims, event, full),
    }
}

// The least stamp that can be written at an event, if the claimed one is greater.
fn if_ahead<C: Claims>(
    execution: &Execution,
    claims: &C,
    event: EventId,
    full: u32,
) -> Option<Stamp>
    requires exists { event.0 < length execution.now.events }
    requires one_each { length (C.claimed claims.now) ≡ length execution.now.events }
    ensures { NamesAhead (clock_of execution.now) (C.claimed claims.now) full event.0 result }
{
    let rule = rule_event(execution, event);
    let claimed = claims.stamp(event);
    if rule.is_behind(claimed) {
        return None;
    }
    if first_not_above(claims, rule.ticks, claimed, rule.previous, rule.send).is_some() {
        return None;
    }
    let before = greatest_claimed(claims, rule.previous, rule.send);
    let least = least_written(rule.ticks, before, rule.floor, full.max(claimed.c));
    if claimed == least { None } else { Some(least) }
}

/// Whether the stamp claimed for an event rolls over: the clock rule, after the stamps claimed at the direct predecessors, gives
/// a `c` that is greater than `full`, and the stamp has the next `l` instead, with a `c` of 0.
///
/// The execution's own stamps don't matter. It takes constant time and no memory.
pub fn rolls_over<C: Claims>(execution: &Execution, claims: &C, event: EventId, full: u32) -> bool
    requires exists { event.0 < length execution.now.events }
    requires one_each { length (C.claimed claims.now) ≡ length execution.now.events }
    ensures { IsTrue result ↔ RollsOver (clock_of execution.now) (C.claimed claims.now) full event.0 }
{
    let rule = rule_event(execution, event);
    let before = greatest_claimed(claims, rule.previous, rule.send);
    rolls_over_after(rule.ticks, before, rule.floor, full, claims.stamp(event))
}

// Whether a stamp has the next `l` after the one that the rule gives, which has a `c` that is greater than `full`.
fn rolls_over_after(
    ticks: bool,
    before: Option<Stamp>,
    floor: Stamp,
    full: u32,
    stamp: Stamp,
) -> bool
    ensures { let p = rule_pair ticks before floor in IsTrue result ↔ ((full < p.c) × (stamp ≡ next_l p)) }
{
    match before {
        Some(before) if floor <= before => {
            !leaves_room(ticks, before, full) && before.l < stamp.l && stamp == next_l(before)
        }
        _ => full < floor.c && floor.l < stamp.l && stamp == next_l(floor),
    }
}

// The least stamp with a `c` up to `top` that may come directly after the greatest before it, if there is any, and isn't below the
// floor.
fn least_written(ticks: bool, before: Option<Stamp>, floor: Stamp, top: u32) -> Stamp
    requires { let p = rule_pair ticks before floor in top < p.c → p.l < 2 ^ 64 - 1 }
    ensures { let p = rule_pair ticks before floor in result ≡ if nat_le p.c top then p else next_l p }
{
    match before {
        Some(before) if floor <= before => {
            if leaves_room(ticks, before, top) {
                EventRule { floor, ticks }.after(before)
            } else {
                next_l(before)
            }
        }
        _ => { if floor.c <= top { floor } else { next_l(floor) } }
    }
}

// Whether the least stamp that may come directly after another one has a `c` up to `top`.
pub(crate) fn leaves_room(ticks: bool, before: Stamp, top: u32) -> bool
    ensures { IsTrue result ↔ ((next_pair ticks before).c ≤ top) }
{
    if ticks {
        before.c < top
    } else {
        before.c <= top
    }
}

// The stamp with the next `l`, and a `c` of 0.
pub(crate) fn next_l(stamp: Stamp) -> Stamp
    requires { stamp.l < 2 ^ 64 - 1 }
    ensures { result ≡ next_l stamp }
{
    Stamp {
        l: stamp.l + 1,
        c: 0,
    }
}
