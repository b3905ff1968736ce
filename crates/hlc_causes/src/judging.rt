ghost use Rattle.std.specs.Prelude.{◌≡◌, ◌<◌, length};
ghost use Rattle.hlc_execution.specs.Execution.{clock_of};
ghost use Rattle.hlc_causes.specs.Causes.{NamesFinding};
ghost use Rattle.hlc_causes.specs.Verdicts.{verdict_on};

use crate::answers::Finding;
use crate::causes::rolls_over;
use crate::claims::Claims;
use crate::direct::{first_not_above, rule_event};
use hlc_execution::Execution;
use hlc_stamp::EventId;
use hlc_verdict::Verdict;
use std::cmp::Ordering;

/// The verdict on the stamp claimed for an event. The stamps of the execution are taken as the least ones: `push_least` makes
/// them so.
///
/// It is `Behind` below its floor, and `NotAbove` a direct predecessor if it isn't above the stamp claimed there, or, where the
/// event doesn't tick, is below that one. It takes constant time and no memory.
pub fn verdict<C: Claims>(execution: &Execution, claims: &C, event: EventId) -> Verdict
    requires exists { event.0 < length execution.now.events }
    requires one_each { length (C.claimed claims.now) ≡ length execution.now.events }
    ensures { result ≡ verdict_on (clock_of execution.now) (C.claimed claims.now) execution.now.stamps event.0 }
{
    let rule = rule_event(execution, event);
    let claimed = claims.stamp(event);
    if rule.is_behind(claimed) {
        return Verdict::Behind;
    }
    match first_not_above(claims, rule.ticks, claimed, rule.previous, rule.send) {
        Some(direct) => Verdict::NotAbove(direct),
        None => match claimed.cmp(&rule.stamp) {
            Ordering::Less => Verdict::Low(rule.stamp),
            Ordering::Equal => Verdict::Least,
            Ordering::Greater => Verdict::Ahead(rule.stamp),
        },
    }
}

/// `verdict`, but a stamp that is ahead of the least one and rolls over is found to be `RolledOver`.
///
/// `full` is the greatest `c` that the claims' form of stamps can write.
pub fn finding<C: Claims>(execution: &Execution, claims: &C, event: EventId, full: u32) -> Finding
    requires exists { event.0 < length execution.now.events }
    requires one_each { length (C.claimed claims.now) ≡ length execution.now.events }
    ensures { NamesFinding (clock_of execution.now) (C.claimed claims.now) execution.now.stamps full event.0 result }
{
    match verdict(execution, claims, event) {
        Verdict::Ahead(_) if rolls_over(execution, claims, event, full) => Finding::RolledOver,
        verdict => Finding::Judged(verdict),
    }
}
