// What the clock rule reads of an event, and the stamps claimed at its direct predecessors.

ghost use Rattle.std.specs.Prelude.{◌≡◌, ℕ, ◌<◌, length};
ghost use Rattle.std.specs.Option.{ForSome, option_or};
ghost use Rattle.std.specs.Ordering.{is_lt};
ghost use Rattle.hlc_stamp.specs.Order.{stamp_cmp};
ghost use Rattle.hlc_causality.specs.Assignment.{pair_at};
ghost use Rattle.hlc_causality.specs.ClockEvents.{ClockEvents, clock_event_at, clock_skeleton};
ghost use Rattle.hlc_causality.specs.Neighbours.{place_of};
ghost use Rattle.hlc_causality.specs.Predecessors.{previous_of, send_of};
ghost use Rattle.hlc_execution.specs.Execution.{clock_of};
ghost use Rattle.hlc_causes.specs.Verdicts.{follows, if_not_above};
ghost use Rattle.hlc_causes.specs.Rule.{greatest_of};

use crate::claims::Claims;
use hlc_execution::Execution;
use hlc_stamp::{EventId, Stamp};

// An event as the clock rule reads it.
#[derive(Clone, Copy)]
pub(crate) struct RuleEvent {
    // Below this its stamp may not be.
    pub(crate) floor: Stamp,
    // Whether its stamp has to be above those directly before it, not only at least these.
    pub(crate) ticks: bool,
    // The stamp that the execution gave it.
    pub(crate) stamp: Stamp,
    pub(crate) previous: Option<EventId>,
    pub(crate) send: Option<EventId>,
}

impl RuleEvent {
    // Whether a stamp is below the floor.
    pub(crate) fn is_behind(&self, stamp: Stamp) -> bool
        ensures { result ≡ is_lt (stamp_cmp stamp self.now.floor) }
    {
        stamp < self.floor
    }
}

// What the clock rule reads of an event.
pub(crate) fn rule_event(execution: &Execution, event: EventId) -> RuleEvent
    requires { event.0 < length execution.now.events }
    ensures floor { result.floor ≡ (clock_event_at (clock_of execution.now) event.0).floor }
    ensures ticks { result.ticks ≡ (clock_event_at (clock_of execution.now) event.0).ticks }
    ensures stamp { result.stamp ≡ pair_at execution.now.stamps event.0 }
    ensures previous { place_of result.previous ≡ previous_of (clock_skeleton (clock_of execution.now)) event.0 }
    ensures send { place_of result.send ≡ send_of (clock_skeleton (clock_of execution.now)) event.0 }
    ensures earlier_previous { ForSome result.previous (λ d. d.0 < event.0) }
    ensures earlier_send { ForSome result.send (λ d. d.0 < event.0) }
{
    let kept = execution.get(event).unwrap();
    let rule = execution.rule(event);
    RuleEvent {
        floor: rule.floor,
        ticks: rule.ticks,
        stamp: kept.stamp,
        previous: kept.previous,
        send: kept.send,
    }
}

// Whether a stamp may come directly after another one: above it, or, where the event doesn't tick, not below it.
pub(crate) fn follows(ticks: bool, before: Stamp, stamp: Stamp) -> bool
    ensures { result ≡ follows ticks before stamp }
{
    if ticks {
        before < stamp
    } else {
        before <= stamp
    }
}

// The first of two events directly after which the stamp claimed at an event may not come.
pub(crate) fn first_not_above<C: Claims>(
    claims: &C,
    ticks: bool,
    stamp: Stamp,
    previous: Option<EventId>,
    send: Option<EventId>,
) -> Option<EventId>
    requires previous { ForSome previous (λ d. d.0 < length (C.claimed claims.now)) }
    requires send { ForSome send (λ d. d.0 < length (C.claimed claims.now)) }
    ensures { (t : ClockEvents) → (f : ℕ) → ticks ≡ (clock_event_at t f).ticks → stamp ≡ pair_at (C.claimed claims.now) f →
        place_of result ≡ option_or (if_not_above t (C.claimed claims.now) f (place_of previous))
        (if_not_above t (C.claimed claims.now) f (place_of send)) }
{
    if_not_above(claims, ticks, stamp, previous).or(if_not_above(claims, ticks, stamp, send))
}

// An event, unless the stamp may come directly after the one claimed there.
pub(crate) fn if_not_above<C: Claims>(
    claims: &C,
    ticks: bool,
    stamp: Stamp,
    direct: Option<EventId>,
) -> Option<EventId>
    requires { ForSome direct (λ d. d.0 < length (C.claimed claims.now)) }
    ensures { (t : ClockEvents) → (f : ℕ) → ticks ≡ (clock_event_at t f).ticks → stamp ≡ pair_at (C.claimed claims.now) f →
        place_of result ≡ if_not_above t (C.claimed claims.now) f (place_of direct) }
{
    direct.filter(|direct| !follows(ticks, claims.stamp(*direct), stamp))
}

// The greater of the stamps claimed at two events, if there are any.
pub(crate) fn greatest_claimed<C: Claims>(
    claims: &C,
    previous: Option<EventId>,
    send: Option<EventId>,
) -> Option<Stamp>
    requires previous { ForSome previous (λ d. d.0 < length (C.claimed claims.now)) }
    requires send { ForSome send (λ d. d.0 < length (C.claimed claims.now)) }
    ensures { result ≡ greatest_of (C.claimed claims.now) (place_of previous) (place_of send) }
{
    let previous = previous.map(|event| claims.stamp(event));
    let send = send.map(|event| claims.stamp(event));
    previous.max(send)
}
