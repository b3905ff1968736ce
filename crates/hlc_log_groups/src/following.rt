// The event whose stamp the stamp of the clock rule follows.

ghost use Rattle.std.specs.Prelude.{◌≡◌, ◌<◌, IfSome, length};
ghost use Rattle.std.specs.Option.{ForSome};
ghost use Rattle.hlc_causality.specs.Neighbours.{place_of};
ghost use Rattle.hlc_ordered_log.specs.InOrder.{IsInOrder};
ghost use Rattle.hlc_log_groups.specs.Followed.{followed_in, greater_of, unless_below};

use hlc_causes::Claims;
use hlc_ordered_log::OrderedLog;
use hlc_stamp::{EventId, Stamp};

// Of two events, if there are any, the one with the greater claimed stamp, the first if they tie.
fn greater_of<C: Claims>(
    claims: &C,
    first: Option<EventId>,
    second: Option<EventId>,
) -> Option<EventId>
    requires first { ForSome first (λ d. d.0 < length (C.claimed claims.now)) }
    requires second { ForSome second (λ d. d.0 < length (C.claimed claims.now)) }
    ensures value { place_of result ≡ greater_of (C.claimed claims.now) (place_of first) (place_of second) }
    ensures exists { ForSome result (λ d. d.0 < length (C.claimed claims.now)) }
{
    match (first, second) {
        (Some(one), Some(other)) => {
            if claims.stamp(one) < claims.stamp(other) {
                Some(other)
            } else {
                Some(one)
            }
        }
        (None, second) => second,
        (first, None) => first,
    }
}

// An event, unless the stamp claimed there is below a floor.
fn unless_below<C: Claims>(claims: &C, floor: Stamp, event: Option<EventId>) -> Option<EventId>
    requires { ForSome event (λ d. d.0 < length (C.claimed claims.now)) }
    ensures value { place_of result ≡ unless_below (C.claimed claims.now) floor (place_of event) }
    ensures exists { ForSome result (λ d. d.0 < length (C.claimed claims.now)) }
{
    match event {
        Some(event) if floor <= claims.stamp(event) => Some(event),
        _ => None,
    }
}

/// The event whose stamp the stamp that the clock rule gives at a position comes directly after: the event of the same node before it, or the
/// send of what it receives. It is the one with the greater stamp, as the event saw them claimed, and the former if they tie; `None` if the floor
/// is greater than both.
///
/// It takes constant time and no memory.
pub fn followed(log: &OrderedLog, position: EventId) -> Option<EventId>
    requires ordered { IsInOrder log.now }
    requires exists { position.0 < length log.now.events }
    ensures value { place_of result ≡ followed_in log.now position.0 }
    ensures event { IfSome result (λ d. d.0 < length log.now.events) }
{
    let seen = log.seen(position);
    let greater = greater_of(&seen, log.previous(position), log.send(position));
    unless_below(&seen, log.execution().rule(position).floor, greater)
}
