ghost use Rattle.std.specs.Prelude.{◌≡◌, ◌<◌, ◌≤◌, All, length};
ghost use Rattle.hlc_stamp.specs.Ids.{places_of};
ghost use Rattle.hlc_causes.specs.Given.{given_at};
ghost use Rattle.hlc_log.specs.CausalOrder.{IsCausalOrder};
ghost use Rattle.hlc_log.specs.Events.{IsInRange};
ghost use Rattle.hlc_ordered_log.specs.InOrder.{AreFilled, EachExists, IsExecutionOf, IsGivenStamps, claimed_in, clocks_of, log_in_order, seen_of};

use hlc_causes::{Claims, Seen, stamp_given};
use hlc_execution::Execution;
use hlc_log::Log;
use hlc_stamp::{EventId, MAX_CAPACITY, Stamp};

// The stamps that a log claims, in an order of its events.
#[derive(Drop)]
struct ClaimsInOrder<'a> {
    log: &'a Log,
    order: &'a [EventId],
    ghost exist: { EachExists (length log.now.events) (places_of order.now) },
}

impl Claims for ClaimsInOrder<'_> {
    ghost claimed = { λ claims. claimed_in claims.log.now.events (places_of claims.order.now) };

    fn stamp(&self, event: EventId) -> Stamp {
        self.log.stamp_at(self.order[event.0 as usize])
    }
}

// Gives each event without a stamp the one of the clock rule, after the stamps that it saw claimed just before it: those given before
// it in the order count as claimed.
pub(crate) fn give_stamps(log: &mut Log, order: &[EventId], execution: &Execution)
    requires few { length log.old.events ≤ MAX_CAPACITY }
    requires in_range { All IsInRange log.old.events }
    requires order { IsCausalOrder log.old.events (places_of order.now) }
    requires execution { IsExecutionOf log.old.events (places_of order.now) execution.now }
    ensures filled { AreFilled log.old.events log.new.events }
    ensures given { IsGivenStamps (log_in_order log.new order.now execution.now) }
{
    for (position, place) in order.iter().enumerate() {
        if !log.has_stamp_at(*place) {
            let stamp = given_stamp(log, order, execution, EventId(position as u32));
            log.give_stamp(*place, stamp);
        }
    }
}

// The stamp that the clock rule gives the event at a position.
fn given_stamp(log: &Log, order: &[EventId], execution: &Execution, position: EventId) -> Stamp
    requires exists { position.0 < length order.now }
    requires order { IsCausalOrder log.now.events (places_of order.now) }
    requires execution { IsExecutionOf log.now.events (places_of order.now) execution.now }
    ensures { let whole = log_in_order log.now order.now execution.now in
        result ≡ given_at (clocks_of whole) (seen_of whole position.0) position.0 }
{
    let claims = ClaimsInOrder { log, order };
    let carried = log.carried_at(order[position.0 as usize]);
    let seen = Seen::new(&claims, execution.send(position), carried);
    stamp_given(execution, &seen, position)
}
