// What the floor of an event raised.

ghost use Rattle.std.specs.Prelude.{◌≡◌, ℕ, ◌+◌, ◌<◌, ◌≤◌, ◌↔◌, ◌⊎◌, Contains, Err, IfErr, IfOk, IfSome, length};
ghost use Rattle.hlc_stamp.specs.Ids.{places_of};
ghost use Rattle.hlc_causality.specs.Assignment.{pair_at};
ghost use Rattle.hlc_causality.specs.ClockEvents.{clock_event_at};
ghost use Rattle.hlc_causality.specs.LeastFeasible.{greater_next};
ghost use Rattle.hlc_causality.specs.Neighbours.{place_of};
ghost use Rattle.hlc_causality.specs.Past.{IsInPast};
ghost use Rattle.hlc_execution.specs.Execution.{HasLeastClockStamps, IsExecution, clock_of};
ghost use Rattle.hlc_explain.specs.Taints.{ArePairsWithout, least_without, tainted_by, without_floor};

use hlc_causality::EventRule;
use hlc_execution::Execution;
use hlc_stamp::{EventId, Stamp};
use hlc_verdict::AuditFault;
use std::alloc::{AllocError, Global};

/// The events whose stamps the floor of an event raised, rising: of each, the stamp is greater than it would be if that floor were (0, 0) and all
/// else the same. Where each event ticks from its reading on, its floor is its reading with `c` 0.
///
/// Each of them is the event itself or one that it happened before, and most often not all of these. It goes over the event and each later
/// one twice, and takes 16 bytes for each, besides the list.
pub fn tainted(
    alloc: Global,
    execution: &Execution,
    event: EventId,
) -> Result<Vec<EventId>, AuditFault>
    requires { HasLeastClockStamps execution.now }
    ensures tainted { IfOk result (λ list. places_of list.items ≡ tainted_by (clock_of execution.now) execution.now.stamps event.0) }
    ensures past { IfOk result (λ list. (f : ℕ) → Contains (places_of list.items) f → IsInPast execution.now.events event.0 f) }
    ensures no_event { (result ≡ Err AuditFault.NoEvent) ↔ (length execution.now.events ≤ event.0) }
    ensures no_other_fault { IfErr result (λ fault. (fault ≡ AuditFault.NoEvent) ⊎ (fault ≡ AuditFault.Memory)) }
{
    if event.0 >= execution.len() {
        return Err(AuditFault::NoEvent);
    }
    let without = WithoutFloor::of(alloc, execution, event)?;
    let tainted = without.raised(alloc, execution)?;
    Ok(tainted)
}

// The least stamps of an event and of those after it, if that event's floor were (0, 0).
#[derive(Drop)]
struct WithoutFloor {
    event: EventId,
    stamps: Vec<Stamp>,
}

impl WithoutFloor {
    // Of all of them: each is made from those of its direct predecessors.
    fn of(alloc: Global, execution: &Execution, event: EventId) -> Result<WithoutFloor, AllocError>
        requires least { HasLeastClockStamps execution.now }
        requires well_formed { IsExecution execution.now }
        requires exists { event.0 < length execution.now.events }
        ensures event { IfOk result (λ without. without.event ≡ event) }
        ensures stamps { IfOk result (λ without. ArePairsWithout (clock_of execution.now) event.0 without.stamps.items) }
        ensures len { IfOk result (λ without. event.0 + length without.stamps.items ≡ length execution.now.events) }
    {
        let len = execution.len();
        let stamps = Vec::with_capacity(alloc, (len - event.0) as usize)?;
        let mut without = WithoutFloor { event, stamps };
        for place in event.0..len {
            let stamp = without.next(execution, EventId(place));
            without.stamps.push_reserved(stamp);
        }
        Ok(without)
    }

    // That of the event that comes next: the greatest of its floor and of the least that may come directly after its direct predecessors.
    fn next(&self, execution: &Execution, next: EventId) -> Stamp
        requires least { HasLeastClockStamps execution.now }
        requires well_formed { IsExecution execution.now }
        requires exists { next.0 < length execution.now.events }
        requires next { self.now.event.0 + length self.now.stamps.items ≡ next.0 }
        requires known { ArePairsWithout (clock_of execution.now) self.now.event.0 self.now.stamps.items }
        ensures { result ≡ pair_at (least_without (clock_of execution.now) self.now.event.0) next.0 }
    {
        let rule = self.rule(execution, next);
        let after_previous = self.raised_over(
            execution,
            rule,
            rule.floor,
            execution.previous(next),
        );
        self.raised_over(execution, rule, after_previous, execution.send(next))
    }

    // What the rule of an event asks.
    fn rule(&self, execution: &Execution, next: EventId) -> EventRule
        requires first { self.now.event.0 < length execution.now.events }
        requires exists { next.0 < length execution.now.events }
        ensures floor { result.floor ≡ (clock_event_at (without_floor (clock_of execution.now) self.now.event.0) next.0).floor }
        ensures ticks { result.ticks ≡ (clock_event_at (without_floor (clock_of execution.now) self.now.event.0) next.0).ticks }
    {
        let rule = execution.rule(next);
        if next.0 == self.event.0 {
            EventRule {
                floor: Stamp { l: 0, c: 0 },
                ..rule
            }
        } else {
            rule
        }
    }

    // The greater of a stamp and of the least that may come directly after that of an event, if there is one.
    fn raised_over(
        &self,
        execution: &Execution,
        rule: EventRule,
        stamp: Stamp,
        direct: Option<EventId>,
    ) -> Stamp
        requires least { HasLeastClockStamps execution.now }
        requires well_formed { IsExecution execution.now }
        requires first { self.now.event.0 < length execution.now.events }
        requires exists { IfSome direct (λ d. d.0 < length execution.now.events) }
        requires earlier { IfSome direct (λ d. d.0 < self.now.event.0 + length self.now.stamps.items) }
        requires known { ArePairsWithout (clock_of execution.now) self.now.event.0 self.now.stamps.items }
        ensures { result ≡ greater_next rule.ticks (least_without (clock_of execution.now) self.now.event.0) stamp (place_of direct) }
    {
        match direct {
            Some(direct) => stamp.max(rule.after(self.stamp(execution, direct))),
            None => stamp,
        }
    }

    // That of an event so far. Those before the first are as they are.
    fn stamp(&self, execution: &Execution, id: EventId) -> Stamp
        requires least { HasLeastClockStamps execution.now }
        requires first { self.now.event.0 < length execution.now.events }
        requires exists { id.0 < length execution.now.events }
        requires earlier { id.0 < self.now.event.0 + length self.now.stamps.items }
        requires known { ArePairsWithout (clock_of execution.now) self.now.event.0 self.now.stamps.items }
        ensures { result ≡ pair_at (least_without (clock_of execution.now) self.now.event.0) id.0 }
    {
        if id.0 < self.event.0 {
            return execution.stamp(id);
        }
        self.stamps[(id.0 - self.event.0) as usize]
    }

    // The events whose stamps are above these, rising.
    fn raised(&self, alloc: Global, execution: &Execution) -> Result<Vec<EventId>, AllocError>
        requires least { HasLeastClockStamps execution.now }
        requires first { self.now.event.0 < length execution.now.events }
        requires len { self.now.event.0 + length self.now.stamps.items ≡ length execution.now.events }
        requires known { ArePairsWithout (clock_of execution.now) self.now.event.0 self.now.stamps.items }
        ensures { IfOk result (λ list. places_of list.items ≡ tainted_by (clock_of execution.now) execution.now.stamps self.now.event.0) }
    {
        let mut raised = Vec::new(alloc);
        for place in self.event.0..execution.len() {
            let event = EventId(place);
            if self
                .stamp(execution, event)
                .is_below(execution.stamp(event))
            {
                raised.reserve(1)?;
                raised.push_reserved(event);
            }
        }
        Ok(raised)
    }
}
