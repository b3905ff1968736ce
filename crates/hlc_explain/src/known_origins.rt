// Origins of the events before a range, as walks find them.

ghost use Rattle.std.specs.Prelude.{◌≡◌, ◌<◌, ◌↔◌, IfOk, IsTrue, List, length};
ghost use Rattle.hlc_stamp.specs.Order.{Pair};
ghost use Rattle.hlc_causality.specs.Causality.{Skeleton};
ghost use Rattle.hlc_causality.specs.ReceiveEvents.{plain_rules};
ghost use Rattle.hlc_explain.specs.KnownOrigins.{AreKnownOrigins, known_at};
ghost use Rattle.hlc_explain.specs.Summaries.{origin_of};

use hlc_causality::Receives;
use hlc_execution::Execution;
use hlc_stamp::EventId;
use std::alloc::{AllocError, Global};

/// What is known of the origins of the events before a place.
///
/// A walk stops where an earlier one went. So all walks together go over no event twice, and mark each once.
#[derive(Drop)]
pub(crate) struct KnownOrigins {
    // For each event its origin, or the event itself while its origin isn't known. Empty if memory was refused.
    origins: Vec<EventId>,
}

impl KnownOrigins {
    /// No origin of an event before `end` is known yet. If memory is refused, none ever will be.
    pub(crate) fn before(alloc: Global, end: EventId) -> KnownOrigins
        ensures { (s : Skeleton) (pairs : List Pair) → AreKnownOrigins s pairs result.origins.items }
    {
        match unknown(alloc, end) {
            Ok(origins) => KnownOrigins { origins },
            Err(_) => KnownOrigins {
                origins: Vec::new(alloc),
            },
        }
    }

    /// The origin of an event, which from now on is known of all events that lead to it.
    pub(crate) fn origin(&mut self, execution: &Execution, event: EventId) -> EventId
        requires ticking { execution.now.rules ≡ plain_rules Receives.Tick }
        requires exists { event.0 < length execution.now.events }
        requires known { AreKnownOrigins execution.now.events execution.now.stamps self.old.origins.items }
        ensures origin { result.0 ≡ origin_of execution.now.events execution.now.stamps event.0 }
        ensures known { AreKnownOrigins execution.now.events execution.now.stamps self.new.origins.items }
    {
        let origin = self.walk(execution, event);
        self.mark(execution, event, origin);
        origin
    }

    // Follows forcing events back from an event to its origin.
    fn walk(&self, execution: &Execution, event: EventId) -> EventId
        requires ticking { execution.now.rules ≡ plain_rules Receives.Tick }
        requires exists { event.0 < length execution.now.events }
        requires known { AreKnownOrigins execution.now.events execution.now.stamps self.now.origins.items }
        ensures { result.0 ≡ origin_of execution.now.events execution.now.stamps event.0 }
    {
        let mut at = self.known(event);
        while let Some(before) = execution.forcing(at) {
            at = self.known(before);
        }
        at
    }

    // Marks the events of a walk with the origin that it found.
    fn mark(&mut self, execution: &Execution, event: EventId, origin: EventId)
        requires ticking { execution.now.rules ≡ plain_rules Receives.Tick }
        requires exists { event.0 < length execution.now.events }
        requires known { AreKnownOrigins execution.now.events execution.now.stamps self.old.origins.items }
        requires origin { origin.0 ≡ origin_of execution.now.events execution.now.stamps event.0 }
        ensures { AreKnownOrigins execution.now.events execution.now.stamps self.new.origins.items }
    {
        let mut at = event;
        while self.is_unknown(at) {
            self.origins[at.0 as usize] = origin;
            let Some(before) = execution.forcing(at) else {
                return;
            };
            at = before;
        }
    }

    // The origin of an event if it is known, else the event itself.
    fn known(&self, event: EventId) -> EventId
        ensures { result.0 ≡ known_at self.now.origins.items event.0 }
    {
        self.origins.get(event.0 as usize).copied().unwrap_or(event)
    }

    // Whether there is a mark of an event, and it isn't its origin yet.
    fn is_unknown(&self, event: EventId) -> bool
        ensures { IsTrue result → event.0 < length self.now.origins.items }
    {
        self.origins.get(event.0 as usize) == Some(&event)
    }
}

// Each event before `end` as its own mark.
fn unknown(alloc: Global, end: EventId) -> Result<Vec<EventId>, AllocError>
    ensures { IfOk result (λ origins. (s : Skeleton) (pairs : List Pair) → AreKnownOrigins s pairs origins.items) }
{
    let mut origins = Vec::with_capacity(alloc, end.0 as usize)?;
    for place in 0..end.0 {
        origins.push_reserved(EventId(place));
    }
    Ok(origins)
}
