// How one event came to know of another.

ghost use Rattle.std.specs.Prelude.{◌≡◌, ◌+◌, ◌-◌, ◌<◌, ◌≤◌, ◌↔◌, ◌⊎◌, Err, IfErr, IfOk, IfSome, MatchOption, length, option_map};
ghost use Rattle.hlc_stamp.specs.Ids.{places_of};
ghost use Rattle.hlc_causality.specs.Causality.{Skeleton};
ghost use Rattle.hlc_causality.specs.Neighbours.{place_of};
ghost use Rattle.hlc_causality.specs.Past.{IsInPast};
ghost use Rattle.hlc_causality.specs.Predecessors.{previous_of, send_of};
ghost use Rattle.hlc_execution.specs.Execution.{IsExecution};
ghost use Rattle.hlc_explain.specs.Paths.{ArePathLengths, IsShortestPath, path_of, path_to, shorter};

use hlc_execution::Execution;
use hlc_stamp::EventId;
use hlc_verdict::AuditFault;
use std::alloc::{AllocError, Global};

/// A shortest list of events that begins with one event and ends with another, each a direct predecessor of the next: the event before at its
/// node, or the send that it receives. `None` if there is none: then the first is neither the second nor happened before it.
///
/// If several are that short, it goes back from the second event, at each to the event before at its node wherever a shortest list does. It
/// goes over the events from the first to the second once, and back over the list; it takes eight bytes for each of those events, and
/// memory for the list once.
pub fn path(
    alloc: Global,
    execution: &Execution,
    first: EventId,
    second: EventId,
) -> Result<Option<Vec<EventId>>, AuditFault>
    ensures path { IfOk result (λ found. option_map (λ list. places_of list.items) found ≡ path_of execution.now.events first.0 second.0) }
    ensures shortest { IfOk result (λ found. MatchOption found (¬ IsInPast execution.now.events first.0 second.0) (λ list.
        IsShortestPath execution.now.events first.0 second.0 (places_of list.items))) }
    ensures no_event { (result ≡ Err AuditFault.NoEvent)
        ↔ ((length execution.now.events ≤ first.0) ⊎ (length execution.now.events ≤ second.0)) }
    ensures no_other_fault { IfErr result (λ fault. (fault ≡ AuditFault.NoEvent) ⊎ (fault ≡ AuditFault.Memory)) }
{
    let len = execution.len();
    if first.0 >= len || second.0 >= len {
        return Err(AuditFault::NoEvent);
    }
    let lengths = PathLengths::up_to(alloc, execution, first, second)?;
    let path = lengths.followed_back(alloc, execution, second)?;
    Ok(path)
}

// Of the events from a first one on, how many events a shortest path from there to each has, if there is one.
#[derive(Drop)]
struct PathLengths {
    first: EventId,
    lengths: Vec<Option<u32>>,
}

impl PathLengths {
    // Up to a last event.
    fn up_to(
        alloc: Global,
        execution: &Execution,
        first: EventId,
        last: EventId,
    ) -> Result<PathLengths, AllocError>
        requires well_formed { IsExecution execution.now }
        requires first { first.0 < length execution.now.events }
        requires last { last.0 < length execution.now.events }
        ensures first { IfOk result (λ lengths. lengths.first ≡ first) }
        ensures lengths { IfOk result (λ lengths. ArePathLengths execution.now.events first.0 lengths.lengths.items) }
        ensures len { IfOk result (λ lengths. length lengths.lengths.items ≡ last.0 + 1 - first.0) }
    {
        let end = last.0 + 1;
        let lengths = Vec::with_capacity(alloc, end.saturating_sub(first.0) as usize)?;
        let mut known = PathLengths { first, lengths };
        for place in first.0..end {
            let length = known.next(execution, EventId(place));
            known.lengths.push_reserved(length);
        }
        Ok(known)
    }

    // That of the event that comes next.
    fn next(&self, execution: &Execution, event: EventId) -> Option<u32>
        requires exists { event.0 < length execution.now.events }
        requires well_formed { IsExecution execution.now }
        requires next { self.now.first.0 + length self.now.lengths.items ≡ event.0 }
        requires known { ArePathLengths execution.now.events self.now.first.0 self.now.lengths.items }
        ensures { result ≡ option_map length (path_of execution.now.events self.now.first.0 event.0) }
    {
        if event == self.first {
            return Some(1);
        }
        let before = self.step_back(execution, event);
        let length = self.length(before)?;
        Some(length + 1)
    }

    // Of an event's direct predecessors, the one to which the shorter path leads, and the event before at its node if they tie.
    fn step_back(&self, execution: &Execution, event: EventId) -> Option<EventId>
        requires exists { event.0 < length execution.now.events }
        requires within { event.0 ≤ self.now.first.0 + length self.now.lengths.items }
        requires known { ArePathLengths execution.now.events self.now.first.0 self.now.lengths.items }
        ensures path { let s = execution.now.events in let path = path_of s self.now.first.0 in
            path_to path (place_of result) ≡ shorter (path_to path (previous_of s event.0)) (path_to path (send_of s event.0)) }
        ensures earlier { IfSome result (λ before. before.0 < event.0) }
    {
        let previous = execution.previous(event);
        let send = execution.send(event);
        let Some(by_previous) = self.length(previous) else {
            return send;
        };
        let Some(by_send) = self.length(send) else {
            return previous;
        };
        if by_previous <= by_send {
            previous
        } else {
            send
        }
    }

    // How many events a shortest path to an event has.
    fn length(&self, event: Option<EventId>) -> Option<u32>
        requires { IfSome event (λ e. e.0 < self.now.first.0 + length self.now.lengths.items) }
        ensures { (s : Skeleton) → ArePathLengths s self.now.first.0 self.now.lengths.items →
            result ≡ option_map length (path_to (path_of s self.now.first.0) (place_of event)) }
    {
        let Some(event) = event else {
            return None;
        };
        if event.0 < self.first.0 {
            return None;
        }
        self.lengths[(event.0 - self.first.0) as usize]
    }

    // The path to an event.
    fn followed_back(
        &self,
        alloc: Global,
        execution: &Execution,
        last: EventId,
    ) -> Result<Option<Vec<EventId>>, AllocError>
        requires exists { last.0 < length execution.now.events }
        requires within { last.0 < self.now.first.0 + length self.now.lengths.items }
        requires known { ArePathLengths execution.now.events self.now.first.0 self.now.lengths.items }
        ensures { IfOk result (λ found. option_map (λ list. places_of list.items) found
            ≡ path_of execution.now.events self.now.first.0 last.0) }
    {
        let Some(length) = self.length(Some(last)) else {
            return Ok(None);
        };
        let mut path = Vec::with_capacity(alloc, length as usize)?;
        path.push_reserved(last);
        let mut at = last;
        for _step in 1..length {
            at = self.step_back(execution, at).unwrap();
            path.push_reserved(at);
        }
        path.reverse();
        Ok(Some(path))
    }
}
