// Walks back through the past of an event.

ghost use Rattle.std.specs.Prelude.{◌≡◌, ◌≢◌, ℕ, ◌+◌, ◌<◌, ◌≤◌, ◌↔◌, ◌⊎◌, All, IfSome, IsTrue, List, length, slice_index};
ghost use Rattle.std.specs.Bool.{OnTrue};
ghost use Rattle.hlc_causality.specs.Past.{IsInPast};
ghost use Rattle.hlc_execution.specs.Execution.{IsExecution};
ghost use Rattle.hlc_explain.specs.Frontier.{IsBehind, IsFrontier, IsInRest, ends_with, frontier_with, last_of};
ghost use Rattle.hlc_explain.specs.Marks.{IsNamed};

use hlc_execution::Execution;
use hlc_stamp::{EventId, MAX_CAPACITY, NodeId};

/// The rest of a past that a walk has yet to look at.
///
/// A past has of each node the events before one place. So an end for each node says it all: the place right after its
/// last event within, or 0 if there is none. No event is looked at twice. The ends are the caller's, who knows how many nodes
/// there are. The latest event is kept apart: the walk mostly stays at its node.
#[derive(Drop)]
pub(crate) struct Frontier {
    latest: EventId,
    // The node of the latest event.
    node: NodeId,
    // The greatest of the ends.
    last_end: u32,
}

impl Frontier {
    /// Around an event and all that happened before it, where all ends are 0.
    pub(crate) fn around(execution: &Execution, event: EventId) -> Frontier
        requires well_formed { IsExecution execution.now }
        requires exists { event.0 < length execution.now.events }
        ensures frontier { (ends : List ℕ) → execution.now.nodes ≤ length ends → All (λ end. end ≡ 0) ends →
            IsFrontier execution.now.events ends result }
        ensures past { (ends : List ℕ) → All (λ end. end ≡ 0) ends →
            (e : ℕ) → IsInRest execution.now.events ends result e ↔ IsInPast execution.now.events e event.0 }
    {
        Frontier {
            latest: event,
            node: execution.get(event).unwrap().node,
            last_end: 0,
        }
    }

    /// The latest event.
    pub(crate) fn latest(&self) -> EventId
        ensures { result ≡ self.now.latest }
    {
        self.latest
    }

    /// Whether it has an event of a node, as the latest or within.
    pub(crate) fn has(&self, ends: &[u32], node: NodeId, event: EventId) -> bool
        requires { node.0 < length ends.now }
        ensures { IsTrue result ↔ (((self.now.node ≡ node) × (event.0 ≤ self.now.latest.0)) ⊎ (event.0 < slice_index ends.now node.0)) }
    {
        self.node == node && event.0 <= self.latest.0 || event.0 < ends[node.0 as usize]
    }

    /// Looks at the latest event and goes back to its direct predecessors. Answers whether any event is left.
    pub(crate) fn pass(&mut self, execution: &Execution, ends: &mut [u32]) -> bool
        requires well_formed { IsExecution execution.now }
        requires frontier { IsFrontier execution.now.events ends.old self.old }
        ensures rest { (e : ℕ) → e ≢ self.old.latest.0 → (IsInRest execution.now.events ends.old self.old e
            ↔ (IsTrue result × IsInRest execution.now.events ends.new self.new e)) }
        ensures earlier { OnTrue result (self.new.latest.0 < self.old.latest.0) }
        ensures frontier { OnTrue result (IsFrontier execution.now.events ends.new self.new) }
    {
        let sent = execution.send(self.latest);
        let previous = execution.previous(self.latest);
        self.take_in_send(execution, ends, sent);
        match previous {
            Some(previous) if previous.0 >= self.last_end => {
                self.latest = previous;
                true
            }
            Some(previous) => {
                self.take_in(ends, self.node, previous);
                self.take_latest(execution, ends)
            }
            None => self.take_latest(execution, ends),
        }
    }

    // Takes in the send that a link names, if it names one.
    fn take_in_send(&mut self, execution: &Execution, ends: &mut [u32], link: Option<EventId>)
        requires well_formed { IsExecution execution.now }
        requires frontier { IsFrontier execution.now.events ends.old self.old }
        requires earlier { IfSome link (λ event. event.0 < self.old.latest.0) }
        ensures behind { (e : ℕ) → IsBehind execution.now.events ends.new e
            ↔ (IsBehind execution.now.events ends.old e
            ⊎ ((d : ℕ) × IsNamed link d × IsInPast execution.now.events e d)) }
        ensures latest { self.new.latest ≡ self.old.latest }
        ensures node { self.new.node ≡ self.old.node }
        ensures frontier { IsFrontier execution.now.events ends.new self.new }
    {
        if let Some(sent) = link {
            let node = execution.get(sent).unwrap().node;
            self.take_in(ends, node, sent);
        }
    }

    // Takes in an event of a node, and so all that happened before it.
    fn take_in(&mut self, ends: &mut [u32], node: NodeId, event: EventId)
        requires node { node.0 < length ends.old }
        requires small { event.0 < MAX_CAPACITY }
        ensures ends { ends.new ≡ ends_with ends.old node.0 event.0 }
        ensures frontier { self.new ≡ frontier_with self.old event.0 }
    {
        let end = event.0 + 1;
        let node = node.0 as usize;
        ends[node] = ends[node].max(end);
        self.last_end = self.last_end.max(end);
    }

    // Makes the last event within the latest. Answers whether there is one.
    fn take_latest(&mut self, execution: &Execution, ends: &mut [u32]) -> bool
        requires well_formed { IsExecution execution.now }
        requires frontier { IsFrontier execution.now.events ends.old self.old }
        ensures rest { (e : ℕ) → IsBehind execution.now.events ends.old e
            ↔ (IsTrue result × IsInRest execution.now.events ends.new self.new e) }
        ensures earlier { OnTrue result (self.new.latest.0 < self.old.latest.0) }
        ensures frontier { OnTrue result (IsFrontier execution.now.events ends.new self.new) }
    {
        if self.last_end == 0 {
            return false;
        }
        self.latest = EventId(self.last_end - 1);
        self.node = execution.get(self.latest).unwrap().node;
        ends[self.node.0 as usize] = 0;
        self.last_end = greatest(ends);
        true
    }
}

// The greatest of the ends, or 0.
fn greatest(ends: &[u32]) -> u32
    ensures { result ≡ last_of ends.now }
{
    let mut greatest = 0;
    for end in ends {
        if greatest < *end {
            greatest = *end;
        }
    }
    greatest
}
