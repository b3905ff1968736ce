ghost use Rattle.std.specs.Prelude.{◌≡◌, ◌==◌, ◌+◌, ◌*◌, ◌<◌, ◌≤◌, ◌^◌, IfOk, IfSome, length, vec_capacity, if◌then◌else◌};
ghost use Rattle.hlc_causality.specs.Causality.{skeleton_at};
ghost use Rattle.hlc_execution.specs.Execution.{IsExecution};
ghost use Rattle.hlc_explain.specs.Counts.{AreCounts, linked_count};
ghost use Rattle.hlc_explain.specs.Vectors.{vectors_of};

use crate::kept_vectors::{Vectors, place_of};
use hlc_execution::Execution;
use hlc_stamp::{EventId, NodeId};
use std::alloc::{AllocError, Global};

/// The vectors of all events of an execution, for all its nodes.
///
/// It goes over the events once. Time and memory are linear in events times nodes.
pub fn vectors(alloc: Global, execution: &Execution) -> Result<Vectors, AllocError>
    ensures { IfOk result (λ vectors. vectors ≡ vectors_of execution.now.events execution.now.nodes) }
{
    let nodes = execution.nodes();
    let events = execution.len();
    let room = place_of(EventId(events), nodes, NodeId(0));
    let mut counts = Vec::with_capacity(alloc, room)?;
    for place in 0..events {
        push_vector(&mut counts, execution, EventId(place));
    }
    Ok(Vectors {
        nodes,
        events,
        counts,
    })
}

// Puts the numbers of the next event behind those of the events before it.
fn push_vector(counts: &mut Vec<u32>, execution: &Execution, event: EventId)
    requires well_formed { IsExecution execution.now }
    requires exists { event.0 < length execution.now.events }
    requires next { length counts.old.items ≡ event.0 * execution.now.nodes }
    requires room { event.0 * execution.now.nodes + execution.now.nodes ≤ vec_capacity counts.old }
    requires counts { AreCounts execution.now.events execution.now.nodes counts.old.items }
    ensures len { length counts.new.items ≡ event.0 * execution.now.nodes + execution.now.nodes }
    ensures capacity { vec_capacity counts.new ≡ vec_capacity counts.old }
    ensures counts { AreCounts execution.now.events execution.now.nodes counts.new.items }
{
    let nodes = execution.nodes();
    let own = node_of(execution, event);
    let previous = execution.previous(event);
    let send = execution.send(event);
    for node in 0..nodes {
        let before = linked_count(counts, nodes, previous, NodeId(node));
        let sent = linked_count(counts, nodes, send, NodeId(node));
        let count = with_own(before.max(sent), own, NodeId(node));
        counts.push_reserved(count);
    }
}

// The node of an event.
fn node_of(execution: &Execution, event: EventId) -> NodeId
    requires { event.0 < length execution.now.events }
    ensures { result.0 ≡ (skeleton_at execution.now.events event.0).node }
{
    execution.get(event).unwrap().node
}

// The number for a node of the event that a link names, or 0.
fn linked_count(counts: &[u32], nodes: u16, link: Option<EventId>, node: NodeId) -> u32
    requires node { node.0 < nodes }
    requires within { IfSome link (λ event. event.0 * nodes + nodes ≤ length counts.now) }
    ensures { result ≡ linked_count counts.now nodes link node.0 }
{
    match link {
        Some(event) => counts[place_of(event, nodes, node)],
        None => 0,
    }
}

// A number for a node, counting the event itself if that is one of the node's own.
fn with_own(count: u32, own: NodeId, node: NodeId) -> u32
    requires { count + 1 < 2 ^ 32 }
    ensures { result ≡ (if own.0 == node.0 then count + 1 else count) }
{
    if own.0 == node.0 { count + 1 } else { count }
}
