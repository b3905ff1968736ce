ghost use Rattle.std.specs.Prelude.{◌≡◌, ◌+◌, ◌<◌, IfOk, OnOk, length, nat_lt};
ghost use Rattle.hlc_causality.specs.Causality.{IsSendOf, skeleton_at};
ghost use Rattle.hlc_ordered_log.specs.InOrder.{IsInOrder, reading_told, skeleton_of};
ghost use Rattle.hlc_ordered_log.specs.Skew.{AreSkews, AreSkewsBefore, NamesToldSend, TakesSkew, is_greater};

use crate::ordered_log::OrderedLog;
use crate::skew::Skew;
use crate::skew_nodes::SkewNodes;
use hlc_execution::Execution;
use hlc_stamp::{EventId, NodeId};
use std::alloc::{AllocError, Global};
use std::collections::BTreeMap;

/// The skews of nodes: for each two that messages went between, the skew that these show, if they show one. A message shows none if the
/// log doesn't tell what the clock read at one of its ends.
///
/// It goes over the events once, and takes memory for each two nodes that have a skew.
pub fn skews_of(alloc: Global, log: &OrderedLog) -> Result<BTreeMap<SkewNodes, Skew>, AllocError>
    ensures { IfOk result (λ skews. AreSkews (skeleton_of log.now) (reading_told log.now) skews.entries) }
{
    let mut skews = BTreeMap::new(alloc);
    for position in 0..log.len() {
        let event = EventId(position);
        add_delivery(log, event, &mut skews)?;
    }
    Ok(skews)
}

// The send of what an event delivers, if what the clocks read at both is told.
fn told_send(log: &OrderedLog, event: EventId) -> Option<EventId>
    requires ordered { IsInOrder log.now }
    requires exists { event.0 < length log.now.events }
    ensures { NamesToldSend (skeleton_of log.now) (reading_told log.now) event.0 result }
{
    let send = log.execution().send(event)?;
    if log.has_reading(send) && log.has_reading(event) {
        Some(send)
    } else {
        None
    }
}

// Looks at an event: if it is a delivery, the skew from the node of its send may be greater now.
fn add_delivery(
    log: &OrderedLog,
    event: EventId,
    skews: &mut BTreeMap<SkewNodes, Skew>,
) -> Result<(), AllocError>
    requires ordered { IsInOrder log.now }
    requires exists { event.0 < length log.now.events }
    requires before { AreSkewsBefore (skeleton_of log.now) (reading_told log.now) event.0 skews.old.entries }
    ensures { OnOk result (AreSkewsBefore (skeleton_of log.now) (reading_told log.now) (event.0 + 1) skews.new.entries) }
{
    let Some(send) = told_send(log, event) else {
        return Ok(());
    };
    let to = node_at(log, event);
    let from = node_at(log, send);
    let skew = skew_of(log.execution(), send, event);
    take_skew(skews, SkewNodes { to, from }, skew)
}

// Takes in what one more message between two nodes shows, if it is greater than what those before it show.
fn take_skew(
    skews: &mut BTreeMap<SkewNodes, Skew>,
    nodes: SkewNodes,
    skew: Skew,
) -> Result<(), AllocError>
    ensures { OnOk result (TakesSkew skews.old.entries skews.new.entries nodes skew) }
{
    let first = skews.get(&nodes).copied();
    if is_greater(skew, first) {
        skews.insert(nodes, skew)?;
    }
    Ok(())
}

// The node of the event at a position.
fn node_at(log: &OrderedLog, event: EventId) -> NodeId
    requires ordered { IsInOrder log.now }
    requires exists { event.0 < length log.now.events }
    ensures { result.0 ≡ (skeleton_at (skeleton_of log.now) event.0).node }
{
    node_of(log.execution(), event)
}

// The node of an event.
fn node_of(execution: &Execution, event: EventId) -> NodeId
    requires { event.0 < length execution.now.events }
    ensures { result.0 ≡ (skeleton_at execution.now.events event.0).node }
{
    execution.get(event).unwrap().node
}

// What the clock read at an event.
fn reading_of(execution: &Execution, event: EventId) -> u64
    requires { event.0 < length execution.now.events }
    ensures { result ≡ (skeleton_at execution.now.events event.0).reading }
{
    execution.get(event).unwrap().reading
}

// The skew that one message shows.
fn skew_of(execution: &Execution, send: EventId, delivery: EventId) -> Skew
    requires { IsSendOf execution.now.events send.0 delivery.0 }
    ensures send { result.send ≡ send }
    ensures delivery { result.delivery ≡ delivery }
    ensures sent_at { result.sent_at ≡ (skeleton_at execution.now.events send.0).reading }
    ensures delivered_at { result.delivered_at ≡ (skeleton_at execution.now.events delivery.0).reading }
{
    Skew {
        send,
        delivery,
        sent_at: reading_of(execution, send),
        delivered_at: reading_of(execution, delivery),
    }
}

// Whether a skew is greater than those before it, of which this is the greatest, if there are some.
fn is_greater(skew: Skew, first: Option<Skew>) -> bool
    ensures { result ≡ is_greater skew first }
{
    match first {
        None => true,
        Some(first) => is_above(skew, first),
    }
}

// Whether a skew is greater than another.
fn is_above(skew: Skew, other: Skew) -> bool
    ensures { result ≡ nat_lt (other.sent_at + skew.delivered_at) (skew.sent_at + other.delivered_at) }
{
    let (sent_at, delivered_at) = (u128::from(skew.sent_at), u128::from(skew.delivered_at));
    let (other_sent_at, other_delivered_at) = (
        u128::from(other.sent_at),
        u128::from(other.delivered_at),
    );
    sent_at + other_delivered_at > other_sent_at + delivered_at
}
