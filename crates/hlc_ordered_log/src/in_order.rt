ghost use Rattle.std.specs.Prelude.{◌≡◌, ℕ, ◌+◌, ◌<◌, ◌≤◌, All, IfOk, OnOk, length};
ghost use Rattle.hlc_stamp.specs.Ids.{places_of};
ghost use Rattle.hlc_causality.specs.Neighbours.{place_of};
ghost use Rattle.hlc_causality.specs.ReceiveEvents.{own_at};
ghost use Rattle.hlc_execution.specs.Execution.{HasLeastClockStamps, MayFollow, clock_of};
ghost use Rattle.hlc_log.specs.CausalOrder.{IsCausalOrder};
ghost use Rattle.hlc_log.specs.Events.{IsInRange, IsMessageBelow, IsNumbered, own_rule};
ghost use Rattle.hlc_log.specs.Messages.{AreMessagesSound};
ghost use Rattle.hlc_ordered_log.specs.InOrder.{AreOfNodes, HasOneMore, IsExecutionOf, send_received, with_send};

use hlc_causality::Receives;
use hlc_causes::push_least;
use hlc_execution::Execution;
use hlc_log::{Log, LogEvent, LogKind, MAX_LOG_NODES};
use hlc_pages::Link;
use hlc_stamp::{EventId, MAX_CAPACITY};
use std::alloc::{AllocError, Global};

// The events of a log in a causal order, with the least stamps that they can have. Messages have numbers below `messages`.
pub(crate) fn execution_in(
    alloc: Global,
    log: &Log,
    order: &[EventId],
    messages: u32,
    nodes: u16,
    receives: Receives,
) -> Result<Execution, AllocError>
    requires few { length log.now.events ≤ MAX_CAPACITY }
    requires few_nodes { nodes ≤ MAX_LOG_NODES }
    requires named { AreOfNodes nodes log.now.events }
    requires numbered { All (IsNumbered messages) log.now.events }
    requires in_range { All IsInRange log.now.events }
    requires messages { AreMessagesSound log.now.events }
    requires order { IsCausalOrder log.now.events (places_of order.now) }
    ensures execution { IfOk result (IsExecutionOf log.now.events (places_of order.now)) }
    ensures receives { IfOk result (λ execution. execution.rules.receives ≡ receives) }
    ensures nodes { IfOk result (λ execution. execution.nodes ≡ nodes) }
{
    let mut execution = Execution::with_receives(alloc, nodes, receives)?;
    let mut sends = vec![in alloc; Link::none(); messages as usize]?;
    for place in order {
        let event = log.at(*place);
        let send = send_received(&sends, event.kind);
        let position = push_event(&mut execution, event, send)?;
        keep_send(&mut sends, event.kind, position);
    }
    Ok(execution)
}

// Puts an event of a log at the end, by the rule of its own if it has one, with the least stamp, and answers its place. `send` is what it
// receives.
pub(crate) fn push_event(
    execution: &mut Execution,
    event: LogEvent,
    send: Option<EventId>,
) -> Result<EventId, AllocError>
    requires few { length execution.old.events < MAX_CAPACITY }
    requires in_range { IsInRange event }
    requires ruled { length execution.old.rules.own ≤ length execution.old.events }
    requires follows { MayFollow execution.old.nodes execution.old.events
        (record { node = event.node.0; reading = event.reading; send = place_of send }) }
    requires least { HasLeastClockStamps execution.old }
    ensures more { OnOk result (HasOneMore execution.old execution.new event (place_of send)) }
    ensures place { IfOk result (λ place. place.0 ≡ length execution.old.events) }
{
    give_own_rule(execution, event)?;
    execution.reserve()?;
    Ok(push_least(execution, event.node, event.reading, send))
}

// Gives the event that comes next the rule that an event of the log has of its own, if it has one.
fn give_own_rule(execution: &mut Execution, event: LogEvent) -> Result<(), AllocError>
    requires in_range { IsInRange event }
    requires none { length execution.old.rules.own ≤ length execution.old.events }
    ensures own { OnOk result (own_at execution.new.rules (length execution.old.events)
        ≡ own_rule execution.old.rules.receives event) }
    ensures others { OnOk result ((k : ℕ) → k < length execution.old.events → own_at execution.new.rules k ≡ own_at execution.old.rules k) }
    ensures clocks { OnOk result (clock_of execution.new ≡ clock_of execution.old) }
    ensures size { OnOk result (length execution.new.rules.own ≤ length execution.old.events + 1) }
    ensures receives { OnOk result (execution.new.rules.receives ≡ execution.old.rules.receives) }
    ensures nodes { execution.new.nodes ≡ execution.old.nodes }
    ensures events { execution.new.events ≡ execution.old.events }
    ensures stamps { execution.new.stamps ≡ execution.old.stamps }
{
    match event.own_rule(execution.receives()) {
        Some(rule) => execution.give_rule(rule),
        None => Ok(()),
    }
}

// Where the send of the message stands that an event receives, if it receives one.
fn send_received(sends: &[Link], kind: LogKind) -> Option<EventId>
    requires { IsMessageBelow (length sends.now) kind }
    ensures { result ≡ send_received sends.now kind }
{
    match kind {
        LogKind::Receive(message) => sends[message.0 as usize].event(),
        LogKind::Local | LogKind::Send(_) | LogKind::Restart | LogKind::Outside => None,
    }
}

// Keeps where an event stands, if it is a send.
fn keep_send(sends: &mut Vec<Link>, kind: LogKind, position: EventId)
    requires message { IsMessageBelow (length sends.old.items) kind }
    requires few { position.0 < MAX_CAPACITY }
    ensures { sends.new.items ≡ with_send sends.old.items kind position }
{
    if let LogKind::Send(message) = kind {
        sends[message.0 as usize] = Link::to(position);
    }
}
