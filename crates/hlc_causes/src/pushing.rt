ghost use Rattle.std.specs.Prelude.{◌≡◌, ◌+◌, ◌-◌, ◌^◌, ◌<◌, [], ◌∷◌, ◌++◌, length};
ghost use Rattle.std.specs.Option.{ForSome};
ghost use Rattle.hlc_causality.specs.Assignment.{pair_at};
ghost use Rattle.hlc_causality.specs.Causality.{SkeletonEvent};
ghost use Rattle.hlc_causality.specs.Feasible.{IsLeastFeasible, IsLeastFeasibleAt};
ghost use Rattle.hlc_causality.specs.LeastFeasible.{greater_next};
ghost use Rattle.hlc_causality.specs.Neighbours.{place_of};
ghost use Rattle.hlc_causality.specs.ReceiveEvents.{clock_events};
ghost use Rattle.hlc_execution.specs.Execution.{MayFollow, clock_of};

use hlc_causality::EventRule;
use hlc_execution::Execution;
use hlc_stamp::{EventId, MAX_CAPACITY, NodeId, Stamp};

/// Puts an event at the end, with the least stamp, and answers its place. What was least stays least.
///
/// `reading` is what the node's clock read, and `send` what is delivered, if the event is a delivery. The stamp is the least that isn't
/// below the event's floor and is above those directly before it, or, where the event doesn't tick, not below them: so the rule says that
/// `Execution::give_rule` gave the event, or else the execution's `Receives`. It takes no memory, but the room for one event.
pub fn push_least(
    execution: &mut Execution,
    node: NodeId,
    reading: u64,
    send: Option<EventId>,
) -> EventId
    requires room { 0 < execution.old.room }
    requires few { length execution.old.events < MAX_CAPACITY }
    requires follows { MayFollow execution.old.nodes execution.old.events
        (record { node = node.0; reading = reading; send = place_of send }) }
    requires least { IsLeastFeasible (clock_of execution.old) execution.old.stamps }
    ensures events { let event : SkeletonEvent = record { node = node.0; reading = reading; send = place_of send } in
        execution.new.events ≡ execution.old.events ++ event ∷ [] }
    ensures least { IsLeastFeasible (clock_of execution.new) execution.new.stamps }
    ensures rules { execution.new.rules ≡ execution.old.rules }
    ensures nodes { execution.new.nodes ≡ execution.old.nodes }
    ensures place { result.0 ≡ length execution.old.events }
    ensures room { execution.new.room + 1 ≡ execution.old.room }
{
    let stamp = next_stamp(execution, node, reading, send);
    execution.push(node, reading, stamp, send)
}

// The least stamp of an event that comes next.
fn next_stamp(execution: &Execution, node: NodeId, reading: u64, send: Option<EventId>) -> Stamp
    requires few { length execution.now.events < MAX_CAPACITY }
    requires follows { MayFollow execution.now.nodes execution.now.events
        (record { node = node.0; reading = reading; send = place_of send }) }
    requires least { IsLeastFeasible (clock_of execution.now) execution.now.stamps }
    ensures { let event : SkeletonEvent = record { node = node.0; reading = reading; send = place_of send } in
        IsLeastFeasibleAt (clock_events execution.now.rules (execution.now.events ++ event ∷ [])) execution.now.stamps
        (length execution.now.events) result }
{
    let rule = execution.next_rule(send.is_some(), reading);
    let after_last = raised(execution, rule, rule.floor, execution.last_at(node));
    raised(execution, rule, after_last, send)
}

// The greater of a stamp and the least that may come directly after that of an event, if there is one.
fn raised(execution: &Execution, rule: EventRule, stamp: Stamp, direct: Option<EventId>) -> Stamp
    requires exists { ForSome direct (λ d. d.0 < length execution.now.events) }
    requires room { ForSome direct (λ d. (pair_at execution.now.stamps d.0).c < 2 ^ 32 - 1) }
    ensures { result ≡ greater_next rule.ticks execution.now.stamps stamp (place_of direct) }
{
    match direct {
        Some(direct) => stamp.max(rule.after(execution.stamp(direct))),
        None => stamp,
    }
}
