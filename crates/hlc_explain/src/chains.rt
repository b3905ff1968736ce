ghost use Rattle.std.specs.Prelude.{◌≡◌, ℕ, ◌+◌, ◌<◌, ◌≤◌, ◌↔◌, ◌⊎◌, Err, IfErr, IfOk, List, OnOk, length};
ghost use Rattle.hlc_stamp.specs.Ids.{places_of};
ghost use Rattle.hlc_causality.specs.Assignment.{IsForcedAt, pair_at};
ghost use Rattle.hlc_causality.specs.Chain.{IsChainOf};
ghost use Rattle.hlc_causality.specs.ClockChain.{IsClockChainOf};
ghost use Rattle.hlc_causality.specs.ClockExplanation.{IsClockExplainedBy, IsClockForcedAt};
ghost use Rattle.hlc_causality.specs.Explanation.{IsExplainedBy};
ghost use Rattle.hlc_causality.specs.ReceiveEvents.{plain_rules};
ghost use Rattle.hlc_execution.specs.Execution.{HasLeastClockStamps, clock_of};

use hlc_causality::Receives;
use hlc_execution::Execution;
use hlc_stamp::{EventId, Stamp};
use hlc_verdict::AuditFault;
use std::alloc::Global;

/// The chain of an event, which explains its stamp: the event with its forcing events, followed back to its origin,
/// which comes first.
///
/// The forcing event of an event with stamp (l, c) is the previous event of its node, if that has the stamp (l, c - 1),
/// else the send that it delivers. If the stamp is the event's floor, or c is 0, there is none. At an event that doesn't tick,
/// c counts on by nothing: the previous event forces it if that has the same stamp, and only a stamp that is its floor has none.
///
/// It takes memory once, and time linear in the chain.
pub fn chain(
    alloc: Global,
    execution: &Execution,
    event: EventId,
) -> Result<Vec<EventId>, AuditFault>
    requires { HasLeastClockStamps execution.now }
    ensures chain { IfOk result (λ chain. IsClockChainOf (clock_of execution.now) execution.now.stamps event.0 (places_of chain.items)) }
    ensures explains { IfOk result (λ chain. IsClockExplainedBy (clock_of execution.now) execution.now.stamps event.0 (places_of chain.items)) }
    ensures no_event { (result ≡ Err AuditFault.NoEvent) ↔ (length execution.now.events ≤ event.0) }
    ensures no_other_fault { IfErr result (λ fault. (fault ≡ AuditFault.NoEvent) ⊎ (fault ≡ AuditFault.Memory)) }

    // No clock that keeps to floors and ticks could have given the event a lower stamp.
    ensures forces { OnOk result (IsClockForcedAt (clock_of execution.now) execution.now.stamps event.0) }

    // Where each event ticks from its reading on, no floor is needed to say so.
    ensures ticking_chain { execution.now.rules ≡ plain_rules Receives.Tick →
        IfOk result (λ chain. IsChainOf execution.now.events execution.now.stamps event.0 (places_of chain.items)) }
    ensures ticking_explains { execution.now.rules ≡ plain_rules Receives.Tick →
        IfOk result (λ chain. IsExplainedBy execution.now.events execution.now.stamps event.0 (places_of chain.items)) }
    ensures ticking_forces { execution.now.rules ≡ plain_rules Receives.Tick →
        OnOk result (IsForcedAt execution.now.events execution.now.stamps event.0) }
{
    let Some(record) = execution.get(event) else {
        return Err(AuditFault::NoEvent);
    };
    let mut chain = Vec::with_capacity(alloc, chain_length(execution, event, record.stamp))?;
    chain.push_reserved(event);
    let mut at = event;
    while let Some(before) = execution.forcing(at) {
        chain.push_reserved(before);
        at = before;
    }
    chain.reverse();
    Ok(chain)
}

// How many events the chain of an event has.
fn chain_length(execution: &Execution, event: EventId, stamp: Stamp) -> usize
    requires least { HasLeastClockStamps execution.now }
    requires exists { event.0 < length execution.now.events }
    requires stamp { stamp ≡ pair_at execution.now.stamps event.0 }
    ensures { (chain : List ℕ) → IsClockChainOf (clock_of execution.now) execution.now.stamps event.0 chain → result ≡ length chain }
{
    if execution.all_tick() {
        stamp.c as usize + 1
    } else {
        followed_length(execution, event)
    }
}

// The same, by following it back: where an event doesn't tick, or has a floor with a count, its stamp doesn't tell.
fn followed_length(execution: &Execution, event: EventId) -> usize
    requires { event.0 < length execution.now.events }
    ensures { (chain : List ℕ) → IsClockChainOf (clock_of execution.now) execution.now.stamps event.0 chain → result ≡ length chain }
{
    let mut events = 1;
    let mut at = event;
    while let Some(before) = execution.forcing(at) {
        events += 1;
        at = before;
    }
    events
}
