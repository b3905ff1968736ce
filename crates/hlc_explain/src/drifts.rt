ghost use Rattle.std.specs.Prelude.{◌≡◌, ◌<◌, ◌≤◌, ◌↔◌, Err, IfErr, IfOk, IfSome, MatchOption, length};
ghost use Rattle.hlc_causality.specs.NodeEvents.{HasNoEvent, drift_at};
ghost use Rattle.hlc_causality.specs.ReceiveEvents.{plain_rules};
ghost use Rattle.hlc_execution.specs.Execution.{HasLeastClockStamps, clock_of};
ghost use Rattle.hlc_explain.specs.Drift.{IsClockDriftExplained, IsClockDriftOf, IsDriftExplained, IsDriftOf};

use crate::answers::Drift;
use hlc_causality::Receives;
use hlc_execution::Execution;
use hlc_stamp::{EventId, NodeId};
use hlc_verdict::AuditFault;

/// The drift of a node, or `None` if the node has no event yet.
///
/// An event's drift is its `l` less its own reading. As `l` is the greatest reading of the event and of all that
/// happened before it (Kulkarni and others 2014, theorem 3), a drift says how far the clock of some other node leads. An event
/// that has another floor than its reading counts with that floor among these, but its drift is still by its reading.
/// It takes no memory, and time linear in the chain of the event that it names.
pub fn drift(execution: &Execution, node: NodeId) -> Result<Option<Drift>, AuditFault>
    requires { HasLeastClockStamps execution.now }
    ensures drift { let x = execution.now in
        IfOk result (λ found. MatchOption found (HasNoEvent x.events node.0) (λ drift.
        IsClockDriftOf x.events (clock_of x) x.stamps node.0 drift)) }
    ensures explained { IfOk result (λ found. IfSome found (λ drift. IsClockDriftExplained (clock_of execution.now) execution.now.stamps drift)) }
    ensures no_node { (result ≡ Err AuditFault.NoNode) ↔ (execution.now.nodes ≤ node.0) }
    ensures no_other_fault { IfErr result (λ fault. fault ≡ AuditFault.NoNode) }

    // Where each event ticks from its reading on, no floor is needed to say so, and the drift is how far the origin's reading is ahead of the event's.
    ensures ticking_drift { let x = execution.now in x.rules ≡ plain_rules Receives.Tick →
        IfOk result (λ found. MatchOption found (HasNoEvent x.events node.0) (λ drift. IsDriftOf x.events x.stamps node.0 drift)) }
    ensures ticking_explained { execution.now.rules ≡ plain_rules Receives.Tick →
        IfOk result (λ found. IfSome found (λ drift. IsDriftExplained execution.now.events drift)) }
{
    if node.0 >= execution.nodes() {
        return Err(AuditFault::NoNode);
    }
    let Some(event) = execution.furthest_ahead(node) else {
        return Ok(None);
    };
    Ok(Some(Drift {
        ahead: ahead(execution, event),
        event,
        origin: execution.origin(event),
    }))
}

// The drift of an event.
fn ahead(execution: &Execution, event: EventId) -> u64
    requires { event.0 < length execution.now.events }
    ensures { result ≡ drift_at execution.now.events execution.now.stamps event.0 }
{
    execution.get(event).unwrap().drift()
}
