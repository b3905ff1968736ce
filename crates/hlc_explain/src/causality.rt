ghost use Rattle.std.specs.Prelude.{◌≡◌, ◌<◌, ◌≤◌, ◌↔◌, ◌⊎◌, All, Err, IfErr, IfOk, IsTrue, length};
ghost use Rattle.hlc_causality.specs.Causality.{HappenedBefore};
ghost use Rattle.hlc_execution.specs.Execution.{IsExecution};

use crate::answers::Relation;
use crate::frontier::Frontier;
use hlc_execution::Execution;
use hlc_stamp::{EventId, MAX_NODES};
use hlc_verdict::AuditFault;

/// How two events stand in happened-before itself, whatever their stamps.
///
/// It goes backwards from the later event over direct predecessors, the latest first, until the earlier one is known to be
/// in its past or not to be: a past has of each node the events before one place. It goes over no event before the earlier
/// one and over none twice, and takes no memory. `relation_with_ends` answers it for more nodes.
pub fn relation(execution: &Execution, e: EventId, f: EventId) -> Result<Relation, AuditFault>
    requires few { execution.now.nodes ≤ MAX_NODES }
    ensures before { IfOk result (λ relation. (relation ≡ Relation.Before) ↔ HappenedBefore execution.now.events e.0 f.0) }
    ensures after { IfOk result (λ relation. (relation ≡ Relation.After) ↔ HappenedBefore execution.now.events f.0 e.0) }
    ensures same { IfOk result (λ relation. (relation ≡ Relation.Same) ↔ (e ≡ f)) }
    ensures no_event { (result ≡ Err AuditFault.NoEvent)
        ↔ ((length execution.now.events ≤ e.0) ⊎ (length execution.now.events ≤ f.0)) }
    ensures no_other_fault { IfErr result (λ fault. fault ≡ AuditFault.NoEvent) }
{
    let mut ends = [0; MAX_NODES as usize];
    relation_with_ends(execution, &mut ends[..execution.nodes() as usize], e, f)
}

/// How two events stand in happened-before, whatever their stamps and however many nodes there are: as `relation` answers it, with the
/// caller's memory.
///
/// The caller lends a number for each node, at first 0; what is left in them says nothing. Whenever the walk goes on at another node,
/// it looks at all of them. So of a log of many nodes a question takes at worst a step for each event of the past and each number.
pub fn relation_with_ends(
    execution: &Execution,
    ends: &mut [u32],
    e: EventId,
    f: EventId,
) -> Result<Relation, AuditFault>
    requires enough { execution.now.nodes ≤ length ends.old }
    requires clear { All (λ end. end ≡ 0) ends.old }
    ensures before { IfOk result (λ relation. (relation ≡ Relation.Before) ↔ HappenedBefore execution.now.events e.0 f.0) }
    ensures after { IfOk result (λ relation. (relation ≡ Relation.After) ↔ HappenedBefore execution.now.events f.0 e.0) }
    ensures same { IfOk result (λ relation. (relation ≡ Relation.Same) ↔ (e ≡ f)) }
    ensures no_event { (result ≡ Err AuditFault.NoEvent)
        ↔ ((length execution.now.events ≤ e.0) ⊎ (length execution.now.events ≤ f.0)) }
    ensures no_other_fault { IfErr result (λ fault. fault ≡ AuditFault.NoEvent) }
{
    let len = execution.len();
    if e.0 >= len || f.0 >= len {
        return Err(AuditFault::NoEvent);
    }
    Ok(if e.0 < f.0 {
        if happened_before(execution, ends, e, f) {
            Relation::Before
        } else {
            Relation::Concurrent
        }
    } else if f.0 < e.0 {
        if happened_before(execution, ends, f, e) {
            Relation::After
        } else {
            Relation::Concurrent
        }
    } else {
        Relation::Same
    })
}

// Whether the earlier of two events happened before the later.
fn happened_before(
    execution: &Execution,
    ends: &mut [u32],
    earlier: EventId,
    later: EventId,
) -> bool
    requires well_formed { IsExecution execution.now }
    requires enough { execution.now.nodes ≤ length ends.old }
    requires clear { All (λ end. end ≡ 0) ends.old }
    requires earlier { earlier.0 < later.0 }
    requires exists { later.0 < length execution.now.events }
    ensures before { IsTrue result ↔ HappenedBefore execution.now.events earlier.0 later.0 }
    ensures not_after { ¬ HappenedBefore execution.now.events later.0 earlier.0 }
{
    let node = execution.get(earlier).unwrap().node;
    let mut frontier = Frontier::around(execution, later);
    while !frontier.has(ends, node, earlier) {
        if frontier.latest().0 <= earlier.0 || !frontier.pass(execution, ends) {
            return false;
        }
    }
    true
}
