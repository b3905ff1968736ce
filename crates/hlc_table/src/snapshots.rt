ghost use Rattle.std.specs.Prelude.{◌≡◌, ◌≤◌, ◌↔◌, ◌⊎◌, Err, IfErr, IfOk, IsTrue, Some};
ghost use Rattle.hlc_stamp.specs.declared.id.EventId.{EventId as Place};
ghost use Rattle.hlc_arena.specs.ClockRule.{HasLeastStamps};
ghost use Rattle.hlc_arena.specs.Known.{cut_at};
ghost use Rattle.hlc_table.specs.Snapshot.{snapshot_rows};
ghost use Rattle.hlc_table.specs.NodeWalk.{StandsAt};

use crate::{NodeWalk, Table};
use hlc_arena::Arena;
use hlc_stamp::{NodeId, Stamp};
use hlc_verdict::AuditFault;
use std::alloc::Global;

/// The table that a node's events with stamps of at most the given one make: a view of the node at that stamp.
///
/// These events of all nodes are a consistent cut: with an event they have all that happened before it (Kulkarni and
/// others 2014, on consistent snapshots). It takes a step for each event of the node in the cut, and a look-up for each write
/// that the node learnt there.
pub fn snapshot(
    alloc: Global,
    history: &Arena,
    stamp: Stamp,
    node: NodeId,
) -> Result<Table, AuditFault>
    requires { HasLeastStamps history.now.events }
    ensures rows { IfOk result (λ table. table ≡ snapshot_rows history.now.events stamp node.0) }
    ensures no_node { (result ≡ Err AuditFault.NoNode) ↔ (history.now.nodes ≤ node.0) }
    ensures no_other_fault { IfErr result (λ fault. (fault ≡ AuditFault.NoNode) ⊎ (fault ≡ AuditFault.Memory)) }
{
    if node.0 >= history.nodes() {
        return Err(AuditFault::NoNode);
    }
    let mut walk = NodeWalk::new(alloc, history, node);
    while is_next_in_cut(history, &walk, stamp) {
        walk.pass(history)?;
    }
    Ok(walk.into_known())
}

// Whether a walk has a next event, with a stamp of at most the given one. A node's stamps rise, so none is in the cut after
// the first that isn't.
fn is_next_in_cut(history: &Arena, walk: &NodeWalk, stamp: Stamp) -> bool
    requires { StandsAt history.now.events walk.now }
    ensures { IsTrue result ↔ ((next : Place) × (walk.now.next ≡ Some next) × IsTrue (cut_at history.now.events stamp next.0)) }
{
    match walk.next_event() {
        Some(event) => history.stamp(event) <= stamp,
        None => false,
    }
}
