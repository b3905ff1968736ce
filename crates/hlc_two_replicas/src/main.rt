//! Two replicas of a shopping cart: a write at each and a message between them, why its delivery has the stamp that it has, and
//! what the receiver then shows.
#![tactic(auto)]

ghost use Rattle.std.specs.Prelude.{IfOk};
ghost use Rattle.hlc_arena.specs.ClockRule.{HasLeastStamps};

use hlc_arena::Arena;
use hlc_core::{ActionRef, Cluster};
use hlc_explain::chain;
use hlc_stamp::{EventId, NodeId};
use hlc_table::Table;
use std::alloc::Global;
use std::io;

const HOME: NodeId = NodeId(0);

const AWAY: NodeId = NodeId(1);

// Both nodes write, and node 1, whose clock is behind, delivers what node 0 wrote: the cluster, and that delivery.
fn share_apples(alloc: Global) -> anyhow::Result<(Cluster, EventId)>
    ensures { IfOk result (λ shared. HasLeastStamps shared.0.history.events) }
{
    let mut cluster = Cluster::new(alloc, 2, 16)?;
    let (key, value) = (b"cart".as_slice(), b"apples".as_slice());
    cluster.ask(HOME, 100, ActionRef::Write { key, value })?;
    let send = cluster.ask(HOME, 100, ActionRef::Send { to: AWAY, key })?;
    let value = b"plums".as_slice();
    cluster.ask(AWAY, 97, ActionRef::Write { key, value })?;
    let sent = send.event;
    let delivery = cluster.ask(AWAY, 97, ActionRef::Deliver { sent })?;
    Ok((cluster, delivery.event))
}

// Prints the events of a list.
fn print_events(rt: &impl Print, history: &Arena, events: &[EventId]) -> io::Result<()> {
    for event in events {
        if let Some(record) = history.get(*event) {
            let (place, node, stamp) = (event.0, record.node.0, record.stamp);
            println!(rt;
                "event {place} at node {node}, which read {}: ({}, {})",
                record.reading, stamp.l, stamp.c
            )?;
        }
    }
    Ok(())
}

// Prints what a node shows.
fn print_table(rt: &impl Print, history: &Arena, table: &Table) -> anyhow::Result<()> {
    for (key, entry) in table.entries() {
        let write = entry.write;
        if let Some(value) = history.get(write).and_then(|record| record.kind.value()) {
            let (key, value) = (str::from_utf8(key)?, str::from_utf8(value)?);
            println!(rt; "{key} is {value}, written by event {}", write.0)?;
        }
    }
    Ok(())
}

// Prints why a delivery at node 1 has its stamp, and what that node shows.
fn print_delivery(
    rt: &impl Print,
    alloc: Global,
    cluster: &Cluster,
    delivery: EventId,
) -> anyhow::Result<()> {
    let history = cluster.history();
    println!(rt; "Why the delivery has its stamp:")?;
    print_events(rt, history, &chain(alloc, history.execution(), delivery)?)?;
    if let Some(table) = cluster.table(AWAY) {
        println!(rt; "What node {} shows:", AWAY.0)?;
        print_table(rt, history, table)?;
    }
    Ok(())
}

fn main(rt: HostRuntime) -> anyhow::Result<()> {
    let (cluster, delivery) = share_apples(rt.alloc())?;
    print_delivery(&rt, rt.alloc(), &cluster, delivery)
}
