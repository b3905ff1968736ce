use crate::ask::Ask;
use crate::call::{Answer, Call};
use crate::fault::Fault;
use crate::shared::{play, share};
use crate::shown::{Digest, history_digest, table_digest};
use hlc_arena::Arena;
use hlc_core::Cluster;
use hlc_explain::{chain, explain_all, influenced};
use hlc_pool::Pool;
use hlc_seeded::storm;
use hlc_stamp::{EventId, NodeId, Rank, Settings, Stamp};
use hlc_table::{Table, snapshot};
use hlc_text::{export, print_steps, run};
use hlc_trace::judge_run;
use std::alloc::Global;
use std::sync::Wait;
use std::thread::Threads;

// The most bytes that a call writes.
const MOST_TEXT: usize = 4_096;

const SETTINGS: Settings = Settings {
    nodes: 2,
    capacity: 16,
    limit: None,
};

const RANK: Rank = Rank {
    stamp: Stamp { l: 10, c: 0 },
    node: NodeId(0),
};

fn make_room(history: &mut Arena) -> Result<(), Fault> {
    history.reserve()?;
    Ok(())
}

// A history with room for an event.
fn make_arena(alloc: Global) -> Result<(), Fault> {
    let mut history = Arena::new(alloc, 2, 16)?;
    make_room(&mut history)
}

// Live messages with room for a late send.
fn make_pool(alloc: Global) -> Result<(), Fault> {
    Pool::new(alloc, 2)?.reserve(EventId(500))?;
    Ok(())
}

// Whether the first write that a table learns is news.
fn learn_first(alloc: Global) -> Result<bool, Fault> {
    Ok(Table::new(alloc).learn(b"a", EventId(0), RANK)?)
}

// What a cluster is made of, with room for more.
fn make_parts(alloc: Global) -> Result<Answer, Fault> {
    make_arena(alloc)?;
    make_pool(alloc)?;
    Ok(Answer::Is(learn_first(alloc)?))
}

// Whether a copy of a cluster's history is equal to it.
fn copy_history(alloc: Global, cluster: &Cluster) -> Result<Answer, Fault> {
    let copy = cluster.copy_history(alloc)?;
    let is_same = history_digest(&copy) == history_digest(cluster.history());
    Ok(Answer::Is(is_same))
}

// Whether a copy of a table is equal to it.
fn copy_table(table: &Table) -> Result<Answer, Fault> {
    let copy = table.copy()?;
    Ok(Answer::Is(table_digest(&copy) == table_digest(table)))
}

fn chain_of(alloc: Global, cluster: &Cluster, event: EventId) -> Result<Answer, Fault> {
    Ok(Answer::Events(chain(alloc, cluster.history().execution(), event)?))
}

fn influenced_by(alloc: Global, cluster: &Cluster, event: EventId) -> Result<Answer, Fault> {
    Ok(Answer::Events(influenced(alloc, cluster.history().execution(), event)?))
}

fn snapshot_of(
    alloc: Global,
    cluster: &Cluster,
    stamp: Stamp,
    node: NodeId,
) -> Result<Answer, Fault> {
    let table = snapshot(alloc, cluster.history(), stamp, node)?;
    Ok(Answer::Table(table.len(), table_digest(&table)))
}

fn export_history(alloc: Global, history: &Arena, text: &mut Vec<u8>) -> Result<Answer, Fault> {
    export(alloc, history, text)?;
    Ok(Answer::Done)
}

// Runs a script, and exports its history.
fn run_and_export(alloc: Global, script: &str, text: &mut Vec<u8>) -> Result<Answer, Fault> {
    let ran = run(alloc, script.as_bytes(), text, SETTINGS)?;
    export_history(alloc, &ran.history, text)
}

fn explain<R: Threads + Sync>(rt: &R, alloc: Global, cluster: &Cluster) -> Result<Answer, Fault> {
    Ok(Answer::Summaries(explain_all(rt, alloc, cluster.history().execution())?))
}

fn judge(alloc: Global, trace: &str, text: &mut Vec<u8>) -> Result<Answer, Fault> {
    judge_run(alloc, trace.as_bytes(), text)?;
    Ok(Answer::Done)
}

// Makes and prints a seeded script.
fn print_storm(alloc: Global, steps: u32, text: &mut Vec<u8>) -> Result<Answer, Fault> {
    let lists = storm(alloc, 1, 2, steps)?;
    print_steps(alloc, &lists, text)?;
    Ok(Answer::Done)
}

/// What calls are made on, and the text that the last of them wrote.
#[derive(Drop)]
pub(crate) struct Store {
    cluster: Cluster,
    pub(crate) text: Vec<u8>,
}

impl Store {
    pub(crate) fn new(alloc: Global) -> Result<Store, Fault> {
        let text = Vec::with_capacity(alloc, MOST_TEXT)?;
        let cluster = Cluster::with_limit(alloc, 2, 20, 50)?;
        Ok(Store { cluster, text })
    }

    /// A checksum of all that it shows.
    pub(crate) fn digest(&self) -> u64 {
        let mut digest = Digest::new();
        digest.add_cluster(&self.cluster);
        digest.value
    }

    fn act(
        &mut self,
        alloc: Global,
        node: NodeId,
        reading: u64,
        ask: Ask,
    ) -> Result<Answer, Fault> {
        let action = ask.action(alloc)?.copy(alloc)?;
        Ok(Answer::Accepted(self.cluster.act(node, reading, action)?))
    }

    /// Makes a call.
    pub(crate) fn make<R: Threads + Wait + Sync>(
        &mut self,
        rt: &R,
        alloc: Global,
        call: Call,
    ) -> Result<Answer, Fault> {
        self.text.clear();
        match call {
            Call::MakeParts => make_parts(alloc),
            Call::Act(node, reading, ask) => self.act(alloc, NodeId(node), reading, ask),
            Call::CopyHistory => copy_history(alloc, &self.cluster),
            Call::CopyTable(node) => match self.cluster.table(NodeId(node)) {
                Some(table) => copy_table(table),
                None => Ok(Answer::Done),
            },
            Call::Chain(event) => chain_of(alloc, &self.cluster, EventId(event)),
            Call::Influenced(event) => influenced_by(alloc, &self.cluster, EventId(event)),
            Call::Snapshot(l, c, node) => {
                snapshot_of(alloc, &self.cluster, Stamp { l, c }, NodeId(node))
            }
            Call::Run(script) => run_and_export(alloc, script, &mut self.text),
            Call::ExplainAll => explain(rt, alloc, &self.cluster),
            Call::Judge(trace) => judge(alloc, trace, &mut self.text),
            Call::Storm(steps) => print_storm(alloc, steps, &mut self.text),
            Call::Share => share(rt, alloc),
            Call::Play => play(rt, alloc),
        }
    }
}
