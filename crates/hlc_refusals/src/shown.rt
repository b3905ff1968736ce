// What calls that take no memory show, in a checksum.

ghost use Rattle.std.specs.Prelude.{◌<◌, length};

use hlc_arena::Arena;
use hlc_core::Cluster;
use hlc_explain::{drift, relation};
use hlc_stamp::{EventId, NodeId};
use hlc_table::Table;
use std::fmt;
use std::fmt::{Debug, Write};

/// A checksum (FNV-1a) of what was added, as `Debug` writes it.
#[derive(Drop)]
pub(crate) struct Digest {
    pub(crate) value: u64,
}

impl Write for Digest {
    fn write_str(&mut self, text: &str) -> fmt::Result {
        for byte in text.as_bytes() {
            self.value = (self.value ^ u64::from(*byte)).wrapping_mul(1_099_511_628_211);
        }
        Ok(())
    }
}

impl Digest {
    pub(crate) fn new() -> Digest {
        Digest {
            value: 14_695_981_039_346_656_037,
        }
    }

    pub(crate) fn add<T: Debug>(&mut self, shown: &T) {
        let _ = write!(self, "{shown:?};");
    }

    pub(crate) fn add_table(&mut self, table: &Table) {
        for row in table.entries() {
            self.add(&row);
        }
    }

    // The event, what comes directly before and after it, and what forces its stamp.
    fn add_event(&mut self, history: &Arena, event: EventId)
        requires { event.0 < length history.now.events }
    {
        self.add(&history.get(event));
        self.add(&history.previous(event));
        self.add(&history.next_at_node(event));
        self.add(&history.forcing(event));
        self.add(&history.origin(event));
        self.add(&relation(history.execution(), EventId(0), event));
        for delivery in history.deliveries(event) {
            self.add(&delivery);
        }
    }

    pub(crate) fn add_history(&mut self, history: &Arena) {
        for place in 0..history.len() {
            self.add_event(history, EventId(place));
        }
        for node in 0..history.nodes() {
            self.add(&history.first_at(NodeId(node)));
            self.add(&history.last_at(NodeId(node)));
            self.add(&history.furthest_ahead(NodeId(node)));
        }
    }

    // A node's table and the live messages to it.
    fn add_node(&mut self, cluster: &Cluster, node: NodeId) {
        if let Some(table) = cluster.table(node) {
            self.add_table(table);
        }
        self.add(&drift(cluster.history().execution(), node));
        if let Some(inbox) = cluster.inbox(node) {
            for sent in inbox {
                self.add(&sent);
            }
        }
    }

    pub(crate) fn add_cluster(&mut self, cluster: &Cluster) {
        self.add_history(cluster.history());
        for node in 0..cluster.nodes() {
            self.add_node(cluster, NodeId(node));
        }
    }
}

/// The checksum of a history.
pub(crate) fn history_digest(history: &Arena) -> u64 {
    let mut digest = Digest::new();
    digest.add_history(history);
    digest.value
}

/// The checksum of a table.
pub(crate) fn table_digest(table: &Table) -> u64 {
    let mut digest = Digest::new();
    digest.add_table(table);
    digest.value
}
