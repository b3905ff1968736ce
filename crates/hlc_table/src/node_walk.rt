ghost use Rattle.std.specs.Prelude.{◌≡◌, ◌+◌, IsOk, IsSome, OnErr, OnOk, []};
ghost use Rattle.hlc_arena.specs.ClockRule.{HasLeastStamps};
ghost use Rattle.hlc_table.specs.NodeEvents.{NamesNextFrom};
ghost use Rattle.hlc_table.specs.NodeWalk.{StandsAt, next_writes, place_of_next};
ghost use Rattle.hlc_table.specs.Tables.{NeedNoMemory};

use crate::learner::learn_event;
use crate::table::Table;
use hlc_arena::Arena;
use hlc_stamp::{EventId, NodeId};
use std::alloc::{AllocError, Global};
use std::marker::Model;

/// A walk along the events of a node, in order, with the table of what the node knows from those that were passed.
///
/// It takes a step for each event, and a look-up for each write of its own and each that a message brings, but for one that was
/// delivered before.
#[derive(Drop)]
pub struct NodeWalk {
    node: NodeId,
    known: Table,
    next: Option<EventId>,
}

impl Model for NodeWalk {
    ghost use Rattle.hlc_table.specs.NodeWalk.{Walk};

    ghost Value = { Walk };

    ghost use Rattle.hlc_table.specs.NodeWalk.{walk_of};

    ghost view = { λ walk. walk_of walk.node.0 walk.known walk.next };
}

impl NodeWalk {
    /// A walk that stands before the node's first event. A node that doesn't exist has none.
    pub fn new(alloc: Global, history: &Arena, node: NodeId) -> Self
        ensures node { result.node ≡ node.0 }
        ensures stands { StandsAt history.now.events result }
        ensures knows_nothing { result.known ≡ [] }
        ensures first { NamesNextFrom history.now.events node.0 0 result.next }
    {
        NodeWalk {
            node,
            known: Table::new(alloc),
            next: first_event(history, node),
        }
    }

    /// The event that comes next, if there is one.
    pub fn next_event(&self) -> Option<EventId>
        ensures { result ≡ self.now.next }
    {
        self.next
    }

    /// What the node knows from the events that were passed.
    pub fn known(&self) -> &Table
        ensures { result.now ≡ self.now.known }
    {
        &self.known
    }

    /// What the node knows from the events that were passed, alone.
    pub fn into_known(self) -> Table
        ensures { result ≡ self.known }
    {
        self.known
    }

    /// Passes the next event: the table learns what it makes known. If memory is refused, the walk stays where it is.
    pub fn pass(&mut self, history: &Arena) -> Result<(), AllocError>
        requires least { HasLeastStamps history.now.events }
        requires stands { StandsAt history.now.events self.old }
        requires next { IsSome self.old.next }
        ensures node { self.new.node ≡ self.old.node }
        ensures stands { OnOk result (StandsAt history.now.events self.new) }
        ensures next { OnOk result (NamesNextFrom history.now.events self.old.node
            (place_of_next history.now.events self.old.next + 1) self.new.next) }
        ensures unchanged { OnErr result (self.new ≡ self.old) }

        // What makes nothing known, as a send, takes no memory, nor does a single write of a known key.
        ensures in_place { NeedNoMemory history.now.events self.old.known (next_writes history.now.events self.old) → IsOk result }
    {
        let event = self.next.unwrap();
        learn_event(&mut self.known, history, event)?;
        self.next = history.next_at_node(event);
        Ok(())
    }
}

// The first event of a node, if it has one.
fn first_event(history: &Arena, node: NodeId) -> Option<EventId>
    ensures { NamesNextFrom history.now.events node.0 0 result }
{
    if node.0 >= history.nodes() {
        history.keeps_a_well_formed_history();
        return None;
    }
    history.first_at(node)
}
