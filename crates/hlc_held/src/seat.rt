ghost use Rattle.std.specs.Prelude.{◌≡◌, ◌<◌, IfOk, OnOk};
ghost use Rattle.hlc_held.specs.LogEntry.{log_of};
ghost use Rattle.hlc_held.specs.Seats.{fresh_seats};

use crate::group::Group;
use crate::logged::Logged;
use hlc_stamp::NodeId;
use std::alloc::{AllocError, Global};
use std::marker::Model;
use std::sync::ledger::Share;

/// The seat of one node: who has it asks the node, and it keeps a log of what was answered. It can't be copied.
///
/// Contracts see its node and its log.
#[derive(Drop)]
pub struct Seat<L: Group> {
    pub(crate) node: NodeId,
    pub(crate) log: Vec<Logged>,
    // Its amount is the number of requests in the log that were accepted.
    pub(crate) share: Share<L>,
}

impl<L: Group> Model for Seat<L> {
    ghost use Rattle.hlc_held.specs.Seats.{NodeLog};

    ghost Value = { NodeLog };

    ghost use Rattle.hlc_held.specs.LogEntry.{log_of};
    ghost use Rattle.hlc_held.specs.Seats.{IsSeat, node_log};

    ghost view = { λ s. node_log s.node.0 (log_of s.log.items) };

    ghost invariant = { λ s. IsSeat L.nodes s.share.parts s.share.amount (node_log s.node.0 (log_of s.log.items)) };
}

impl<L: Group> Seat<L> {
    /// The node that is asked through the seat.
    pub fn node(&self) -> NodeId
        ensures node { result.0 ≡ self.now.node }
        ensures exists { result.0 < L.nodes }
    {
        self.node
    }

    /// What the node was asked and answered, in order.
    pub fn log(&self) -> &[Logged]
        ensures { log_of result.now ≡ self.now.log }
    {
        self.log.as_slice()
    }

    /// Makes room in the log for so many more entries at once, for a caller that knows how many will come.
    ///
    /// No call needs it: each makes the room that its entry takes.
    pub fn reserve(&mut self, additional: usize) -> Result<(), AllocError>
        ensures unchanged { self.new ≡ self.old }
    {
        self.log.reserve(additional)
    }
}

/// A seat for each node, each with a part of a share that has one for each.
pub(crate) fn seats_for<L: Group>(
    alloc: Global,
    nodes: u16,
    all: &mut Share<L>,
) -> Result<Vec<Seat<L>>, AllocError>
    requires nodes { nodes ≡ L.nodes }
    requires parts { all.old.parts ≡ nodes }
    requires nothing_counted { all.old.amount ≡ 0 }
    ensures seats { IfOk result (λ seats. seats.items ≡ fresh_seats nodes) }
    ensures parts { OnOk result (all.new.parts ≡ 0) }
    ensures nothing_counted { OnOk result (all.new.amount ≡ 0) }
{
    let mut seats = Vec::with_capacity(alloc, nodes as usize)?;
    for node in 0..nodes {
        let share = all.split_off(1, 0);
        seats.push_reserved(Seat {
            node: NodeId(node),
            log: Vec::new(alloc),
            share,
        });
    }
    Ok(seats)
}
