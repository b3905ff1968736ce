// Whose turn it is, while events get their places.

ghost use Rattle.std.specs.Prelude.{◌≡◌, ◌<◌, ◌↔◌, ◌⊎◌, IfOk, IfSome, IsNone, IsSome, OnOk};
ghost use Rattle.std.specs.BinaryHeap.{heap_len};
ghost use Rattle.hlc_log.specs.Turns.{HasTurn, turns_left};

use hlc_stamp::NodeId;
use std::alloc::{AllocError, Global};
use std::cmp::Reverse;
use std::collections::BinaryHeap;
use std::mem::swap;

// The nodes that are to go on, in rounds: in each of these they have their turns in the order of their numbers.
#[derive(Drop)]
pub(crate) struct Turns {
    // Whose turn it is.
    current: NodeId,
    round: BinaryHeap<Reverse<NodeId>>,
    next_round: BinaryHeap<Reverse<NodeId>>,
}

impl Turns {
    // A turn for each of so many nodes.
    pub(crate) fn new(alloc: Global, nodes: u16) -> Result<Turns, AllocError>
        ensures { IfOk result (λ turns. (node : NodeId) → HasTurn turns node ↔ (node.0 < nodes)) }
    {
        let mut turns = Turns {
            current: NodeId(0),
            round: BinaryHeap::new(alloc),
            next_round: BinaryHeap::new(alloc),
        };
        for node in 0..nodes {
            turns.give(NodeId(node))?;
        }
        Ok(turns)
    }

    // Gives a node a turn: in this round, unless the round is past it.
    pub(crate) fn give(&mut self, node: NodeId) -> Result<(), AllocError>
        ensures { OnOk result ((other : NodeId) → HasTurn self.new other ↔ (HasTurn self.old other ⊎ (node ≡ other))) }
    {
        if node < self.current {
            self.next_round.push(Reverse(node))?;
        } else {
            self.round.push(Reverse(node))?;
        }
        Ok(())
    }

    // Takes the next turn, if there is one.
    pub(crate) fn take(&mut self) -> Option<NodeId>
        ensures none { IsNone result → (node : NodeId) → ¬ HasTurn self.old node }
        ensures taken { IfSome result (λ taken. (node : NodeId) → HasTurn self.old node ↔ ((taken ≡ node) ⊎ HasTurn self.new node)) }
        ensures fewer { IsSome result → turns_left self.new < turns_left self.old }
    {
        self.begin_round();
        let Reverse(node) = self.round.pop()?;
        self.current = node;
        Some(node)
    }

    // Begins the next round, if this one is over.
    fn begin_round(&mut self)
        ensures same { (node : NodeId) → HasTurn self.new node ↔ HasTurn self.old node }
        ensures left { turns_left self.new ≡ turns_left self.old }
        ensures over { heap_len self.new.round ≡ 0 → heap_len self.new.next_round ≡ 0 }
    {
        if self.round.is_empty() {
            swap(&mut self.round, &mut self.next_round);
        }
    }
}
