ghost use Rattle.std.specs.Prelude.{◌≡◌, ◌+◌, ◌*◌, ◌<◌, ◌≤◌, length, slice_range};
ghost use Rattle.hlc_explain.specs.Vectors.{count_in, vector_in};

use hlc_stamp::{EventId, NodeId};
use std::marker::Model;

/// The vector clocks of the events of an execution, seen as a list of them: of each event, for each node, how many of the node's
/// events are the event or happened before it.
#[derive(Drop)]
pub struct Vectors {
    pub(crate) nodes: u16,
    pub(crate) events: u32,
    // The vectors one after another.
    pub(crate) counts: Vec<u32>,
}

impl Model for Vectors {
    ghost use Rattle.std.specs.Prelude.{◌≡◌, ◌*◌, ℕ, List, vec_len};

    ghost Value = { List (List ℕ) };

    ghost use Rattle.hlc_explain.specs.Counts.{vectors_in};

    ghost view = { λ v. vectors_in v.nodes v.events v.counts.items };

    ghost invariant = { λ v. vec_len v.counts ≡ v.events * v.nodes };
}

impl Vectors {
    /// The vector of an event: a number for each node.
    pub fn vector(&self, event: EventId) -> &[u32]
        requires { event.0 < length self.now }
        ensures { result.now ≡ vector_in self.now event.0 }
    {
        let start = place_of(event, self.nodes, NodeId(0));
        part(&self.counts, start, self.nodes as usize)
    }

    /// How many of a node's events are the event or happened before it.
    pub fn count(&self, event: EventId, node: NodeId) -> u32
        requires event { event.0 < length self.now }
        requires node { node.0 < length (vector_in self.now event.0) }
        ensures { result ≡ count_in self.now event.0 node.0 }
    {
        let vector = self.vector(event);
        vector[node.0 as usize]
    }
}

/// Where the number of an event for a node stands, of so many nodes.
#[tactic(auto, using(crate::proofs::Places::product_fits))]
pub(crate) fn place_of(event: EventId, nodes: u16, node: NodeId) -> usize
    ensures { result ≡ event.0 * nodes + node.0 }
{
    let start = event.0 as usize * nodes as usize;
    start + node.0 as usize
}

// So many numbers from a place on.
fn part(counts: &[u32], start: usize, len: usize) -> &[u32]
    requires { start + len ≤ length counts.now }
    ensures { result.now ≡ slice_range counts.now start (start + len) }
{
    &counts[start..start + len]
}
